//! What of an engine outlives its run.
ghost use Rattle.std.specs.Prelude.{◌≡◌, ◌<◌, ◌≤◌, ◌+◌, ◌^◌, ◌||◌, ℕ, Some, nat_le};
ghost use Rattle.ob_base.specs.Stored.{headings_of};
ghost use Rattle.ob_tables.specs.Agreeing.{Agrees, count_of, public_of};
ghost use Rattle.ob_mean.specs.Flats.{AreFlat};
ghost use Rattle.ob_tables.specs.Closing.{ClosesEngine, DropsClosing};
ghost use Rattle.ob_vault.specs.declared.region.Region.{Region as Layout};
ghost use Rattle.ob_vault.specs.Places.{at};
ghost use Rattle.ob_vault.specs.Tied.{Lives, Ready};
ghost use Rattle.ob_reopen.specs.Closings.{mark_of};

use crate::engine::{Engine, LATE};
use ob_reopen::{CloseErr, Closing, Mark, list_tables, write_closing};
use ob_store::BlockStore;
use ob_vault::{Revisions, Vault};

// The mark that names a closing.
fn mark_of(closing: Closing) -> Mark
    ensures { result ≡ mark_of closing }
{
    Mark::Closed {
        region: closing.region,
        blocks: closing.blocks,
        number: closing.number,
        pack: closing.pack,
    }
}

// Takes a closing out of the vault and the store, if there is one, whatever the store answers.
fn drop_closing<S: BlockStore, R: Revisions>(
    store: &mut S,
    vault: &mut Vault<R>,
    closing: Option<u64>,
)
    requires ready { Ready (at R.state vault.old (S.state store.old)) }
    requires spare { 1 ≤ (S.state store.old).spare }
    requires lives { (q : ℕ) → closing ≡ Some q
        → (shape : Layout) × Lives q shape (at R.state vault.old (S.state store.old)) }
    ensures drops { DropsClosing closing (at R.state vault.old (S.state store.old))
        (at R.state vault.new (S.state store.new)) }
{
    if let Some(region) = closing {
        // A store that fails here has counted it.
        let _ = vault.drop_region(store, region);
    }
}

impl<R: Revisions> Engine<R> {
    // Whether the next region or the next write would have a number that no mark may name.
    pub(crate) fn is_used_up(&self) -> bool
        ensures { result ≡ (nat_le (2 ^ 63) self.now.vault.next
            || nat_le (2 ^ 63) (self.now.vault.count + 1)) }
    {
        self.vault.next_region() >= LATE || self.vault.writes() >= LATE - 1
    }

    /// Writes a closing, a region that lists the tables by their names, and gives the mark that names it:
    /// from this mark the next run opens them again. The closing that the engine itself was opened from is
    /// discarded before, whatever the store answers to that. The closing is written through the engine's own room.
    ///
    /// No table is an index: none is made where tables are kept.
    ///
    /// `InUse`, and nothing is asked of the store, where the closing's region or its first write would have a
    /// number above 2^63 - 1. `Failed` where the store failed; `NoMemory` before the first access, or where the
    /// region is made. After an error there is no mark that names these tables.
    pub fn close<S: BlockStore>(self, store: &mut S) -> Result<Mark, CloseErr>
        requires agrees { Agrees R.state self (S.state store.old) }
        requires flat { AreFlat (headings_of (public_of self).tables) }
        requires few { count_of self (S.state store.old) < 2 ^ 63 + 2 ^ 59 }
        ensures closes { ClosesEngine R.state result self (S.state store.old) (S.state store.new) }
    {
        if self.is_used_up() {
            return Ok(Mark::InUse);
        }
        let Engine {
            alloc,
            mut vault,
            mut room,
            public,
            closing,
            ..
        } = self;
        let tables = public.tables.as_slice();
        // one to discard the old closing, one to make the new one, and one to write each of its blocks
        if store.reserve(3 + tables.len() as u64).is_err() {
            return Err(CloseErr::NoMemory);
        }
        let Ok(listed) = list_tables(alloc, &vault, tables) else {
            return Err(CloseErr::NoMemory);
        };
        drop_closing(store, &mut vault, closing);
        let from = vault.next_region();
        match write_closing(store, &mut vault, &mut room, listed.as_slice()) {
            Ok(written) => Ok(mark_of(written)),
            Err(e) => {
                vault.give_up(store, from);
                Err(e)
            }
        }
    }
}
