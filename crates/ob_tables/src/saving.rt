//! An engine whose tables are saved: after a statement that changed them they are listed in a closing, and a later run
//! goes on from the one that was written last.
ghost use Rattle.std.specs.Prelude.{◌≡◌, ◌≢◌, ◌<◌, ◌≤◌, ◌+◌, ◌^◌, ℕ, List, Option, [], Some, None, IfOk, true, false};
ghost use Rattle.std.specs.Option.{option_map};
ghost use Rattle.ob_base.specs.Stored.{Stored, headings_of, stored_at, stored_regions};
ghost use Rattle.ob_tables.specs.Agreeing.{Agrees, count_of, engine_keys, has_ended, opened_from, public_of, replaced_of};
ghost use Rattle.ob_tables.specs.Closing.{DropsClosing};
ghost use Rattle.ob_tables.specs.Engines.{IsConfig, former_of};
ghost use Rattle.ob_tables.specs.Saving.{NamesClosing, OpensSaved, SavesEngine, SettlesEngine, Waits};
ghost use Rattle.ob_mean.specs.Flats.{AreFlat};
ghost use Rattle.ob_script.specs.Saved.{left_by};
ghost use Rattle.ob_sql.specs.Skeleton.{skeleton};
ghost use Rattle.ob_reopen.specs.Closings.{saved_mark};
ghost use Rattle.ob_reopen.specs.Keepers.{AreSaltBytes};
ghost use Rattle.ob_reopen.specs.Saved.{reopening_keys};
ghost use Rattle.ob_reopen.specs.declared.closing.Closing.{Closing as Named};
ghost use Rattle.ob_seal.specs.KeySet.{pair_of};
ghost use Rattle.ob_store.specs.Calls.{IsLive};
ghost use Rattle.ob_store.specs.State.{StoreState};
ghost use Rattle.ob_vault.specs.Places.{at};
ghost use Rattle.ob_vault.specs.Tied.{Ready};
ghost use Rattle.ob_vault.specs.VaultCalls.{Forgets};

use crate::engine::{Engine, ROW_WIDTH, seen_to_end};
use crate::opening::{public_at, tables_of};
use crate::tables::find_table;
use ob_base::{Config, End, Name, NoMemory, Table};
use ob_mutate::Former;
use ob_reopen::{
    CloseErr, Closing, Listed, Mark, OpenErr, list_tables, read_closing, reopen_tables,
    salted_regions, write_closing,
};
use ob_room::RowBuffer;
use ob_seal::{Draws, Keys};
use ob_sql::Stmt;
use ob_store::{BlockStore, Lasting};
use ob_vault::{Revisions, Vault};
use std::alloc::Global;

// The mark that names a closing of a run with this salt, and this check value.
fn mark_of(closing: Closing, salt: [u8; 16], check: [u8; 16]) -> Mark
    ensures named { result ≡ saved_mark closing salt check }
    ensures bytes { AreSaltBytes salt × AreSaltBytes check }
{
    Mark::Saved {
        region: closing.region,
        blocks: closing.blocks,
        number: closing.number,
        pack: closing.pack,
        salt,
        check,
    }
}

// The closing that a mark names, and the salt of the run that wrote it, if it had one.
fn closing_of(mark: &Mark) -> (Closing, Option<[u8; 16]>)
    requires { (pack : ℕ) × (closed : Option (List ℕ)) × (closing : Named)
        × NamesClosing mark.now pack closed closing }
    ensures { (pack : ℕ) (closed : Option (List ℕ)) (closing : Named)
        → NamesClosing mark.now pack closed closing
        → (result.0 ≡ closing) × (result.1 ≡ closed) }
{
    match *mark {
        Mark::Closed {
            region,
            blocks,
            number,
            pack,
        } => {
            let closing = Closing {
                region,
                blocks,
                number,
                pack,
            };
            (closing, None)
        }
        Mark::Saved {
            region,
            blocks,
            number,
            pack,
            salt,
            ..
        } => {
            let closing = Closing {
                region,
                blocks,
                number,
                pack,
            };
            (closing, Some(salt))
        }
        Mark::Fresh | Mark::InUse | Mark::Begun => unreachable!(),
    }
}

// The region of the first table of this name, if there is one.
fn region_of(tables: &[Table], name: &Name) -> Option<u64>
    ensures { result ≡ option_map (λ (t : Stored ℕ). t.held)
        (stored_at name.now (stored_regions tables.now)) }
{
    match find_table(tables, name) {
        Some(i) => Some(tables[i].region),
        None => None,
    }
}

// Takes a region that the vault has forgotten out of the store, if there is one, whatever that answers.
fn discard_left<S: BlockStore, R: Revisions>(store: &mut S, vault: &Vault<R>, left: Option<u64>)
    requires ready { Ready (at R.state vault.now (S.state store.old)) }
    requires spare { 1 ≤ (S.state store.old).spare }
    requires waits { (q : ℕ) → left ≡ Some q → IsLive (S.state store.old) q
        × (q < vault.now.next) × ((R.state vault.now.revs).live q ≡ None) }
    ensures drops { DropsClosing left (at R.state vault.now (S.state store.old))
        (at R.state vault.now (S.state store.new)) }
{
    if let Some(region) = left {
        // A store that fails here has counted it.
        let _ = vault.discard(store, region);
    }
}

// The keys of a run with this salt that goes on from a closing, of which the run that wrote it had a salt or none, and
// from these of its tables.
fn keys_from(
    alloc: Global,
    secret: &[u8; 32],
    salt: &[u8; 16],
    closing: Closing,
    closed: Option<[u8; 16]>,
    listed: &[Listed],
) -> Result<Keys, NoMemory>
    ensures { IfOk result (λ keys.
        keys ≡ reopening_keys secret.now salt.now closed closing listed.now) }
{
    let Ok(regions) = salted_regions(alloc, closing, closed, listed) else {
        return Err(NoMemory);
    };
    Keys::derive_salted(alloc, secret, salt, regions.as_slice())
}

impl<R: Revisions> Engine<R> {
    // What becomes of the region of a table that is changed, or dropped.
    pub(crate) fn former(&self) -> Former
        ensures { result ≡ former_of (public_of self.now) }
    {
        if self.public.save {
            Former::Keep
        } else {
            Former::Discard
        }
    }

    /// The region that a statement leaves in the store, once it comes to its end: that of the table that it changes or
    /// drops, where tables are saved.
    pub fn left_by(&self, stmt: &Stmt) -> Option<u64>
        ensures { result ≡ left_by (public_of self.now) (skeleton stmt.now) }
    {
        if !self.public.save {
            return None;
        }
        let tables = self.public.tables.as_slice();
        match stmt {
            Stmt::Insert { table, .. } => region_of(tables, table),
            Stmt::Update { table, .. } => region_of(tables, table),
            Stmt::Delete { table, .. } => region_of(tables, table),
            Stmt::Drop { table } => region_of(tables, table),
            Stmt::Create { .. } | Stmt::SelectRows(_) | Stmt::SelectTotals(_) => None,
        }
    }

    /// Opens the tables that a closing lists, for a run with this salt that saves them: the closing that `mark` names,
    /// which a run with this secret and with blocks of so many rows closed or saved into this store. Nothing was asked of
    /// the store in this run.
    ///
    /// It opens the closing, reads each of its blocks once, in order, and opens the region of each table that it lists, in
    /// order of their names. Numbers of writes and of regions go on from the closing's. What is sealed from now on is sealed
    /// under the keys of this run's salt; what lies there stays under those of the runs that made its regions, which the
    /// mark and the closing name.
    ///
    /// `Failed` where the store failed, or doesn't keep a region of this number and size. `Tampered` names a block of the
    /// closing that is not the one that was written there, or that spells no closing. `NoMemory` before the first access,
    /// or after the closing's reads.
    pub fn open_saved<S: Lasting>(
        alloc: Global,
        config: Config,
        secret: &[u8; 32],
        salt: &[u8; 16],
        store: &mut S,
        mark: &Mark,
    ) -> Result<Engine<R>, OpenErr>
        requires config { IsConfig config }
        requires keeps { config.keep ≡ true }
        requires saves { config.save ≡ true }
        requires closed { (closed : Option (List ℕ)) × (closing : Named)
            × NamesClosing mark.now config.pack closed closing }
        requires fresh { (S.state store.old).asked ≡ [] }
        ensures opens { (closed : Option (List ℕ)) (closing : Named)
            → NamesClosing mark.now config.pack closed closing
            → OpensSaved R.state config secret.now salt.now closed closing result
            (S.state store.old) (S.state store.new) }
    {
        let (closing, closed) = closing_of(mark);
        // one to open the closing, one to read each of its blocks, one to open each table
        if store.reserve(2 * u64::from(closing.blocks)).is_err() {
            return Err(OpenErr::NoMemory);
        }
        let Ok(mut room) = RowBuffer::new(alloc, config.buffer, ROW_WIDTH, u32::from(config.pack))
        else {
            return Err(OpenErr::NoMemory);
        };
        // the salts of the tables lie in the closing: it is read under keys that know no other than its own
        let Ok(keys) = keys_from(alloc, secret, salt, closing, closed, &[]) else {
            return Err(OpenErr::NoMemory);
        };
        let last = closing.number + u64::from(closing.blocks) - 1;
        let mut vault = Vault::start_at(alloc, keys, closing.region + 1, last);
        let listed = read_closing(alloc, store, &mut vault, &mut room, closing)?;
        let Ok(keys) = keys_from(alloc, secret, salt, closing, closed, listed.as_slice()) else {
            return Err(OpenErr::NoMemory);
        };
        let draws = Draws::new(keys.draw_seed());
        vault.rekey(keys);
        reopen_tables(store, &mut vault, closing, listed.as_slice())?;
        let Ok(tables) = tables_of(alloc, listed) else {
            return Err(OpenErr::NoMemory);
        };
        Ok(Engine {
            alloc,
            vault,
            room,
            public: public_at(config, closing, tables),
            seen: seen_to_end(End::Whole),
            ended: false,
            closing: Some(closing.region),
            replaced: None,
            indexes: Vec::new(alloc),
            draws,
        })
    }

    // A closing was written: the vault forgets the one before it, which waits until it is discarded.
    fn list_in(&mut self, region: u64)
        ensures listed { self.new ≡ record self.old {
          vault = self.new.vault;
          public = record self.old.public {
            next_region = self.old.vault.next;
            closing = Some region;
          };
          closing = Some region;
          replaced = self.old.closing;
        } }
        ensures forgets { (q : ℕ) → self.old.closing ≡ Some q → (s : StoreState)
            → Forgets q (at R.state self.old.vault s) (at R.state self.new.vault s) }
        ensures stays { self.old.closing ≡ None → self.new.vault ≡ self.old.vault }
    {
        let before = self.closing;
        self.public.next_region = self.vault.next_region();
        self.public.closing = Some(region);
        self.closing = Some(region);
        self.replaced = before;
        if let Some(q) = before {
            self.vault.forget(q);
        }
    }

    /// Writes a closing, a region that lists the tables by their names, and gives the mark that names it with the salt of
    /// this run, and its check value: from this mark the next run opens them again. No other region is asked for: the closing before it, and the
    /// region in which a table lay before, stay in the store until `settle`.
    ///
    /// `Failed` where the store failed, and also, with nothing asked, where the closing's region or its first write would
    /// have a number above 2^63 - 1; `NoMemory` before the first access, or where the region is made. After an error the
    /// session has ended, and what was kept in the store for an earlier mark is as it was.
    pub fn save<S: BlockStore>(&mut self, store: &mut S) -> Result<Mark, CloseErr>
        requires agrees { Agrees R.state self.old (S.state store.old) }
        requires lives { has_ended self.old ≡ false }
        requires settled { replaced_of self.old ≡ None }
        requires flat { AreFlat (headings_of (public_of self.old).tables) }
        requires few { count_of self.old (S.state store.old) < 2 ^ 63 + 2 ^ 59 }
        requires salted { (pair_of (engine_keys self.old) (public_of self.old).next_region).salt
            ≢ None }
        ensures saves { SavesEngine R.state result self.old (S.state store.old)
            self.new (S.state store.new) }
    {
        self.ended = true;
        if self.is_used_up() {
            return Err(CloseErr::Failed);
        }
        let tables = self.public.tables.as_slice();
        // one to make the closing, one to write each of its blocks, and two to discard what it makes needless
        if store.reserve(4 + tables.len() as u64).is_err() {
            return Err(CloseErr::NoMemory);
        }
        let Ok(listed) = list_tables(self.alloc, &self.vault, tables) else {
            return Err(CloseErr::NoMemory);
        };
        match write_closing(store, &mut self.vault, &mut self.room, listed.as_slice()) {
            Ok(written) => {
                let Some(salt) = self.vault.salt_of(written.region) else {
                    unreachable!()
                };
                let check = self.vault.check_of(written.region);
                self.list_in(written.region);
                self.ended = false;
                Ok(mark_of(written, salt, check))
            }
            Err(e) => Err(e),
        }
    }

    /// Discards what the mark needs no more that was set: the region in which a table lay before it was changed, if there
    /// is one, and the closing before the last, whatever the store answers to that.
    pub fn settle<S: BlockStore>(&mut self, store: &mut S, left: Option<u64>)
        requires agrees { Agrees R.state self.old (S.state store.old) }
        requires waits { Waits R.state left self.old (S.state store.old) }
        requires spare { 2 ≤ (S.state store.old).spare }
        ensures settles { SettlesEngine R.state left self.old (S.state store.old)
            self.new (S.state store.new) }
    {
        discard_left(store, &self.vault, left);
        discard_left(store, &self.vault, self.replaced);
        self.replaced = None;
    }
}
