//! DELETE.
ghost use Rattle.std.specs.Prelude.{◌≡◌, ◌+◌, ◌*◌, max};
ghost use Rattle.ob_base.specs.Schemas.{width};
ghost use Rattle.ob_vault.specs.Places.{at};
ghost use Rattle.ob_vault.specs.Words.{MayStart};
ghost use Rattle.ob_blocks.specs.Idle.{IsIdle};
ghost use Rattle.ob_flat.specs.Flats.{IsSized, IsFlat};
ghost use Rattle.ob_flat.specs.Words.{blocks_of};
ghost use Rattle.ob_mutate.specs.Mutating.{Deletes};

use crate::rewriting::rewrite;
use crate::settling::Former;
use ob_base::Schema;
use ob_flat::{Change, Flat, OpErr, clear_row};
use ob_room::{ClearRow, RowBuffer};
use ob_row::{Malformed, Pred, holds};
use ob_store::BlockStore;
use ob_vault::{Revisions, Vault};

// Makes a dummy of each row that makes the condition true.
#[derive(Drop)]
pub(crate) struct Wipe<'a> {
    pred: &'a Pred,
}

impl<'a> Change for Wipe<'a> {
    ghost use Rattle.std.specs.Prelude.{⊤, refl};
    ghost use Rattle.ob_row.specs.Slots.{is_selected, emptied};
    ghost use Rattle.ob_row.specs.Truth.{is_true};
    ghost use Rattle.ob_mutate.specs.Changing.{emptied_fits};

    ghost to = { λ wipe i slot. emptied (is_true wipe.pred.now) slot };

    ghost picks = { λ wipe slot. is_selected (is_true wipe.pred.now) slot };

    ghost Suits = { λ wipe columns. ⊤ };

    ghost none = { λ wipe. refl };

    ghost keeps = { λ wipe columns i slot suits fits.
        emptied_fits columns (is_true wipe.pred.now) slot fits };

    #[tactic(auto, using(crate::proofs::Wiped::wiped))]
    fn change(&self, _i: u32, schema: &Schema, row: &mut ClearRow) -> Result<bool, Malformed> {
        let selected = holds(self.pred, schema, row)?;
        if selected {
            clear_row(row);
        }
        Ok(selected)
    }
}

/// Empties each slot of a table whose row makes the condition true, and answers how many rows did. A
/// fresh region is made; each block of the table is read, in order, and written to the fresh region,
/// changed or not; the table has the fresh region, and of its old one becomes what `former` says.
///
/// `Failed` where the store failed, `Tampered` with the place of a block that is not what was written
/// there last, or that has a malformed row, and `NoMemory` before anything is written. After an error
/// the table is as before, and the fresh region is forgotten.
pub fn delete<S: BlockStore, R: Revisions>(
    store: &mut S,
    vault: &mut Vault<R>,
    room: &mut RowBuffer,
    flat: &mut Flat,
    pred: &Pred,
    former: Former,
) -> Result<u64, OpErr>
    requires starts { MayStart (2 * blocks_of room.old.pack flat.old + 2)
        (at R.state vault.old (S.state store.old)) }
    requires flat { IsFlat room.old.pack flat.old (at R.state vault.old (S.state store.old)) }
    requires size { IsSized flat.old.schema flat.old.capacity }
    requires room { IsIdle (width flat.old.schema) room.old }
    ensures room { room.new ≡ record room.old { high = max room.old.high room.old.pack } }
    ensures deletes { Deletes former room.old.pack flat.old flat.new pred.now result
        (at R.state vault.old (S.state store.old)) (at R.state vault.new (S.state store.new)) }
{
    rewrite(store, vault, room, flat, &Wipe { pred }, former)
}
