//! UPDATE.
ghost use Rattle.std.specs.Prelude.{◌≡◌, ◌+◌, ◌*◌, max};
ghost use Rattle.ob_base.specs.Schemas.{width};
ghost use Rattle.ob_vault.specs.Places.{at};
ghost use Rattle.ob_vault.specs.Words.{MayStart};
ghost use Rattle.ob_blocks.specs.Idle.{IsIdle};
ghost use Rattle.ob_flat.specs.Flats.{IsSized, IsFlat};
ghost use Rattle.ob_flat.specs.Words.{blocks_of};
ghost use Rattle.ob_mutate.specs.Changing.{FitsSets};
ghost use Rattle.ob_mutate.specs.Mutating.{Updates};

use crate::assigning::set_cells;
use crate::rewriting::rewrite;
use crate::settling::Former;
use ob_base::Schema;
use ob_flat::{Change, Flat, OpErr};
use ob_room::{ClearRow, RowBuffer};
use ob_row::{Cell, Malformed, Pred, holds};
use ob_store::BlockStore;
use ob_vault::{Revisions, Vault};

// Puts these cells into each row that makes the condition true.
#[derive(Drop)]
pub(crate) struct Assign<'a> {
    pred: &'a Pred,
    sets: &'a [(u8, Cell)],
}

impl<'a> Change for Assign<'a> {
    ghost use Rattle.std.specs.Prelude.{refl};
    ghost use Rattle.std.specs.Option.{option_map};
    ghost use Rattle.ob_row.specs.Slots.{is_selected};
    ghost use Rattle.ob_row.specs.Truth.{is_true, updated};
    ghost use Rattle.ob_mutate.specs.Changing.{FitsSets, updated_fits};

    ghost to = { λ assign i slot. option_map (updated assign.pred.now assign.sets.now) slot };

    ghost picks = { λ assign slot. is_selected (is_true assign.pred.now) slot };

    ghost Suits = { λ assign columns. FitsSets columns assign.sets.now };

    ghost none = { λ assign. refl };

    ghost keeps = { λ assign columns i slot suits fits.
        updated_fits columns assign.pred.now assign.sets.now slot suits fits };

    fn change(&self, _i: u32, schema: &Schema, row: &mut ClearRow) -> Result<bool, Malformed> {
        let selected = holds(self.pred, schema, row)?;
        if selected {
            set_cells(schema, self.sets, row);
        }
        Ok(selected)
    }
}

/// Puts each of these cells, beside the place of its column, into each row of a table that makes the
/// condition true, and answers how many rows did, those too that had these cells before. A fresh region
/// is made; each block of the table is read, in order, and written to the fresh region, changed or not;
/// the table has the fresh region, and of its old one becomes what `former` says.
///
/// `Failed` where the store failed, `Tampered` with the place of a block that is not what was written
/// there last, or that has a malformed row, and `NoMemory` before anything is written. After an error
/// the table is as before, and the fresh region is forgotten.
pub fn update<S: BlockStore, R: Revisions>(
    store: &mut S,
    vault: &mut Vault<R>,
    room: &mut RowBuffer,
    flat: &mut Flat,
    pred: &Pred,
    sets: &[(u8, Cell)],
    former: Former,
) -> Result<u64, OpErr>
    requires starts { MayStart (2 * blocks_of room.old.pack flat.old + 2)
        (at R.state vault.old (S.state store.old)) }
    requires flat { IsFlat room.old.pack flat.old (at R.state vault.old (S.state store.old)) }
    requires size { IsSized flat.old.schema flat.old.capacity }
    requires room { IsIdle (width flat.old.schema) room.old }
    requires sets { FitsSets flat.old.schema sets.now }
    ensures room { room.new ≡ record room.old { high = max room.old.high room.old.pack } }
    ensures updates { Updates former room.old.pack flat.old flat.new pred.now sets.now result
        (at R.state vault.old (S.state store.old)) (at R.state vault.new (S.state store.new)) }
{
    rewrite(store, vault, room, flat, &Assign { pred, sets }, former)
}
