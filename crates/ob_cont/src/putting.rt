//! A row that is put into its place of a result.
ghost use Rattle.std.specs.Prelude.{◌≡◌, ◌<◌, ◌+◌, ◌^◌, Option, length, slice_set};
ghost use Rattle.ob_base.specs.Schemas.{width};
ghost use Rattle.ob_row.specs.Rows.{Row};
ghost use Rattle.ob_row.specs.Slots.{Slots};
ghost use Rattle.ob_row.specs.Spelling.{Begins};
ghost use Rattle.ob_vault.specs.Numbers.{spent};
ghost use Rattle.ob_vault.specs.Places.{at};
ghost use Rattle.ob_vault.specs.Rows.{SameSizes, Wide};
ghost use Rattle.ob_flat.specs.Slots.{Spelt, AreSlots};
ghost use Rattle.ob_flat.specs.Words.{HasSpare, FitBlock};
ghost use Rattle.ob_cont.specs.Putting.{put_if, SpellsSlot};
ghost use Rattle.ob_cont.specs.Selecting.{IsDue, PutsRow};

use ob_base::Schema;
use ob_flat::{Flat, OpErr, Rework, check_rows, copy_row, rework_block};
use ob_room::ClearRow;
use ob_row::Malformed;
use ob_store::BlockStore;
use ob_vault::{Revisions, Vault};

// Puts a row into one slot of a block where it is selected, and else leaves the block as it is.
#[derive(Drop)]
pub(crate) struct Putting<'a> {
    row: &'a ClearRow,
    selected: bool,
    slot: u32,
}

// Puts a row into one slot of a block.
fn put_in_block(schema: &Schema, row: &ClearRow, slot: u32, rows: &mut [ClearRow])
    requires wide { Wide (width schema.now) rows.old }
    requires row { SpellsSlot schema.now row.now }
    ensures rows { SameSizes rows.old rows.new }
    ensures spells { AreSlots schema.now rows.old → AreSlots schema.now rows.new }
    ensures told { (there : Option Row) (slots : Slots)
        → Begins schema.now there row.now → Spelt schema.now slots rows.old
        → Spelt schema.now (slice_set slots slot there) rows.new }
{
    let z = slot as usize;
    if z < rows.len() {
        copy_row(schema, row, &mut rows[z]);
    }
}

impl<'a> Rework for Putting<'a> {
    ghost use Rattle.std.specs.Prelude.{◌≡◌, Option};
    ghost use Rattle.ob_row.specs.Rows.{Row};
    ghost use Rattle.ob_row.specs.Spelling.{Begins};
    ghost use Rattle.ob_cont.specs.Putting.{put_if, SpellsSlot};

    ghost Makes = { λ columns putting after first slots made.
        (there : Option Row) → Begins columns there putting.row.now
        → made ≡ put_if putting.selected putting.slot there slots };

    ghost Suits = { λ putting columns. SpellsSlot columns putting.row.now };

    fn rework(
        &mut self,
        _first: u32,
        schema: &Schema,
        rows: &mut [ClearRow],
    ) -> Result<(), Malformed> {
        check_rows(schema, rows)?;
        if self.selected {
            put_in_block(schema, self.row, self.slot, rows);
        }
        Ok(())
    }
}

// Reads and writes the block of a result in which the slot of index `i` of a table has its place, through
// these rows, as many as a block has. The slot's row is put there where it is selected.
pub(crate) fn put_row<S: BlockStore, R: Revisions>(
    store: &mut S,
    vault: &mut Vault<R>,
    held: &mut [ClearRow],
    to: &Flat,
    row: &ClearRow,
    selected: bool,
    i: u32,
) -> Result<(), OpErr>
    requires spare { HasSpare 2 (at R.state vault.old (S.state store.old)) }
    requires few { spent (at R.state vault.old (S.state store.old)) + 1 < 2 ^ 63 + 2 ^ 60 }
    requires due { IsDue (length held.old) to.now i (at R.state vault.old (S.state store.old)) }
    requires fit { FitBlock to.now.schema held.old }
    requires row { SpellsSlot to.now.schema row.now }
    ensures held { SameSizes held.old held.new }
    ensures puts { PutsRow (length held.old) to.now i row.now selected result
        (at R.state vault.old (S.state store.old)) (at R.state vault.new (S.state store.new)) }
{
    let pack = held.len() as u32;
    let slot = i % to.capacity;
    let mut work = Putting {
        row,
        selected,
        slot: slot % pack,
    };
    rework_block(store, vault, held, to, slot / pack, &mut work)
}
