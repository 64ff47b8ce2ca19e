//! A row that waits for an empty slot.
ghost use Rattle.std.specs.Prelude.{◌≡◌, ◌≤◌, ◌&&◌, Option, OnOk, MatchResult, is_some, length};
ghost use Rattle.ob_base.specs.Schemas.{width};
ghost use Rattle.ob_row.specs.Rows.{Row};
ghost use Rattle.ob_row.specs.Spelling.{Begins};
ghost use Rattle.ob_hash.specs.Waiting.{slot_after};

use ob_base::Schema;
use ob_flat::{Rework, copy_row};
use ob_room::ClearRow;
use ob_row::{Malformed, read};

// A row that waits for an empty slot, or was put into one.
#[derive(Drop)]
pub(crate) struct Filling<'a> {
    pub(crate) row: &'a ClearRow,
    pub(crate) waits: bool,
}

impl<'a> Filling<'a> {
    // Puts the row into this slot, where it waits and the slot is empty.
    fn fill_slot(&mut self, schema: &Schema, slot: &mut ClearRow) -> Result<(), Malformed>
        requires own { width schema.now ≤ length self.old.row.now }
        requires wide { width schema.now ≤ length slot.old }
        ensures size { length slot.new ≡ length slot.old }
        ensures row { self.new.row.now ≡ self.old.row.now }
        ensures spells { OnOk result (((own : Option Row) × Begins schema.now own self.old.row.now)
            → ((s : Option Row) × Begins schema.now s slot.new)) }
        ensures told { (own s : Option Row)
            → Begins schema.now own self.old.row.now → Begins schema.now s slot.old
            → MatchResult result (λ _. (self.new.waits ≡ self.old.waits && is_some s)
            × Begins schema.now (slot_after self.old.waits own s) slot.new) (λ _. ⊥) }
    {
        let taken = read(schema, slot)?;
        if self.waits && !taken {
            copy_row(schema, self.row, slot);
            self.waits = false;
        }
        Ok(())
    }
}

impl<'a> Rework for Filling<'a> {
    ghost use Rattle.ob_hash.specs.Filling.{IsRow, Fills};

    ghost Makes = { λ columns old new first slots made. Fills columns old new slots made };

    ghost Suits = { λ filling columns. IsRow columns filling.row.now };

    fn rework(
        &mut self,
        _first: u32,
        schema: &Schema,
        rows: &mut [ClearRow],
    ) -> Result<(), Malformed> {
        for z in 0..rows.len() {
            match self.fill_slot(schema, &mut rows[z]) {
                Ok(()) => {}
                Err(malformed) => return Err(malformed),
            }
        }
        Ok(())
    }
}
