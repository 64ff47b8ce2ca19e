//! What a pass that writes a table anew makes of its slots.
ghost use Rattle.std.specs.Prelude.{◌≡◌, ◌≤◌, ◌<◌, ◌+◌, ℕ, Bool, false, Option, None, IfOk, OnOk, MatchResult, length, count_by};
ghost use Rattle.ob_base.specs.Schemas.{Columns, width};
ghost use Rattle.ob_vault.specs.Rows.{SameSizes, Wide};
ghost use Rattle.ob_row.specs.Rows.{Row};
ghost use Rattle.ob_row.specs.Spelling.{Begins};
ghost use Rattle.ob_blocks.specs.Blocks.{map_at};
ghost use Rattle.ob_row.specs.Slots.{Slots};
ghost use Rattle.ob_flat.specs.Slots.{FitsSlot, Spelt, AreSlots};

use ob_base::Schema;
use ob_room::ClearRow;
use ob_row::Malformed;

/// What a pass that writes a table anew makes of each slot.
pub trait Change {
    /// What the slot of this index becomes.
    ghost to: { Self → ℕ → Option Row → Option Row };

    /// Whether it is counted.
    ghost picks: { Self → Option Row → Bool };

    /// What is true of it in a table of this schema.
    ghost Suits: { Self → Columns → Type 0 };

    /// Changes the slot of index `i`, and tells whether it is counted, or refuses a row that is malformed.
    fn change(&self, i: u32, schema: &Schema, row: &mut ClearRow) -> Result<bool, Malformed>
        requires wide { width schema.now ≤ length row.old }
        requires suits { Suits self.now schema.now }
        ensures size { length row.new ≡ length row.old }
        ensures spells { OnOk result ((slot : Option Row) × Begins schema.now slot row.new) }
        ensures told { (slot : Option Row) → Begins schema.now slot row.old
            → MatchResult result
            (λ picked. (picked ≡ picks self.now slot)
            × Begins schema.now (to self.now i slot) row.new)
            (λ _. ⊥) };

    /// No empty slot is counted.
    ghost none: { (change : Self) → picks change None ≡ false };

    /// A row that fits the schema becomes one that does.
    ghost keeps: { (change : Self) (columns : Columns) (i : ℕ) (slot : Option Row)
        → Suits change columns → FitsSlot columns slot → FitsSlot columns (to change i slot) };
}

/// Changes the rows of a block, the first of which has this index, and answers how many were counted, or
/// refuses them where one is malformed.
pub fn change_rows<C: Change>(
    change: &C,
    first: u32,
    schema: &Schema,
    rows: &mut [ClearRow],
) -> Result<u32, Malformed>
    requires wide { Wide (width schema.now) rows.old }
    requires index { first + length rows.old ≤ 2147483648 }
    requires suits { C.Suits change.now schema.now }
    ensures rows { SameSizes rows.old rows.new }
    ensures most { IfOk result (λ k. k ≤ length rows.old) }
    ensures spells { OnOk result (AreSlots schema.now rows.new) }
    ensures told { (slots : Slots) → Spelt schema.now slots rows.old
        → MatchResult result
        (λ k. (k ≡ count_by (C.picks change.now) slots)
        × Spelt schema.now (map_at (C.to change.now) first slots) rows.new)
        (λ _. ⊥) }
{
    let mut n = 0;
    for z in 0..rows.len() {
        match change.change(first + z as u32, schema, &mut rows[z]) {
            Ok(picked) => n += u32::from(picked),
            Err(malformed) => return Err(malformed),
        }
    }
    Ok(n)
}
