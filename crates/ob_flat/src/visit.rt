//! What a reading pass does with slots.
ghost use Rattle.std.specs.Prelude.{◌≡◌, ◌≤◌, ◌<◌, ◌+◌, ℕ, Option, OnOk, MatchResult, length};
ghost use Rattle.ob_base.specs.Schemas.{width};
ghost use Rattle.ob_vault.specs.Rows.{Wide};
ghost use Rattle.ob_row.specs.Rows.{Row};
ghost use Rattle.ob_row.specs.Spelling.{Begins};
ghost use Rattle.ob_blocks.specs.Blocks.{scanned};
ghost use Rattle.ob_flat.specs.declared.flat.Flat.{Flat as Table};
ghost use Rattle.ob_row.specs.Slots.{Slots};
ghost use Rattle.ob_flat.specs.Slots.{Spelt};

use crate::flat::Flat;
use ob_room::ClearRow;
use ob_row::Malformed;

/// What a reading pass does with each slot of a table.
pub trait Visit {
    /// What it is after it has seen the slot of this index.
    ghost after: { Table → Self → ℕ → Option Row → Self };

    /// What is true of it once so many slots were seen.
    ghost Suits: { Table → Self → ℕ → Type 0 };

    /// Sees the slot of index `i`, or refuses a row that is malformed.
    fn visit(&mut self, i: u32, flat: &Flat, row: &ClearRow) -> Result<(), Malformed>
        requires wide { width flat.now.schema ≤ length row.now }
        requires index { i < 2147483648 }
        requires suits { Suits flat.now self.old i }
        ensures suits { OnOk result (Suits flat.now self.new (i + 1)) }
        ensures spells { OnOk result ((slot : Option Row) × Begins flat.now.schema slot row.now) }
        ensures told { (slot : Option Row) → Begins flat.now.schema slot row.now
            → MatchResult result (λ _. self.new ≡ after flat.now self.old i slot) (λ _. ⊥) };
}

// Sees the rows of a block, the first of which has this index.
pub(crate) fn visit_rows<V: Visit>(
    visit: &mut V,
    first: u32,
    flat: &Flat,
    rows: &[ClearRow],
) -> Result<(), Malformed>
    requires wide { Wide (width flat.now.schema) rows.now }
    requires index { first + length rows.now ≤ 2147483648 }
    requires suits { V.Suits flat.now visit.old first }
    ensures suits { OnOk result (V.Suits flat.now visit.new (first + length rows.now)) }
    ensures told { (slots : Slots) → Spelt flat.now.schema slots rows.now
        → MatchResult result
        (λ _. visit.new ≡ scanned (V.after flat.now) first visit.old slots) (λ _. ⊥) }
{
    for z in 0..rows.len() {
        match visit.visit(first + z as u32, flat, &rows[z]) {
            Ok(()) => {}
            Err(malformed) => return Err(malformed),
        }
    }
    Ok(())
}
