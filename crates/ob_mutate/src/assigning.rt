//! Cells of a row, written anew.
ghost use Rattle.std.specs.Prelude.{◌≡◌, ◌≤◌, Some, length};
ghost use Rattle.ob_base.specs.Schemas.{width};
ghost use Rattle.ob_row.specs.Rows.{Row, with_cells};
ghost use Rattle.ob_row.specs.Spelling.{Begins};
ghost use Rattle.ob_mutate.specs.Changing.{FitsSets};

use ob_base::Schema;
use ob_room::ClearRow;
use ob_row::{Cell, set_cell};

// Writes these cells of a row anew, each at its place, one after the other.
pub(crate) fn set_cells(schema: &Schema, sets: &[(u8, Cell)], row: &mut ClearRow)
    requires wide { width schema.now ≤ length row.old }
    requires sets { FitsSets schema.now sets.now }
    ensures size { length row.new ≡ length row.old }
    ensures told { (cells : Row) → Begins schema.now (Some cells) row.old
        → Begins schema.now (Some (with_cells sets.now cells)) row.new }
{
    for (place, cell) in sets {
        set_cell(schema, *place, cell, row);
    }
}
