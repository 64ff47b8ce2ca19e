//! Cells of a row as they are printed.
ghost use Rattle.std.specs.Prelude.{◌≡◌, ◌≤◌, ◌<◌, Some, length, take};
ghost use Rattle.std.specs.List.{All};
ghost use Rattle.ob_base.specs.Schemas.{width};
ghost use Rattle.ob_row.specs.Rows.{Row};
ghost use Rattle.ob_row.specs.Spelling.{Begins, IsCell};
ghost use Rattle.ob_row.specs.Totals.{shown, printed};
ghost use Rattle.ob_row.specs.Values.{cell_of};

use ob_base::{Schema, Shown, Text};
use ob_room::ClearRow;
use ob_row::{Value, value_of};

// Puts a cell, as it is printed, in the place of another.
fn put_shown(value: Value<'_>, place: &mut Shown)
    requires { IsCell (cell_of value) }
    ensures { place.new ≡ shown (cell_of value.entry) }
{
    match value {
        Value::Int(x) => *place = Shown::Int(i128::from(x)),
        Value::Text(text) => *place = Shown::Text(Text::from_bytes(text)),
    }
}

// Puts the cells at these places of the row that the first bytes spell, as they are printed, over the
// first of these.
pub(crate) fn show_cells(schema: &Schema, cols: &[u8], row: &ClearRow, cells: &mut [Shown])
    requires wide { width schema.now ≤ length row.now }
    requires few { length cols.now ≤ length cells.old }
    requires within { All (λ i. i < length schema.now) cols.now }
    requires real { (own : Row) × Begins schema.now (Some own) row.now }
    ensures size { length cells.new ≡ length cells.old }
    ensures told { (own : Row) → Begins schema.now (Some own) row.now
        → take (length cols.now) cells.new ≡ printed cols.now own }
{
    for z in 0..cols.len() {
        put_shown(value_of(schema, row, cols[z]), &mut cells[z]);
    }
}
