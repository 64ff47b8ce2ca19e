//! The answer to a SELECT by a key.
ghost use Rattle.std.specs.Prelude.{◌≡◌, ◌≤◌, [], ◌∷◌, IfSome, IfNone, length, take};
ghost use Rattle.std.specs.List.{All};
ghost use Rattle.ob_emit.specs.Emitting.{AreColumns};
ghost use Rattle.ob_oram.specs.Ops.{got_in};
ghost use Rattle.ob_row.specs.Rows.{cell_at};
ghost use Rattle.ob_row.specs.Totals.{printed, shown_at};
ghost use Rattle.ob_verdict.specs.Answering.{found};
ghost use Rattle.ob_keyed.specs.Emitting.{EmitsFound, EmitsRow, IsNumber};

use ob_base::{Emit, EmitErr, Schema, Shown};
use ob_emit::emit_head;
use ob_oram::{Cells, Got};
use ob_row::Cell;
use std::array;

// The cell at a place, as it is printed.
fn shown_cell(cells: &Cells, i: u8) -> Shown
    ensures { All IsNumber cells.now → result ≡ shown_at (cell_at cells.now i) }
{
    if usize::from(i) < cells.len() {
        match cells.at(usize::from(i)) {
            Cell::Int(x) => Shown::Int(i128::from(*x)),
            Cell::Text(text) => Shown::Text(text.copied()),
        }
    } else {
        Shown::Null
    }
}

// Puts the cells at these places, as they are printed, over the first of these.
fn show_cells(cells: &Cells, cols: &[u8], shown: &mut [Shown])
    requires few { length cols.now ≤ length shown.old }
    ensures size { length shown.new ≡ length shown.old }
    ensures told { All IsNumber cells.now
        → take (length cols.now) shown.new ≡ printed cols.now cells.now }
{
    for z in 0..cols.len() {
        shown[z] = shown_cell(cells, cols[z]);
    }
}

// The row that was found, if one was.
fn row_of(got: &Got) -> Option<&Cells>
    ensures some { IfSome result (λ cells. found (got_in got.now) ≡ cells.now ∷ []) }
    ensures none { IfNone result (found (got_in got.now) ≡ []) }
{
    match got {
        Got::None => None,
        Got::Row(cells) => Some(cells),
        Got::Done => None,
        Got::Duplicate => None,
        Got::OutOfRange => None,
    }
}

// A row, and that it is the only one.
fn emit_row<E: Emit>(cols: &[u8], cells: &Cells, out: &mut E) -> Result<(), EmitErr>
    requires { length cols.now ≤ 32 }
    ensures { EmitsRow E.grew E.cut E.faults cols.now cells.now result out.old out.new }
{
    let mut shown: [Shown; 32] = array::from_fn(|_| Shown::Null);
    show_cells(cells, cols, &mut shown);
    match out.row(&shown[..cols.len()]) {
        Err(error) => Err(error),
        Ok(()) => out.close(1),
    }
}

/// Emits the answer: the header of the columns at these places, the row that an access found, if it found one, and
/// the number of rows.
pub fn emit_found<E: Emit>(
    schema: &Schema,
    cols: &[u8],
    got: &Got,
    out: &mut E,
) -> Result<(), EmitErr>
    requires { AreColumns schema.now cols.now }
    ensures { EmitsFound E.grew E.cut E.faults schema.now cols.now (got_in got.now)
        result out.old out.new }
{
    match emit_head(schema, cols, out) {
        Err(error) => Err(error),
        Ok(()) => match row_of(got) {
            None => out.close(0),
            Some(cells) => emit_row(cols, cells, out),
        },
    }
}
