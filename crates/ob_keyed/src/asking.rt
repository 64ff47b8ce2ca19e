//! What a statement asks of an index.
ghost use Rattle.std.specs.Prelude.{◌≡◌, ◌≤◌, ℤ, Some, None, length, IfOk, IfSome, IfNone};
ghost use Rattle.std.specs.List.{All};
ghost use Rattle.ob_mean.specs.Keyed.{keyed_name};
ghost use Rattle.ob_mean.specs.Refusals.{key_asked};
ghost use Rattle.ob_mean.specs.Step.{set_cells};
ghost use Rattle.ob_row.specs.declared.cell.Cell.TheVariants.{Int};
ghost use Rattle.ob_row.specs.Rows.{cell_at};
ghost use Rattle.ob_row.specs.Spelling.{FitsColumns, IsCell};
ghost use Rattle.ob_oram.specs.Keys.{IsIntKey};
ghost use Rattle.ob_keyed.specs.Asking.{IsSet};

use ob_base::{Column, Name, NoMemory, Schema, Source};
use ob_mean::{key_asked, set_cell};
use ob_row::Cell;
use ob_sql::{Cond, Set, Stmt};
use std::alloc::Global;

/// The name of the table whose rows a statement reads or changes by a key, where it is one that may.
pub fn sought(stmt: &Stmt) -> Option<&Name>
    ensures some { IfSome result (λ name. keyed_name stmt.now ≡ Some name.now) }
    ensures none { IfNone result (keyed_name stmt.now ≡ None) }
{
    match stmt {
        Stmt::Insert { table, .. } => Some(table),
        Stmt::Update { table, .. } => Some(table),
        Stmt::Delete { table, .. } => Some(table),
        Stmt::SelectRows(select) => match &select.source {
            Source::Table(table) => Some(table),
            Source::Join { .. } => None,
        },
        Stmt::Create { .. } | Stmt::Drop { .. } | Stmt::SelectTotals(_) => None,
    }
}

/// The number that a WHERE asks of the key of an index, which it does.
pub(crate) fn sought_key(schema: &Schema, cond: &Option<Cond>) -> i64
    requires { (z : ℤ) × (key_asked schema.now cond.now ≡ Some z) }
    ensures { key_asked schema.now cond.now ≡ Some result }
{
    match key_asked(schema.as_slice(), cond) {
        None => unreachable!(),
        Some(key) => key,
    }
}

/// The key of a row that is put in.
pub(crate) fn key_of(schema: &Schema, cells: &[Cell], place: u8) -> i64
    requires fits { FitsColumns schema.now cells.now }
    requires key { IsIntKey schema.now place }
    ensures { cell_at cells.now place ≡ Some (Int result) }
{
    match &cells[usize::from(place)] {
        Cell::Int(key) => *key,
        Cell::Text(_) => unreachable!(),
    }
}

/// The places of the columns that are set, each with its cell.
pub(crate) fn set_cells(
    alloc: Global,
    sets: &[Set],
    columns: &[Column],
) -> Result<Vec<(u8, Cell)>, NoMemory>
    requires { length columns.now ≤ 32 }
    ensures value { IfOk result (λ cells. cells.items ≡ set_cells sets.now columns.now) }
    ensures held { IfOk result (λ cells. All IsSet cells.items) }
{
    let mut cells = Vec::new(alloc);
    for set in sets {
        if cells.push(set_cell(set, columns)).is_err() {
            return Err(NoMemory);
        }
    }
    Ok(cells)
}
