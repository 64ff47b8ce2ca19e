//! The cells that INSERT and UPDATE give.
ghost use Rattle.std.specs.Prelude.{◌≡◌, ◌≤◌, ◌<◌, ◌++◌, Option, IfOk, IfSome, OnOk, length, map, flat_map, zip, option_to_list};
ghost use Rattle.std.specs.List.{All};
ghost use Rattle.ob_row.specs.Spelling.{IsCell};
ghost use Rattle.ob_sql.specs.declared.stmt.Literal.{Literal};
ghost use Rattle.ob_names.specs.Names.{place_of, unqualified};
ghost use Rattle.ob_mean.specs.Conditions.{literal_cell};
ghost use Rattle.ob_mean.specs.Refusals.{insert_columns};
ghost use Rattle.ob_mean.specs.Step.{given_cell, new_row};

use crate::condition::literal_cell;
use ob_base::{Column, Items, Name, NoMemory, Schema};
use ob_names::{Named, Scope, unqualified};
use ob_row::Cell;
use ob_sql::{Literal, Set};
use std::alloc::Global;

// The cell beside this name.
fn cell_beside<T: Named>(column: &Column, names: &[T], values: &[Literal]) -> Option<Cell>
    ensures value { option_to_list result
        ≡ given_cell (zip (map T.name_of names.now) values.now) column.now }
    ensures held { IfSome result IsCell }
{
    match (names.split_first(), values.split_first()) {
        (Some((name, names)), Some((value, values))) => {
            if column.name.as_bytes() == name.name().as_bytes() {
                Some(literal_cell(value))
            } else {
                cell_beside(column, names, values)
            }
        }
        _ => None,
    }
}

// The cell that an INSERT gives a column: the value beside its name in the list, or in the table's order
// where there is no list.
fn given_cell(
    column: &Column,
    names: &Option<Items<Name>>,
    values: &[Literal],
    columns: &[Column],
) -> Option<Cell>
    ensures value { option_to_list result
        ≡ given_cell (zip (insert_columns names.now columns.now) values.now) column.now }
    ensures held { IfSome result IsCell }
{
    match names {
        None => cell_beside(column, columns, values),
        Some(names) => cell_beside(column, names.as_slice(), values),
    }
}

// Adds the cells that an INSERT gives these columns of a table.
fn add_cells(
    columns: &[Column],
    schema: &Schema,
    names: &Option<Items<Name>>,
    values: &[Literal],
    cells: &mut Vec<Cell>,
) -> Result<(), NoMemory>
    ensures value { OnOk result
        (cells.new.items
        ≡ cells.old.items
        ++ flat_map
        (given_cell (zip (insert_columns names.now schema.now) values.now)) columns.now) }
    ensures held { All IsCell cells.old.items → OnOk result (All IsCell cells.new.items) }
{
    match columns.split_first() {
        None => Ok(()),
        Some((column, columns)) => {
            match given_cell(column, names, values, schema.as_slice()) {
                None => add_cells(columns, schema, names, values, cells),
                Some(cell) => match cells.push(cell) {
                    Err(_) => Err(NoMemory),
                    Ok(()) => add_cells(columns, schema, names, values, cells),
                },
            }
        }
    }
}

/// The row that an INSERT gives, in the table's order, or want of memory.
pub fn new_row(
    alloc: Global,
    schema: &Schema,
    names: &Option<Items<Name>>,
    values: &[Literal],
) -> Result<Vec<Cell>, NoMemory>
    ensures value { IfOk result (λ cells. cells.items ≡ new_row schema.now names.now values.now) }
    ensures held { IfOk result (λ cells. All IsCell cells.items) }
{
    let mut cells = Vec::new(alloc);
    match add_cells(schema.as_slice(), schema, names, values, &mut cells) {
        Err(_) => Err(NoMemory),
        Ok(()) => Ok(cells),
    }
}

/// The place of a column that an UPDATE sets, and its cell.
#[tactic(auto, using(crate::proofs::CondLemmas::one_table))]
pub fn set_cell(set: &Set, columns: &[Column]) -> (u8, Cell)
    requires { length columns.now ≤ 32 }
    ensures place { result.0 ≡ place_of (unqualified set.now.column) columns.now }
    ensures cell { result.1 ≡ literal_cell set.now.value }
    ensures held { IsCell result.1 }
{
    (
        Scope::of_table(columns).place_of(&unqualified(&set.column)) as u8,
        literal_cell(&set.value),
    )
}
