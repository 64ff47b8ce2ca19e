//! The answer of a SELECT of rows.
ghost use Rattle.std.specs.Prelude.{◌≡◌, ◌≤◌, ◌+◌, ◌++◌, ◌∷◌, [], true, IfOk, OnOk, length, map};
ghost use Rattle.ob_base.specs.Lists.{places_from};
ghost use Rattle.ob_base.specs.declared.schema.Column.{Column};
ghost use Rattle.ob_row.specs.Rows.{cell_at};
ghost use Rattle.ob_row.specs.Totals.{shown, shown_at, printed};
ghost use Rattle.ob_names.specs.Names.{columns_in, place_of};
ghost use Rattle.ob_mean.specs.Step.{printed_places, rows_answer};

use crate::tables::Tuple;
use ob_base::{Column, ColumnName, Items, NoMemory, Shown};
use ob_names::Scope;
use ob_row::Cell;
use ob_sql::SelectRows;
use std::alloc::Global;

fn shown(cell: &Cell) -> Shown
    ensures { result ≡ shown cell.now }
{
    match cell {
        Cell::Int(x) => Shown::Int(i128::from(*x)),
        Cell::Text(text) => Shown::Text(text.copied()),
    }
}

/// The cell at a place of a row, as it is printed.
pub(crate) fn shown_at(row: &[Cell], i: usize) -> Shown
    ensures { result ≡ shown_at (cell_at row.now i) }
{
    match row.get(i) {
        None => Shown::Null,
        Some(cell) => shown(cell),
    }
}

fn add_place(places: &mut Vec<usize>, i: usize) -> Result<(), NoMemory>
    ensures { OnOk result (places.new.items ≡ places.old.items ++ i ∷ []) }
{
    match places.push(i) {
        Err(_) => Err(NoMemory),
        Ok(()) => Ok(()),
    }
}

// Adds the places of the columns that these names mean.
#[tactic(auto, using(crate::proofs::PlaceLemmas::map_append))]
fn add_named(
    names: &[ColumnName],
    scope: &Scope<'_>,
    places: &mut Vec<usize>,
) -> Result<(), NoMemory>
    ensures { OnOk result (places.new.items
        ≡ places.old.items ++ map (λ c. place_of c (columns_in scope.now)) names.now) }
{
    match names.split_first() {
        None => Ok(()),
        Some((name, names)) => match add_place(places, scope.place_of(name)) {
            Err(_) => Err(NoMemory),
            Ok(()) => add_named(names, scope, places),
        },
    }
}

// Adds the places of all these columns, the first of which has place `first`.
#[tactic(auto, using(crate::proofs::PlaceLemmas::places_next))]
fn add_all(first: usize, columns: &[Column], places: &mut Vec<usize>) -> Result<(), NoMemory>
    requires { first + length columns.now ≤ 64 }
    ensures { OnOk result
        (places.new.items
        ≡ places.old.items ++ places_from first (λ (_ : Column). true) columns.now) }
{
    match columns.split_first() {
        None => Ok(()),
        Some((_, columns)) => match add_place(places, first) {
            Err(_) => Err(NoMemory),
            Ok(()) => add_all(first + 1, columns, places),
        },
    }
}

// The places of the columns that a SELECT of rows prints.
#[tactic(auto, using(crate::proofs::PlaceLemmas::places_both))]
fn printed_places(
    alloc: Global,
    select: &SelectRows,
    scope: &Scope<'_>,
) -> Result<Vec<usize>, NoMemory>
    ensures { IfOk result
        (λ places. places.items ≡ printed_places select.now (columns_in scope.now)) }
{
    let mut places = Vec::new(alloc);
    match &select.list {
        Some(names) => match add_named(names.as_slice(), scope, &mut places) {
            Err(_) => Err(NoMemory),
            Ok(()) => Ok(places),
        },
        None => match add_all(0, scope.left(), &mut places) {
            Err(_) => Err(NoMemory),
            Ok(()) => match add_all(scope.left().len(), scope.right(), &mut places) {
                Err(_) => Err(NoMemory),
                Ok(()) => Ok(places),
            },
        },
    }
}

fn add_shown(places: &[usize], row: &[Cell], fields: &mut Items<Shown>) -> Result<(), NoMemory>
    ensures { OnOk result (fields.new ≡ fields.old ++ printed places.now row.now) }
{
    match places.split_first() {
        None => Ok(()),
        Some((i, places)) => match fields.push(shown_at(row, *i)) {
            Err(_) => Err(NoMemory),
            Ok(()) => add_shown(places, row, fields),
        },
    }
}

fn add_printed(
    alloc: Global,
    places: &[usize],
    rows: &[Tuple],
    answer: &mut Items<Items<Shown>>,
) -> Result<(), NoMemory>
    ensures { OnOk result (answer.new ≡ answer.old ++ map (printed places.now) rows.now) }
{
    match rows.split_first() {
        None => Ok(()),
        Some((row, rows)) => {
            let mut fields = Items::new(alloc);
            match add_shown(places, row.as_slice(), &mut fields) {
                Err(_) => Err(NoMemory),
                Ok(()) => match answer.push(fields) {
                    Err(_) => Err(NoMemory),
                    Ok(()) => add_printed(alloc, places, rows, answer),
                },
            }
        }
    }
}

/// The rows of the answer of a SELECT of rows.
pub(crate) fn printed_rows(
    alloc: Global,
    select: &SelectRows,
    scope: &Scope<'_>,
    rows: &[Tuple],
) -> Result<Items<Items<Shown>>, NoMemory>
    ensures { IfOk result
        (λ answer. answer ≡ rows_answer select.now (columns_in scope.now) rows.now) }
{
    match printed_places(alloc, select, scope) {
        Err(_) => Err(NoMemory),
        Ok(places) => {
            let mut answer = Items::new(alloc);
            match add_printed(alloc, places.as_slice(), rows, &mut answer) {
                Err(_) => Err(NoMemory),
                Ok(()) => Ok(answer),
            }
        }
    }
}
