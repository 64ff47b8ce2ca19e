//! Aggregates over rows.
ghost use Rattle.std.specs.Prelude.{◌≡◌, ◌≤◌, ◌<◌, ◌+◌, ◌*◌, ◌^◌, ◌++◌, Some, nat_abs, fold, filter_map, length, OnOk, slice_get};
ghost use Rattle.ob_row.specs.Totals.{int_of, column_ints, combined, total, totals};
ghost use Rattle.ob_names.specs.Names.{columns_in};
ghost use Rattle.ob_mean.specs.Step.{agg_of};
ghost use Rattle.ob_reference.specs.Folds.{taken};

use crate::tables::Tuple;
use ob_base::{Items, NoMemory, Shown};
use ob_mean::agg_in;
use ob_names::Scope;
use ob_row::{Agg, Cell};
use ob_sql::Listed;

/// How the integers of a column are taken together.
#[derive(Clone, Copy, Debug, PartialEq, Eq)]
pub(crate) enum Fold {
    Sum,
    Min,
    Max,
}

fn int_of(cell: &Cell) -> Option<i64>
    ensures { result ≡ int_of (Some cell.now) }
{
    match cell {
        Cell::Int(x) => Some(*x),
        Cell::Text(_) => None,
    }
}

// The integer at a place of a row, if there is one.
fn int_at(row: &[Cell], i: usize) -> Option<i64>
    ensures { result ≡ int_of (slice_get row.now i) }
{
    match row.get(i) {
        None => None,
        Some(cell) => int_of(cell),
    }
}

fn taken(way: Fold, sum: i128, x: i64) -> i128
    requires { nat_abs sum + 2 ^ 63 < 2 ^ 127 }
    ensures value { result ≡ taken way sum x }
    ensures few { nat_abs result ≤ nat_abs sum + 2 ^ 63 }
{
    let x = i128::from(x);
    match way {
        Fold::Sum => sum + x,
        Fold::Min => { if sum <= x { sum } else { x } }
        Fold::Max => { if sum <= x { x } else { sum } }
    }
}

// The integers of a column after `sum`.
fn fold_from(way: Fold, i: usize, rows: &[Tuple], sum: i128) -> i128
    requires { nat_abs sum + 2 ^ 63 * length rows.now < 2 ^ 127 }
    ensures { result ≡ fold (taken way) sum (column_ints i rows.now) }
{
    match rows.split_first() {
        None => sum,
        Some((row, rows)) => match int_at(row.as_slice(), i) {
            None => fold_from(way, i, rows, sum),
            Some(x) => fold_from(way, i, rows, taken(way, sum, x)),
        },
    }
}

// The integers of a column, or NULL where there are none.
fn combined(way: Fold, i: usize, rows: &[Tuple]) -> Shown
    ensures { result ≡ combined (taken way) (column_ints i rows.now) }
{
    match rows.split_first() {
        None => Shown::Null,
        Some((row, rows)) => match int_at(row.as_slice(), i) {
            None => combined(way, i, rows),
            Some(x) => Shown::Int(fold_from(way, i, rows, i128::from(x))),
        },
    }
}

/// An aggregate over rows, as it is printed.
pub(crate) fn total(agg: Agg, rows: &[Tuple]) -> Shown
    ensures { result ≡ total agg rows.now }
{
    match agg {
        Agg::CountAll => Shown::Int(rows.len() as i128),
        Agg::Count(_) => Shown::Int(rows.len() as i128),
        Agg::Sum(i) => combined(Fold::Sum, usize::from(i), rows),
        Agg::Min(i) => combined(Fold::Min, usize::from(i), rows),
        Agg::Max(i) => combined(Fold::Max, usize::from(i), rows),
    }
}

/// Adds the aggregates of a list over the rows.
pub(crate) fn add_totals(
    items: &[Listed],
    scope: &Scope<'_>,
    rows: &[Tuple],
    fields: &mut Items<Shown>,
) -> Result<(), NoMemory>
    ensures { OnOk result
        (fields.new
        ≡ fields.old ++ totals (filter_map (agg_of (columns_in scope.now)) items.now) rows.now) }
{
    match items.split_first() {
        None => Ok(()),
        Some((item, items)) => match agg_in(item, scope) {
            None => add_totals(items, scope, rows, fields),
            Some(agg) => match fields.push(total(agg, rows)) {
                Err(_) => Err(NoMemory),
                Ok(()) => add_totals(items, scope, rows, fields),
            },
        },
    }
}
