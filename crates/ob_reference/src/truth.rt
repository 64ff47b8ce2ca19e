//! Whether the cells of a row make a condition true.
ghost use Rattle.std.specs.Prelude.{◌≡◌, Some};
ghost use Rattle.ob_row.specs.Rows.{agree_at};
ghost use Rattle.ob_row.specs.Truth.{compare, is_true, operand_of};
ghost use Rattle.ob_sql.specs.Search.{search_of};
ghost use Rattle.ob_names.specs.Names.{columns_in};
ghost use Rattle.ob_mean.specs.Conditions.{operand_at, condition_at, where_at};

use crate::tables::Tuple;
use ob_base::{ComparisonOperator, Schema};
use ob_mean::literal_cell;
use ob_names::Scope;
use ob_row::{Cell, compare_cells, same_cell};
use ob_sql::{Against, Cond, CondTree};

// Whether a cell compares so with what a column is compared with.
fn compare(
    order: ComparisonOperator,
    a: &Cell,
    with: &Against,
    scope: &Scope<'_>,
    row: &[Cell],
) -> bool
    ensures { result ≡ compare order (Some a.now)
        (operand_of (operand_at with.now (columns_in scope.now)) row.now) }
{
    match with {
        Against::Literal(literal) => compare_cells(order, a, &literal_cell(literal)),
        Against::Column(name) => match row.get(scope.place_of(name)) {
            Some(b) => compare_cells(order, a, b),
            None => false,
        },
    }
}

fn holds(tree: &CondTree, scope: &Scope<'_>, row: &[Cell]) -> bool
    ensures { result ≡ is_true (condition_at (search_of tree.now) (columns_in scope.now)) row.now }
{
    match tree {
        CondTree::Compare(name, order, with) => match row.get(scope.place_of(name)) {
            Some(a) => compare(*order, a, with, scope, row),
            None => false,
        },
        CondTree::Not(p) => !holds(p, scope, row),
        CondTree::And(p, q) => holds(p, scope, row) && holds(q, scope, row),
        CondTree::Or(p, q) => holds(p, scope, row) || holds(q, scope, row),
    }
}

/// Whether a WHERE selects a row; without one every row is selected.
pub(crate) fn selects(cond: &Option<Cond>, scope: &Scope<'_>, row: &[Cell]) -> bool
    ensures { result ≡ is_true (where_at cond.now (columns_in scope.now)) row.now }
{
    match cond {
        None => true,
        Some(cond) => holds(cond.tree(), scope, row),
    }
}

/// Whether a WHERE over the columns of one table selects a row.
#[tactic(auto, using(ob_mean::proofs::CondLemmas::one_table))]
pub(crate) fn selects_of(cond: &Option<Cond>, schema: &Schema, row: &Tuple) -> bool
    ensures { result ≡ is_true (where_at cond.now schema.now) row.now }
{
    selects(cond, &Scope::of_table(schema.as_slice()), row.as_slice())
}

/// Whether the cells at place `i` of one row and at place `j` of another are there and equal.
pub(crate) fn agree_at(i: usize, j: usize, a: &[Cell], b: &[Cell]) -> bool
    ensures { result ≡ agree_at i j a.now b.now }
{
    match (a.get(i), b.get(j)) {
        (Some(x), Some(y)) => same_cell(x, y),
        _ => false,
    }
}
