//! Whether the cells of a row make a condition true.
ghost use Rattle.std.specs.Prelude.{◌≡◌, ◌≤◌, Some, length};
ghost use Rattle.ob_base.specs.Schemas.{width};
ghost use Rattle.ob_row.specs.Rows.{Row, cell_cmp};
ghost use Rattle.ob_row.specs.Spelling.{Begins};
ghost use Rattle.ob_row.specs.Condition.{condition_of, Compare as IsCompare};
ghost use Rattle.ob_row.specs.Truth.{accepts, compare, is_true};
ghost use Rattle.ob_row.specs.Values.{cell_of};

use crate::cell::Cell;
use crate::pred::{Operand, Tree};
use crate::value::{Value, value_at};
use ob_base::{ComparisonOperator, Schema};
use ob_room::ClearRow;
use std::cmp::Ordering;

// Integers by value, texts by bytes; cells of two kinds have no operator.
fn value_cmp(a: Value<'_>, b: Value<'_>) -> Option<Ordering>
    ensures { result ≡ cell_cmp (cell_of a.entry) (cell_of b.entry) }
{
    match (a, b) {
        (Value::Int(x), Value::Int(y)) => Some(x.cmp(&y)),
        (Value::Text(s), Value::Text(t)) => Some(s.cmp(t)),
        _ => None,
    }
}

// Whether an operator takes this answer of a comparison.
fn accepts(operator: ComparisonOperator, answer: Ordering) -> bool
    ensures { result ≡ accepts operator answer }
{
    match operator {
        ComparisonOperator::Equal => answer.is_eq(),
        ComparisonOperator::NotEqual => answer.is_ne(),
        ComparisonOperator::Less => answer.is_lt(),
        ComparisonOperator::LessOrEqual => answer.is_le(),
        ComparisonOperator::Greater => answer.is_gt(),
        ComparisonOperator::GreaterOrEqual => answer.is_ge(),
    }
}

// Whether the first value stands so to the second.
fn compare_values(operator: ComparisonOperator, a: Value<'_>, b: Value<'_>) -> bool
    ensures { result ≡ compare operator (Some (cell_of a.entry)) (Some (cell_of b.entry)) }
{
    match value_cmp(a, b) {
        Some(answer) => accepts(operator, answer),
        None => false,
    }
}

/// Whether the first cell stands so to the second; cells of two kinds stand in no operator.
pub fn compare_cells(operator: ComparisonOperator, a: &Cell, b: &Cell) -> bool
    ensures { result ≡ compare operator (Some a.now) (Some b.now) }
{
    compare_values(operator, a.as_value(), b.as_value())
}

// Whether the cell at a place of the row compares so with another.
fn compare(
    column: u8,
    operator: ComparisonOperator,
    with: &Operand,
    schema: &Schema,
    row: &ClearRow,
) -> bool
    requires wide { width schema.now ≤ length row.now }
    requires real { (cells : Row) × Begins schema.now (Some cells) row.now }
    ensures { (cells : Row) → Begins schema.now (Some cells) row.now
        → result ≡ is_true (IsCompare column operator with.now) cells }
{
    let Some(a) = value_at(schema, row, column) else {
        return false;
    };
    match with {
        Operand::Cell(b) => compare_values(operator, a, b.as_value()),
        Operand::Column(j) => match value_at(schema, row, *j) {
            Some(b) => compare_values(operator, a, b),
            None => false,
        },
    }
}

impl Tree {
    /// Whether the row that the first bytes spell makes the condition true.
    pub(crate) fn is_true(&self, schema: &Schema, row: &ClearRow) -> bool
        requires wide { width schema.now ≤ length row.now }
        requires real { (cells : Row) × Begins schema.now (Some cells) row.now }
        ensures { (cells : Row) → Begins schema.now (Some cells) row.now
            → result ≡ is_true (condition_of self.now) cells }
    {
        match self {
            Tree::All => true,
            Tree::Compare(column, operator, with) => compare(*column, *operator, with, schema, row),
            Tree::Not(p) => !p.is_true(schema, row),
            Tree::And(p, q) => p.is_true(schema, row) && q.is_true(schema, row),
            Tree::Or(p, q) => p.is_true(schema, row) || q.is_true(schema, row),
        }
    }
}
