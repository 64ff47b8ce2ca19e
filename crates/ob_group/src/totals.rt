//! Totals of the rows so far.
ghost use Rattle.std.specs.Prelude.{◌≡◌, ◌≤◌, ◌<◌, ◌+◌, ◌*◌, ◌^◌, ℕ, nat_abs, length, take, Some, IfSome};
ghost use Rattle.ob_base.specs.Schemas.{width};
ghost use Rattle.ob_row.specs.Rows.{Row, cell_at};
ghost use Rattle.ob_row.specs.Spelling.{Begins};
ghost use Rattle.ob_row.specs.Totals.{int_of};
ghost use Rattle.ob_group.specs.Running.{IsWithin, AreWithin, AreUpTo, together, start, starts, part, joined, grown_all};

use ob_base::Schema;
use ob_room::ClearRow;
use ob_row::{Agg, Value, value_of};

// How two values of an aggregate are taken together.
fn together(agg: Agg, x: i128, y: i128) -> i128
    requires { nat_abs x + nat_abs y < 2 ^ 127 }
    ensures value { result ≡ together agg x y }
    ensures few { nat_abs result ≤ nat_abs x + nat_abs y }
{
    match agg {
        Agg::CountAll | Agg::Count(_) | Agg::Sum(_) => x + y,
        Agg::Min(_) => x.min(y),
        Agg::Max(_) => x.max(y),
    }
}

pub(crate) fn joined(agg: Agg, total: Option<i128>, part: Option<i64>) -> Option<i128>
    requires { IfSome total (λ x. nat_abs x + 2 ^ 63 < 2 ^ 127) }
    ensures value { result ≡ joined (together agg) total part }
    ensures few { (n : ℕ) → IfSome total (λ x. nat_abs x ≤ n * 2 ^ 63)
        → IfSome result (λ x. nat_abs x ≤ (n + 1) * 2 ^ 63) }
{
    match (total, part) {
        (None, None) => None,
        (None, Some(y)) => Some(i128::from(y)),
        (Some(x), None) => Some(x),
        (Some(x), Some(y)) => Some(together(agg, x, i128::from(y))),
    }
}

// The integer at a place of the row, if its column has integers.
fn int_at(schema: &Schema, row: &ClearRow, i: u8) -> Option<i64>
    requires wide { width schema.now ≤ length row.now }
    requires within { i < length schema.now }
    requires real { (cells : Row) × Begins schema.now (Some cells) row.now }
    ensures { (cells : Row) → Begins schema.now (Some cells) row.now
        → result ≡ int_of (cell_at cells i) }
{
    match value_of(schema, row, i) {
        Value::Int(x) => Some(x),
        Value::Text(_) => None,
    }
}

// What the row gives to an aggregate.
pub(crate) fn part(agg: Agg, schema: &Schema, row: &ClearRow) -> Option<i64>
    requires wide { width schema.now ≤ length row.now }
    requires within { IsWithin (length schema.now) agg }
    requires real { (cells : Row) × Begins schema.now (Some cells) row.now }
    ensures { (cells : Row) → Begins schema.now (Some cells) row.now → result ≡ part agg cells }
{
    match agg {
        Agg::CountAll | Agg::Count(_) => Some(1),
        Agg::Sum(i) | Agg::Min(i) | Agg::Max(i) => int_at(schema, row, i),
    }
}

// Adds the row to the totals of these aggregates, which are the first ones.
pub(crate) fn add_row(schema: &Schema, row: &ClearRow, aggs: &[Agg], totals: &mut [Option<i128>])
    requires wide { width schema.now ≤ length row.now }
    requires within { AreWithin (length schema.now) aggs.now }
    requires real { (cells : Row) × Begins schema.now (Some cells) row.now }
    requires few { AreUpTo 2147483648 totals.old }
    ensures few { (n : ℕ) → AreUpTo n totals.old → AreUpTo (n + 1) totals.new }
    ensures told { (cells : Row) → Begins schema.now (Some cells) row.now
        → totals.new ≡ grown_all aggs.now cells totals.old }
{
    match aggs.split_first() {
        Some((agg, aggs)) => match totals.split_first_mut() {
            Some((total, totals)) => {
                *total = joined(*agg, *total, part(*agg, schema, row));
                add_row(schema, row, aggs, totals);
            }
            None => {}
        },
        None => {}
    }
}

// The total of no rows.
pub(crate) fn start(agg: Agg) -> Option<i128>
    ensures { result ≡ start agg }
{
    match agg {
        Agg::CountAll | Agg::Count(_) => Some(0),
        Agg::Sum(_) | Agg::Min(_) | Agg::Max(_) => None,
    }
}

// The totals of no rows, in the first places of an array that holds those of any answer.
pub(crate) fn starts(aggs: &[Agg]) -> [Option<i128>; 32]
    requires { length aggs.now ≤ 32 }
    ensures size { length result ≡ 32 }
    ensures few { AreUpTo 0 result }
    ensures value { take (length aggs.now) result ≡ starts aggs.now }
{
    let mut totals: [Option<i128>; 32] = [None; 32];
    for i in 0..aggs.len() {
        totals[i] = start(aggs[i]);
    }
    totals
}
