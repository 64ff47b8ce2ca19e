//! The bytes of the totals of a running group.
ghost use Rattle.std.specs.Prelude.{◌≡◌, ◌≤◌, ◌<◌, ◌+◌, ◌*◌, ◌^◌, ℕ, ℤ, nat_abs, length, Option, Some, IfSome};
ghost use Rattle.ob_base.specs.Schemas.{width};
ghost use Rattle.ob_row.specs.Rows.{Row};
ghost use Rattle.ob_row.specs.Spelling.{Begins};
ghost use Rattle.ob_group.specs.Running.{Sums, AreWithin, starts, grown_all};
ghost use Rattle.ob_group.specs.Grouping.{agg_of, aggs_of, item_cell, item_cells};
ghost use Rattle.ob_group.specs.Held.{total_bytes, totals_bytes, HoldTotals};

use crate::accs::total_shown;
use crate::totals::{joined, part, start};
use ob_base::{Schema, Shown};
use ob_room::ClearRow;
use ob_row::{Agg, Cell, Item};

// Writes a total; the least integer stands for none.
fn put_total(total: Option<i128>, field: &mut [u8])
    requires { length field.old ≡ 16 }
    ensures { field.new ≡ total_bytes total }
{
    let x = match total {
        Some(x) => x,
        None => i128::MIN,
    };
    field.copy_from_slice(&x.to_be_bytes());
}

// The total that was written.
fn total_in(field: &[u8]) -> Option<i128>
    requires { length field.now ≡ 16 }
    ensures { (total : Option ℤ) → IfSome total (λ x. nat_abs x < 2 ^ 127)
        → field.now ≡ total_bytes total → result ≡ total }
{
    let mut bytes = [0; 16];
    bytes.copy_from_slice(field);
    let x = i128::from_be_bytes(bytes);
    if x == i128::MIN { None } else { Some(x) }
}

// What is added up for an item; for a key, which asks for nothing, the rows are counted.
fn agg_of(item: Item) -> Agg
    ensures { result ≡ agg_of item }
{
    match item {
        Item::Key => Agg::CountAll,
        Item::Agg(agg) => agg,
    }
}

// Writes the totals of no rows.
pub(crate) fn start_totals(items: &[Item], fields: &mut [u8])
    requires { length fields.old ≡ 16 * length items.now }
    ensures { fields.new ≡ totals_bytes (starts (aggs_of items.now)) }
{
    match items.split_first() {
        Some((item, items)) => {
            let (field, fields) = fields.split_at_mut(16);
            put_total(start(agg_of(*item)), field);
            start_totals(items, fields);
        }
        None => {}
    }
}

// Adds the row to the totals of these items.
pub(crate) fn add_totals(schema: &Schema, row: &ClearRow, items: &[Item], fields: &mut [u8])
    requires wide { width schema.now ≤ length row.now }
    requires within { AreWithin (length schema.now) (aggs_of items.now) }
    requires real { (cells : Row) × Begins schema.now (Some cells) row.now }
    requires held { (totals : Sums) × HoldTotals 2147483648 (length items.now) totals fields.old }
    ensures size { length fields.new ≡ length fields.old }
    ensures told { (cells : Row) → Begins schema.now (Some cells) row.now
        → (totals : Sums) (m : ℕ) → m ≤ 2147483648
        → HoldTotals m (length items.now) totals fields.old
        → HoldTotals (m + 1) (length items.now)
        (grown_all (aggs_of items.now) cells totals) fields.new }
{
    match items.split_first() {
        Some((item, items)) => {
            let agg = agg_of(*item);
            let (field, fields) = fields.split_at_mut(16);
            let total = joined(agg, total_in(field), part(agg, schema, row));
            put_total(total, field);
            add_totals(schema, row, items, fields);
        }
        None => {}
    }
}

// An item of a group, as it is printed.
fn item_cell(key: &Cell, item: Item, total: Option<i128>) -> Shown
    ensures { result ≡ item_cell (Some key.now) item total }
{
    match item {
        Item::Key => match key {
            Cell::Int(x) => Shown::Int(i128::from(*x)),
            Cell::Text(text) => Shown::Text(text.copied()),
        },
        Item::Agg(_) => total_shown(total),
    }
}

// The items of a group, as they are printed.
pub(crate) fn show_items(items: &[Item], key: &Cell, fields: &[u8], cells: &mut [Shown])
    requires size { length cells.old ≡ length items.now }
    requires held { (totals : Sums) × HoldTotals 2147483648 (length items.now) totals fields.now }
    ensures { (totals : Sums) (m : ℕ) → m ≤ 2147483648
        → HoldTotals m (length items.now) totals fields.now
        → cells.new ≡ item_cells (Some key.now) items.now totals }
{
    match (items.split_first(), cells.split_first_mut()) {
        (Some((item, items)), Some((cell, cells))) => {
            let (field, fields) = fields.split_at(16);
            *cell = item_cell(key, *item, total_in(field));
            show_items(items, key, fields, cells);
        }
        _ => {}
    }
}
