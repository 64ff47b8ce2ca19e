//! The rows that hold the running groups, one each.
ghost use Rattle.std.specs.Prelude.{◌≡◌, ◌≤◌, ◌<◌, ◌+◌, ◌*◌, ℕ, true, false, List, Some, length, take};
ghost use Rattle.ob_base.specs.Schemas.{kind_width};
ghost use Rattle.ob_vault.specs.Rows.{SameSizes, row_at};
ghost use Rattle.ob_row.specs.declared.cell.Cell.{Cell as RowCell};
ghost use Rattle.ob_row.specs.Fields.{HoldsCell};
ghost use Rattle.ob_row.specs.Rows.{Row, cell_eq};
ghost use Rattle.ob_row.specs.Spelling.{Begins, kind_at};
ghost use Rattle.ob_group.specs.Running.{AreWithin, starts, grown_all};
ghost use Rattle.ob_group.specs.Grouping.{Group, aggs_of, put_row, group_shown};
ghost use Rattle.ob_order.specs.Buckets.{AreBucketed, NoneHas};
ghost use Rattle.ob_group.specs.Held.{HoldsKey, HoldsGroup, AreGroups, IsGroup, KeepsGroups, MayGrow};
ghost use Rattle.ob_group.specs.Passes.{AreItems, AreGroupRows, IsRow, AddsTo};

use crate::fields::{add_totals, show_items, start_totals};
use ob_base::{Kind, Schema, Shown};
use ob_order::Buckets;
use ob_room::ClearRow;
use ob_row::{Cell, Item, cell_in, field_of, kind_at};

// Writes a group of no rows, whose key has this field, over the first bytes.
fn start_bytes(kind: Kind, key: &[u8], items: &[Item], bytes: &mut [u8])
    requires key { length key.now ≡ kind_width kind }
    requires few { length items.now ≤ 32 }
    requires wide { 768 ≤ length bytes.old }
    ensures size { length bytes.new ≡ length bytes.old }
    ensures held { (x : RowCell) → HoldsCell kind x key.now
        → HoldsGroup kind 0 (length items.now) (Some x, starts (aggs_of items.now)) bytes.new }
{
    let (field, rest) = bytes.split_at_mut(kind.width() as usize);
    let (fields, _) = rest.split_at_mut(16 * items.len());
    field.copy_from_slice(key);
    start_totals(items, fields);
}

// Adds the row to the group that these bytes hold.
fn add_bytes(schema: &Schema, row: &ClearRow, kind: Kind, items: &[Item], bytes: &mut [u8])
    requires row { IsRow schema.now row.now }
    requires few { length items.now ≤ 32 }
    requires within { AreWithin (length schema.now) (aggs_of items.now) }
    requires held { IsGroup kind (length items.now) bytes.old }
    ensures { AddsTo schema.now kind items.now row.now bytes.old bytes.new }
{
    let (_, rest) = bytes.split_at_mut(kind.width() as usize);
    let (fields, _) = rest.split_at_mut(16 * items.len());
    add_totals(schema, row, items, fields);
}

// The key of the group that these bytes hold.
fn key_of(kind: Kind, bytes: &[u8]) -> Cell
    requires { (x : RowCell) × HoldsKey kind x bytes.now }
    ensures { (x : RowCell) → HoldsKey kind x bytes.now → result ≡ x }
{
    let (field, _) = bytes.split_at(kind.width() as usize);
    cell_in(kind, field).unwrap()
}

// The items of the group that these bytes hold, as they are printed.
fn show_bytes(kind: Kind, items: &[Item], bytes: &[u8], cells: &mut [Shown])
    requires few { length items.now ≤ 32 }
    requires size { length cells.old ≡ length items.now }
    requires held { IsGroup kind (length items.now) bytes.now }
    ensures { (s : IsGroup kind (length items.now) bytes.now)
        → cells.new ≡ group_shown items.now s.group }
{
    let key = key_of(kind, bytes);
    let (_, rest) = bytes.split_at(kind.width() as usize);
    let (fields, _) = rest.split_at(16 * items.len());
    show_items(items, &key, fields, cells);
}

// The items of a group, as they are printed, over the first of these cells.
pub(crate) fn show_group(kind: Kind, items: &[Item], group: &ClearRow, cells: &mut [Shown])
    requires few { length items.now ≤ 32 }
    requires size { length items.now ≤ length cells.old }
    requires held { IsGroup kind (length items.now) group.now }
    ensures size { length cells.new ≡ length cells.old }
    ensures told { (s : IsGroup kind (length items.now) group.now)
        → take (length items.now) cells.new ≡ group_shown items.now s.group }
{
    let (front, _) = cells.split_at_mut(items.len());
    show_bytes(kind, items, group.bytes(), front);
}

// The place of the group whose key has this field among the first n rows, which are in the buckets of
// their keys, or n where none has it.
fn place_of(kind: Kind, field: &[u8], buckets: &Buckets, groups: &[ClearRow], n: usize) -> usize
    requires kept { AreBucketed 0 (length field.now) n groups.now buckets.now }
    requires field { (y : RowCell) × HoldsCell kind y field.now }
    requires keys { (i : ℕ) → i < n → (x : RowCell) × HoldsKey kind x (row_at groups.now i) }
    ensures most { result ≤ n }
    ensures off { (y : RowCell) → HoldsCell kind y field.now → (i : ℕ) → i < result
        → (x : RowCell) → HoldsKey kind x (row_at groups.now i) → cell_eq x y ≡ false }
    ensures on { (y : RowCell) → HoldsCell kind y field.now → result < n
        → (x : RowCell) → HoldsKey kind x (row_at groups.now result) → cell_eq x y ≡ true }
    ensures new { n ≤ result → NoneHas 0 field.now n groups.now }
{
    match buckets.find(groups, 0, field) {
        Some(place) => place as usize,
        None => n,
    }
}

// Adds the row to a group.
fn add(schema: &Schema, row: &ClearRow, kind: Kind, items: &[Item], group: &mut ClearRow)
    requires row { IsRow schema.now row.now }
    requires few { length items.now ≤ 32 }
    requires within { AreWithin (length schema.now) (aggs_of items.now) }
    requires held { IsGroup kind (length items.now) group.old }
    ensures { AddsTo schema.now kind items.now row.now group.old group.new }
{
    add_bytes(schema, row, kind, items, group.bytes_mut());
}

// Makes the row the first of a group whose key has this field.
fn start(
    schema: &Schema,
    row: &ClearRow,
    kind: Kind,
    key: &[u8],
    items: &[Item],
    group: &mut ClearRow,
)
    requires row { IsRow schema.now row.now }
    requires few { length items.now ≤ 32 }
    requires within { AreWithin (length schema.now) (aggs_of items.now) }
    requires key { length key.now ≡ kind_width kind }
    requires field { (x : RowCell) × HoldsCell kind x key.now }
    requires wide { 768 ≤ length group.old }
    ensures size { length group.new ≡ length group.old }
    ensures told { (cells : Row) → Begins schema.now (Some cells) row.now
        → (x : RowCell) → HoldsCell kind x key.now
        → HoldsGroup kind 1 (length items.now)
        (Some x, grown_all (aggs_of items.now) cells (starts (aggs_of items.now))) group.new }
{
    start_bytes(kind, key, items, group.bytes_mut());
    add(schema, row, kind, items, group);
}

// Puts a row to the group with its key, or to a new one after the n that there are, and answers how many
// there are then: one more than the rows, where there are more. The groups are in the buckets of their keys,
// and a new one is put into its own.
pub(crate) fn put_row(
    schema: &Schema,
    row: &ClearRow,
    key: u8,
    items: &[Item],
    buckets: &mut Buckets,
    groups: &mut [ClearRow],
    n: usize,
) -> usize
    requires row { IsRow schema.now row.now }
    requires items { AreItems schema.now key items.now }
    requires groups { AreGroupRows groups.old }
    requires held { MayGrow (kind_at schema.now key) (length items.now) n 1 groups.old }
    requires kept { KeepsGroups (kind_at schema.now key) n groups.old buckets.old }
    requires most { length groups.old ≤ buckets.old.most }
    ensures size { SameSizes groups.old groups.new }
    ensures kept { KeepsGroups (kind_at schema.now key) result groups.new buckets.new }
    ensures most { buckets.new.most ≡ buckets.old.most }
    ensures told { (cells : Row) → Begins schema.now (Some cells) row.now
        → (gs : List Group) (m : ℕ) → m < 2147483648
        → AreGroups (kind_at schema.now key) m (length items.now) n gs groups.old
        → AreGroups (kind_at schema.now key) (m + 1) (length items.now) result
        (put_row key (aggs_of items.now) cells gs) groups.new }
{
    if n > groups.len() {
        return n;
    }
    let kind = kind_at(schema, key);
    let field = field_of(schema, row, key);
    let i = place_of(kind, field, buckets, groups, n);
    if i < n {
        add(schema, row, kind, items, &mut groups[i]);
        n
    } else if n < groups.len() {
        start(schema, row, kind, field, items, &mut groups[n]);
        buckets.add(field);
        n + 1
    } else {
        n + 1
    }
}
