//! Pairs of rows with equal fields.
ghost use Rattle.std.specs.Prelude.{◌≡◌, ◌≤◌, ◌<◌, ◌+◌, ◌++◌, ◌↔◌, IsTrue, Option, Some, IfSome, IfNone, OnOk, MatchResult, length, take, drop};
ghost use Rattle.ob_base.specs.declared.schema.Kind.{Kind as ColumnKind};
ghost use Rattle.ob_base.specs.Schemas.{kind_width, width};
ghost use Rattle.ob_vault.specs.Rows.{SameSizes, Wide};
ghost use Rattle.ob_row.specs.Rows.{Row};
ghost use Rattle.ob_row.specs.Slots.{Slots};
ghost use Rattle.ob_row.specs.declared.cell.Cell.{Cell as RowCell};
ghost use Rattle.ob_row.specs.Fields.{HoldsCell};
ghost use Rattle.ob_row.specs.Spelling.{FitsKind, Begins, kind_at};
ghost use Rattle.ob_flat.specs.Slots.{Spelt, AreSlots};
ghost use Rattle.ob_join.specs.Joining.{HasColumns, FindsAt, FindsNone, ListsBy, agrees, columns_of, slot_of, block_of};

use crate::sides::Sides;
use ob_base::{Kind, Schema};
use ob_flat::clear_row;
use ob_order::Order;
use ob_room::ClearRow;
use ob_row::{Cell, Malformed, cell_in, kind_at, offset, put_cell, read, width};

// Writes these bytes over the first ones, and the others after them.
fn join_bytes(left: &[u8], right: &[u8], to: &mut [u8])
    requires { length left.now + length right.now ≤ length to.old }
    ensures { to.new ≡ left.now ++ (right.now ++ drop (length left.now + length right.now) to.old) }
{
    let (first, rest) = to.split_at_mut(left.len());
    first.copy_from_slice(left);
    rest[..right.len()].copy_from_slice(right);
}

// Writes the left row, and the cells of the right one after it.
fn join_pair(left: &Schema, a: &ClearRow, right: &Schema, b: &ClearRow, to: &mut ClearRow)
    requires left { width left.now ≤ length a.now }
    requires right { width right.now ≤ length b.now }
    requires to { width (left.now ++ right.now) ≤ length to.old }
    ensures size { length to.new ≡ length to.old }
    ensures told { (x y : Row) → Begins left.now (Some x) a.now → Begins right.now (Some y) b.now
        → Begins (left.now ++ right.now) (Some (x ++ y)) to.new }
{
    let first = &a.bytes()[..width(left) as usize];
    let cells = &b.bytes()[1..width(right) as usize];
    join_bytes(first, cells, to.bytes_mut());
}

// The bytes of a row from a place on, so many.
fn field_at(row: &ClearRow, at: usize, n: usize) -> &[u8]
    requires { at + n ≤ length row.now }
    ensures value { result.now ≡ take n (drop at row.now) }
    ensures len { length result.now ≡ n }
{
    &row.bytes()[at..at + n]
}

// The first kept row that has this field at this place.
fn find_field(
    schema: &Schema,
    order: &Order,
    kept: &[ClearRow],
    column: u8,
    field: &[u8],
) -> Option<usize>
    requires listed { ListsBy schema.now column kept.now order.now.places }
    requires within { column < length schema.now }
    requires field { length field.now ≡ kind_width (kind_at schema.now column) }
    ensures inside { IfSome result (λ i. i < length kept.now) }
    ensures some { (cell : RowCell) → HoldsCell (kind_at schema.now column) cell field.now
        → IfSome result (FindsAt (agrees column cell) schema.now kept.now) }
    ensures none { (cell : RowCell) → HoldsCell (kind_at schema.now column) cell field.now
        → IfNone result (FindsNone (agrees column cell) schema.now kept.now) }
{
    let at = offset(schema, column);
    match order.first_row(kept, at, field) {
        Some(i) => Some(i as usize),
        None => None,
    }
}

// Whether a column of this kind holds a cell that some column holds.
fn fits(kind: Kind, cell: &Cell) -> bool
    requires { (other : ColumnKind) × FitsKind other cell.now }
    ensures { IsTrue result ↔ FitsKind kind cell.now }
{
    match (kind, cell) {
        (Kind::Int, Cell::Int(_)) => true,
        (Kind::Varchar(n), Cell::Text(text)) => text.as_bytes().len() <= usize::from(n),
        _ => false,
    }
}

// The first kept row with a cell at this place that is equal to another.
fn find_cell(
    schema: &Schema,
    order: &Order,
    kept: &[ClearRow],
    column: u8,
    cell: &Cell,
) -> Option<usize>
    requires listed { ListsBy schema.now column kept.now order.now.places }
    requires within { column < length schema.now }
    requires fits { (other : ColumnKind) × FitsKind other cell.now }
    ensures inside { IfSome result (λ i. i < length kept.now) }
    ensures some { IfSome result (FindsAt (agrees column cell.now) schema.now kept.now) }
    ensures none { IfNone result (FindsNone (agrees column cell.now) schema.now kept.now) }
{
    let kind = kind_at(schema, column);
    if !fits(kind, cell) {
        return None;
    }
    let mut buffer = [0; 256];
    let (field, _) = buffer.split_at_mut(kind.width() as usize);
    put_cell(kind, cell, field);
    find_field(schema, order, kept, column, field)
}

// The first kept row with a cell at this place that is equal to the one that a field of this kind holds.
fn find_partner(
    schema: &Schema,
    order: &Order,
    kept: &[ClearRow],
    column: u8,
    kind: Kind,
    field: &[u8],
) -> Option<usize>
    requires listed { ListsBy schema.now column kept.now order.now.places }
    requires within { column < length schema.now }
    requires field { length field.now ≡ kind_width kind }
    ensures inside { IfSome result (λ i. i < length kept.now) }
    ensures some { (cell : RowCell) → HoldsCell kind cell field.now
        → IfSome result (FindsAt (agrees column cell) schema.now kept.now) }
    ensures none { (cell : RowCell) → HoldsCell kind cell field.now
        → IfNone result (FindsNone (agrees column cell) schema.now kept.now) }
{
    if kind == kind_at(schema, column) {
        return find_field(schema, order, kept, column, field);
    }
    match cell_in(kind, field) {
        Some(cell) => find_cell(schema, order, kept, column, &cell),
        None => None,
    }
}

// Joins a right row with the first kept left row that agrees with it, or makes a dummy where there is
// none, and where the right slot lies behind the capacity; refuses a right row that is malformed.
fn join_slot(
    sides: &Sides<'_>,
    order: &Order,
    kept: &[ClearRow],
    row: &ClearRow,
    inside: bool,
    to: &mut ClearRow,
) -> Result<(), Malformed>
    requires kept { Wide (width sides.now.left.now.schema) kept.now }
    requires listed { ListsBy sides.now.left.now.schema sides.now.lcol kept.now order.now.places }
    requires row { width sides.now.right.now.schema ≤ length row.now }
    requires to { width (columns_of sides.now) ≤ length to.old }
    requires columns { HasColumns sides.now }
    ensures size { length to.new ≡ length to.old }
    ensures read { OnOk result
        ((slot : Option Row) × Begins sides.now.right.now.schema slot row.now) }
    ensures told { (left : Slots) (slot : Option Row)
        → Spelt sides.now.left.now.schema left kept.now
        → Begins sides.now.right.now.schema slot row.now
        → MatchResult result
        (λ _. Begins (columns_of sides.now) (slot_of sides.now left inside slot) to.new) (λ _. ⊥) }
{
    clear_row(to);
    if read(&sides.right.schema, row)? && inside {
        let kind = kind_at(&sides.right.schema, sides.rcol);
        let at = offset(&sides.right.schema, sides.rcol);
        let field = field_at(row, at, kind.width() as usize);
        if let Some(i) = find_partner(&sides.left.schema, order, kept, sides.lcol, kind, field) {
            join_pair(&sides.left.schema, &kept[i], &sides.right.schema, row, to);
        }
    }
    Ok(())
}

// Joins each row of a right block, the first of which has this index, with the first kept left row that
// agrees with it; those behind the capacity become dummies. Refuses a block of which a row is malformed.
pub(crate) fn join_rows(
    sides: &Sides<'_>,
    order: &Order,
    kept: &[ClearRow],
    first: u32,
    rows: &[ClearRow],
    to: &mut [ClearRow],
) -> Result<(), Malformed>
    requires kept { Wide (width sides.now.left.now.schema) kept.now }
    requires listed { ListsBy sides.now.left.now.schema sides.now.lcol kept.now order.now.places }
    requires rows { Wide (width sides.now.right.now.schema) rows.now }
    requires to { Wide (width (columns_of sides.now)) to.old }
    requires same { length to.old ≡ length rows.now }
    requires index { first + length rows.now ≤ 2147483648 }
    requires columns { HasColumns sides.now }
    ensures size { SameSizes to.old to.new }
    ensures read { OnOk result (AreSlots sides.now.right.now.schema rows.now) }
    ensures told { (left block : Slots)
        → Spelt sides.now.left.now.schema left kept.now
        → Spelt sides.now.right.now.schema block rows.now
        → MatchResult result
        (λ _. Spelt (columns_of sides.now) (block_of sides.now left first block) to.new) (λ _. ⊥) }
{
    for z in 0..rows.len() {
        let inside = first + (z as u32) < sides.right.capacity;
        match join_slot(sides, order, kept, &rows[z], inside, &mut to[z]) {
            Ok(()) => {}
            Err(malformed) => return Err(malformed),
        }
    }
    Ok(())
}
