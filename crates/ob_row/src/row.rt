//! The bytes of a row.
ghost use Rattle.std.specs.Prelude.{◌≡◌, ◌≤◌, ◌<◌, ◌-◌, ◌++◌, ◌↔◌, Option, Some, length, replicate, IfOk, IsOkAnd, IsTrue, is_some, slice_get};
ghost use Rattle.std.specs.Bool.{OnTrue, OnFalse};
ghost use Rattle.ob_base.specs.Schemas.{width};
ghost use Rattle.ob_row.specs.Rows.{Row};
ghost use Rattle.ob_row.specs.Spelling.{FitsColumns, Spells, Begins, cells_bytes, cells_width, row_bytes};
ghost use Rattle.ob_row.specs.Cells.{HoldsCells};
ghost use Rattle.ob_row.specs.Truth.{is_true};
ghost use Rattle.ob_row.specs.Slots.{is_selected};

use crate::cell::{Cell, Malformed};
use crate::field::{is_cell, is_zero, kind_width, put_cell};
use crate::pred::Pred;
use crate::value::value_of;
use ob_base::{Column, Schema};
use ob_room::ClearRow;

// The bytes that the cells of a row take.
pub(crate) fn cells_width(columns: &[Column]) -> usize
    requires { length columns.now ≤ 32 }
    ensures value { result ≡ cells_width columns.now }
    ensures few { result ≤ 8192 }
{
    let mut sum = 0;
    for column in columns {
        sum += kind_width(column.kind);
    }
    sum
}

/// The bytes that a row takes: its mark and its cells.
pub fn width(schema: &Schema) -> u32
    ensures { result ≡ width schema.now }
{
    schema.width()
}

// Writes the cells of a row, one after the other.
fn put_cells(columns: &[Column], cells: &[Cell], fields: &mut [u8])
    requires fits { FitsColumns columns.now cells.now }
    requires wide { length fields.old ≡ cells_width columns.now }
    ensures { fields.new ≡ cells_bytes columns.now cells.now }
{
    match (columns.split_first(), cells.split_first()) {
        (Some((column, columns)), Some((cell, cells))) => {
            let (field, fields) = fields.split_at_mut(kind_width(column.kind));
            put_cell(column.kind, cell, field);
            put_cells(columns, cells, fields);
        }
        _ => {}
    }
}

/// Writes a row's bytes, and zeros after them.
pub fn encode(schema: &Schema, cells: &[Cell], row: &mut ClearRow)
    requires fits { FitsColumns schema.now cells.now }
    requires wide { width schema.now ≤ length row.old }
    ensures value { row.new ≡ row_bytes schema.now cells.now
        ++ replicate (length row.old - width schema.now) 0 }
    ensures len { length row.new ≡ length row.old }
{
    put_row(schema.as_slice(), cells, row.bytes_mut());
}

fn put_row(columns: &[Column], cells: &[Cell], bytes: &mut [u8])
    requires few { length columns.now ≤ 32 }
    requires fits { FitsColumns columns.now cells.now }
    requires wide { width columns.now ≤ length bytes.old }
    ensures { bytes.new ≡ row_bytes columns.now cells.now
        ++ replicate (length bytes.old - width columns.now) 0 }
{
    let (mark, rest) = bytes.split_at_mut(1);
    let (fields, behind) = rest.split_at_mut(cells_width(columns));
    mark.fill(1);
    put_cells(columns, cells, fields);
    behind.fill(0);
}

// Whether the bytes spell a cell for each column, one after the other.
fn are_cells(columns: &[Column], fields: &[u8]) -> bool
    requires { length fields.now ≡ cells_width columns.now }
    ensures yes { OnTrue result ((row : Row) × HoldsCells columns.now row fields.now) }
    ensures no { OnFalse result ((row : Row) → HoldsCells columns.now row fields.now → ⊥) }
{
    match columns.split_first() {
        None => true,
        Some((column, columns)) => {
            let (field, fields) = fields.split_at(kind_width(column.kind));
            is_cell(column.kind, field) && are_cells(columns, fields)
        }
    }
}

// Whether the bytes, as many as a row has, spell a row.
fn is_row(columns: &[Column], bytes: &[u8]) -> bool
    requires { length bytes.now ≡ width columns.now }
    ensures yes { OnTrue result ((row : Row) × Spells columns.now (Some row) bytes.now) }
    ensures no { OnFalse result ((row : Row) → Spells columns.now (Some row) bytes.now → ⊥) }
{
    match bytes.split_first() {
        Some((mark, fields)) => *mark == 1 && are_cells(columns, fields),
        None => false,
    }
}

// Whether the bytes, as many as a row has, spell a row, and not a dummy.
fn read_row(columns: &[Column], bytes: &[u8]) -> Result<bool, Malformed>
    requires { length bytes.now ≡ width columns.now }
    ensures spelled { (slot : Option Row) → Spells columns.now slot bytes.now
        → result ≡ Ok (is_some slot) }
    ensures malformed { IfOk result
        (λ b. (slot : Option Row) × Spells columns.now slot bytes.now × (is_some slot ≡ b)) }
{
    if is_row(columns, bytes) {
        Ok(true)
    } else if is_zero(bytes) {
        Ok(false)
    } else {
        Err(Malformed)
    }
}

/// Whether the first bytes, as many as a row has, spell a row, and not a dummy; else they are malformed.
pub fn read(schema: &Schema, row: &ClearRow) -> Result<bool, Malformed>
    requires { width schema.now ≤ length row.now }
    ensures spelled { (slot : Option Row) → Begins schema.now slot row.now
        → result ≡ Ok (is_some slot) }
    ensures malformed { IfOk result
        (λ b. (slot : Option Row) × Begins schema.now slot row.now × (is_some slot ≡ b)) }
{
    let columns = schema.as_slice();
    let (bytes, _) = row.bytes().split_at(cells_width(columns) + 1);
    read_row(columns, bytes)
}

/// The cell at place `i` of the row that the first bytes spell; where they spell no row, as those of a
/// dummy, they are malformed.
pub fn decode(schema: &Schema, row: &ClearRow, i: u8) -> Result<Cell, Malformed>
    requires wide { width schema.now ≤ length row.now }
    requires within { i < length schema.now }
    ensures cell { (r : Row) → Begins schema.now (Some r) row.now
        → IsOkAnd result (λ x. slice_get r i ≡ Some x) }
    ensures malformed { IfOk result
        (λ x. (r : Row) × Begins schema.now (Some r) row.now × (slice_get r i ≡ Some x)) }
{
    if read(schema, row).unwrap_or(false) {
        Ok(value_of(schema, row, i).to_cell())
    } else {
        Err(Malformed)
    }
}

/// Whether all bytes are zero, as those of a dummy.
pub fn is_dummy(row: &ClearRow) -> bool
    ensures { IsTrue result ↔ (row.now ≡ replicate (length row.now) 0) }
{
    is_zero(row.bytes())
}

/// Whether the first bytes, as many as a row has, spell a row that makes the condition true; those of a
/// dummy don't, and other bytes are malformed.
pub fn holds(pred: &Pred, schema: &Schema, row: &ClearRow) -> Result<bool, Malformed>
    requires { width schema.now ≤ length row.now }
    ensures truth { (slot : Option Row) → Begins schema.now slot row.now
        → result ≡ Ok (is_selected (is_true pred.now) slot) }
    ensures malformed { IfOk result
        (λ b. (slot : Option Row) × Begins schema.now slot row.now
        × (is_selected (is_true pred.now) slot ≡ b)) }
{
    Ok(read(schema, row)? && pred.tree.is_true(schema, row))
}
