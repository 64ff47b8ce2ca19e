//! The cells of a row, where their bytes lie.
ghost use Rattle.std.specs.Prelude.{◌≡◌, ◌≤◌, ◌<◌, Option, Some, length, take, slice_get, slice_set};
ghost use Rattle.std.specs.Option.{option_map};
ghost use Rattle.ob_base.specs.Schemas.{kind_width, width};
ghost use Rattle.ob_row.specs.declared.cell.Cell.{Cell as RowCell};
ghost use Rattle.ob_row.specs.Fields.{HoldsCell};
ghost use Rattle.ob_row.specs.Rows.{Row, cell_eq};
ghost use Rattle.ob_row.specs.Spelling.{Begins, FitsKind, IsCell, kind_at};
ghost use Rattle.ob_row.specs.Values.{cell_of};

use crate::cell::Cell;
use crate::field::{kind_width, put_cell};
use ob_base::{Kind, Schema, Text};
use ob_room::ClearRow;

/// One value of a row, where its bytes lie.
#[derive(Clone, Copy, Debug, PartialEq, Eq)]
pub enum Value<'a> {
    Int(i64),
    Text(&'a [u8]),
}

impl<'a> Value<'a> {
    /// The same as a cell of its own.
    pub fn to_cell(self) -> Cell
        requires { IsCell (cell_of self) }
        ensures { result ≡ cell_of self.entry }
    {
        match self {
            Value::Int(x) => Cell::Int(x),
            Value::Text(text) => Cell::Text(Text::from_bytes(text)),
        }
    }
}

impl Cell {
    /// The same, where its bytes lie.
    pub fn as_value(&self) -> Value<'_>
        ensures { cell_of result ≡ self.now }
    {
        match self {
            Cell::Int(x) => Value::Int(*x),
            Cell::Text(text) => Value::Text(text.as_bytes()),
        }
    }
}

// The cell that a field of this kind holds.
fn value_in(kind: Kind, field: &[u8]) -> Value<'_>
    requires { (x : RowCell) × HoldsCell kind x field.now }
    ensures value { (x : RowCell) → HoldsCell kind x field.now → cell_of result ≡ x }
    ensures cell { IsCell (cell_of result) }
{
    match kind {
        Kind::Int => {
            let mut bytes = [0; 8];
            bytes.copy_from_slice(field);
            Value::Int(i64::from_be_bytes(bytes))
        }
        Kind::Varchar(_) => {
            let len = usize::from(field[0]);
            Value::Text(&field[1..len + 1])
        }
    }
}

/// The kind of the column at a place.
pub fn kind_at(schema: &Schema, i: u8) -> Kind
    requires { i < length schema.now }
    ensures { result ≡ kind_at schema.now i }
{
    schema.as_slice()[usize::from(i)].kind
}

/// Where the cell of the column at a place begins in the bytes of a row.
pub fn offset(schema: &Schema, i: u8) -> usize
    requires { i < length schema.now }
    ensures { result ≡ width (take i schema.now) }
{
    let (before, _) = schema.as_slice().split_at(usize::from(i));
    let mut at = 1;
    for column in before {
        at += kind_width(column.kind);
    }
    at
}

/// The bytes of the cell at place `i`, where the first bytes spell a row.
pub fn field_of<'a>(schema: &Schema, row: &'a ClearRow, i: u8) -> &'a [u8]
    requires wide { width schema.now ≤ length row.now }
    requires within { i < length schema.now }
    ensures len { length result.now ≡ kind_width (kind_at schema.now i) }
    ensures told { (cells : Row) → Begins schema.now (Some cells) row.now
        → (cell : RowCell) × (slice_get cells i ≡ Some cell)
        × HoldsCell (kind_at schema.now i) cell result.now }
{
    let from = offset(schema, i);
    let (_, rest) = row.bytes().split_at(from);
    let (field, _) = rest.split_at(kind_width(kind_at(schema, i)));
    field
}

/// The cell at place `i` of the row that the first bytes spell.
pub fn value_of<'a>(schema: &Schema, row: &'a ClearRow, i: u8) -> Value<'a>
    requires wide { width schema.now ≤ length row.now }
    requires within { i < length schema.now }
    requires real { (cells : Row) × Begins schema.now (Some cells) row.now }
    ensures value { (cells : Row) → Begins schema.now (Some cells) row.now
        → slice_get cells i ≡ Some (cell_of result) }
    ensures cell { IsCell (cell_of result) }
{
    value_in(kind_at(schema, i), field_of(schema, row, i))
}

/// The cell at place `i` of the row that the first bytes spell, if it has such a place.
pub(crate) fn value_at<'a>(schema: &Schema, row: &'a ClearRow, i: u8) -> Option<Value<'a>>
    requires wide { width schema.now ≤ length row.now }
    requires real { (cells : Row) × Begins schema.now (Some cells) row.now }
    ensures { (cells : Row) → Begins schema.now (Some cells) row.now
        → option_map cell_of result ≡ slice_get cells i }
{
    if usize::from(i) < schema.as_slice().len() {
        Some(value_of(schema, row, i))
    } else {
        None
    }
}

/// Whether two cells are equal: integers by value, texts by their bytes.
pub fn same_value(a: Value<'_>, b: Value<'_>) -> bool
    ensures { result ≡ cell_eq (cell_of a.entry) (cell_of b.entry) }
{
    match (a, b) {
        (Value::Int(x), Value::Int(y)) => x == y,
        (Value::Text(s), Value::Text(t)) => s == t,
        _ => false,
    }
}

/// Whether two cells are equal: integers by value, texts by their bytes.
pub fn same_cell(a: &Cell, b: &Cell) -> bool
    ensures { result ≡ cell_eq a.now b.now }
{
    same_value(a.as_value(), b.as_value())
}

// Writes the cell at place `i` of the row that the first bytes spell anew.
fn set_field(schema: &Schema, i: u8, cell: &Cell, bytes: &mut [u8])
    requires wide { width schema.now ≤ length bytes.old }
    requires within { i < length schema.now }
    requires fits { FitsKind (kind_at schema.now i) cell.now }
    ensures size { length bytes.new ≡ length bytes.old }
    ensures told { (cells : Row) → Begins schema.now (Some cells) bytes.old
        → Begins schema.now (Some (slice_set cells i cell.now)) bytes.new }
{
    let kind = kind_at(schema, i);
    let (_, rest) = bytes.split_at_mut(offset(schema, i));
    let (field, _) = rest.split_at_mut(kind_width(kind));
    put_cell(kind, cell, field);
}

/// Writes the cell at place `i` of a row anew.
pub fn set_cell(schema: &Schema, i: u8, cell: &Cell, row: &mut ClearRow)
    requires wide { width schema.now ≤ length row.old }
    requires within { i < length schema.now }
    requires fits { FitsKind (kind_at schema.now i) cell.now }
    ensures size { length row.new ≡ length row.old }
    ensures told { (cells : Row) → Begins schema.now (Some cells) row.old
        → Begins schema.now (Some (slice_set cells i cell.now)) row.new }
{
    set_field(schema, i, cell, row.bytes_mut());
}
