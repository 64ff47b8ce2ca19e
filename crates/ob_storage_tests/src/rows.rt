//! Rows as bytes.
ghost use Rattle.std.specs.Prelude.{◌≡◌, ◌≤◌, length};
ghost use Rattle.ob_base.specs.Schemas.{width};

use crate::bytes::{parted, spelled_by};
use ob_base::{Column, ComparisonOperator, Kind, Name, Schema, Text};
use ob_room::{ClearRow, RowBuffer};
use ob_row::{Cell, Operand, Pred, decode, holds, is_dummy, read as read_row, width};
use std::alloc::{AllocError, Global};

// A column of integers, or of texts of so many bytes.
fn column(size: &str) -> Column {
    let kind = match size {
        "int" => Kind::Int,
        _ => Kind::Varchar(size.parse().unwrap_or(0)),
    };
    Column {
        table: Name::from_bytes(b"t"),
        name: Name::from_bytes(b"c"),
        kind,
        key: false,
    }
}

// The columns that a word spells, parted by commas, of which it counts at most 32.
fn schema_of(word: &str) -> Schema {
    let mut schema = Schema::new();
    for size in word.split(',') {
        if schema.as_slice().len() < 32 {
            schema.push(column(size));
        }
    }
    schema
}

// A condition that each row makes true whose first cell is an integer, and whose second a text.
fn any(alloc: Global) -> Result<Pred, AllocError> {
    let text = Pred::compare(
        1,
        ComparisonOperator::Less,
        Operand::Cell(Cell::Text(Text::from_bytes(b"abc"))),
    );
    let number = Pred::compare(0, ComparisonOperator::Greater, Operand::Cell(Cell::Int(-1)));
    let both = Pred::and(alloc, text, Pred::not(alloc, number)?)?;
    Pred::or(alloc, both, Pred::all())
}

// Writes a cell.
fn put_value(out: &mut String, cell: &Cell) -> Result<(), AllocError> {
    match cell {
        Cell::Int(value) => write!(out, ", {value}"),
        Cell::Text(text) => match str::from_utf8(text.as_bytes()) {
            Ok(text) => write!(out, ", <{text}>"),
            Err(_) => out.push_str(", no text"),
        },
    }
}

// Writes a cell of a row.
fn put_cell(out: &mut String, schema: &Schema, row: &ClearRow, i: u8) -> Result<(), AllocError>
    requires wide { width schema.now ≤ length row.now }
{
    if usize::from(i) >= schema.as_slice().len() {
        return Ok(());
    }
    match decode(schema, row, i) {
        Err(_) => out.push_str(", malformed"),
        Ok(cell) => put_value(out, &cell),
    }
}

// Writes whether the bytes are a row.
fn put_kind(out: &mut String, schema: &Schema, row: &ClearRow) -> Result<(), AllocError>
    requires wide { width schema.now ≤ length row.now }
{
    if is_dummy(row) {
        out.push_str(", zeros")?;
    }
    match read_row(schema, row) {
        Ok(true) => out.push_str(", a row"),
        Ok(false) => out.push_str(", no row"),
        Err(_) => out.push_str(", no row and no dummy"),
    }
}

// Writes whether a condition selects the row.
fn put_selected(
    out: &mut String,
    pred: &Pred,
    schema: &Schema,
    row: &ClearRow,
) -> Result<(), AllocError>
    requires wide { width schema.now ≤ length row.now }
{
    match holds(pred, schema, row) {
        Ok(true) => out.push_str(", selected"),
        Ok(false) => out.push_str(", not selected"),
        Err(_) => out.push_str(", malformed"),
    }
}

// Writes what a row is read as.
fn put_row(
    alloc: Global,
    out: &mut String,
    schema: &Schema,
    row: &ClearRow,
) -> Result<(), AllocError> {
    let width = width(schema);
    write!(out, "width {width}")?;
    if row.bytes().len() < width as usize {
        return out.push_str(", too short");
    }
    put_kind(out, schema, row)?;
    put_cell(out, schema, row, 0)?;
    put_cell(out, schema, row, 1)?;
    put_selected(out, &any(alloc)?, schema, row)
}

// Writes these bytes into a row.
fn fill(row: &mut ClearRow, bytes: &[u8])
    requires { length row.old ≡ length bytes.now }
{
    row.bytes_mut().copy_from_slice(bytes);
}

// Writes what a row with these bytes is read as.
fn put_filled(
    alloc: Global,
    out: &mut String,
    schema: &Schema,
    bytes: &[u8],
    row: &mut ClearRow,
) -> Result<(), AllocError>
    requires { length row.old ≡ length bytes.now }
{
    fill(row, bytes);
    put_row(alloc, out, schema, row)
}

/// Writes what the bytes after the columns are read as.
pub fn read(alloc: Global, out: &mut String, text: &str) -> Result<(), AllocError> {
    let (columns, text) = parted(text);
    let schema = schema_of(columns);
    let bytes = spelled_by(alloc, text)?;
    if bytes.len() > 1_024 {
        return Err(AllocError);
    }
    let Ok(mut room) = RowBuffer::new(alloc, 1, bytes.len() as u32, 1) else {
        return Err(AllocError);
    };
    let rows = room.open(1);
    put_filled(alloc, out, &schema, bytes.as_slice(), &mut rows[0])
}
