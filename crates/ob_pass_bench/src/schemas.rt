//! The columns of the tables: two numbers, and as many texts as fill the width.
ghost use Rattle.std.specs.Prelude.{◌≡◌, ◌≤◌, ◌+◌, ◌++◌, ℕ, IfSome, IfOk, OnOk, length};
ghost use Rattle.ob_base.specs.Schemas.{width};
ghost use Rattle.ob_row.specs.Spelling.{FitsKind, FitsText, FitsColumns};
ghost use Rattle.ob_row.specs.Rows.{Row};
ghost use Rattle.ob_pass_bench.specs.Tables.{HasColumns, AreColumns};

use ob_base::{Column, Kind, Name, NoMemory, Schema, Text};
use ob_row::Cell;
use std::alloc::Global;

// A column of this kind.
fn column(name: &[u8], kind: Kind, key: bool) -> Column
    requires { length name.now ≤ 32 }
    ensures { result.kind ≡ kind }
{
    Column {
        table: Name::from_bytes(b"t"),
        name: Name::from_bytes(name),
        kind,
        key,
    }
}

/// The name of a column of sixteen numbers, and that of one of scattered numbers, each in one row.
pub(crate) const FEW: &[u8] = b"v";

pub(crate) const SCATTERED: &[u8] = b"u";

// A key, and beside it numbers in a column of this name.
fn two_numbers(second: &[u8]) -> Schema
    requires { length second.now ≤ 32 }
    ensures { HasColumns 2 17 result }
{
    let mut schema = Schema::new();
    schema.push(column(b"id", Kind::Int, true));
    schema.push(column(second, Kind::Int, false));
    schema
}

// The columns of two tables of two numbers that are joined.
fn four_numbers(second: &[u8]) -> Schema
    requires { length second.now ≤ 32 }
    ensures { HasColumns 4 33 result }
{
    with_number(with_number(two_numbers(second), b"k"), b"w")
}

// The same columns, and one of numbers.
fn with_number(mut schema: Schema, name: &[u8]) -> Schema
    requires few { length schema ≤ 5 }
    requires name { length name.now ≤ 32 }
    ensures { (count width : ℕ) → HasColumns count width schema
        → HasColumns (count + 1) (width + 8) result }
{
    schema.push(column(name, Kind::Int, false));
    schema
}

// The same columns, and one of texts of at most so many bytes.
fn with_text(mut schema: Schema, n: u8) -> Schema
    requires few { length schema ≤ 5 }
    ensures { (count width : ℕ) → HasColumns count width schema
        → HasColumns (count + 1) (width + (n + 1)) result }
{
    schema.push(column(b"s", Kind::Varchar(n), false));
    schema
}

// Two numbers, and three of the longest texts, and one of so many bytes.
fn with_texts(second: &[u8], n: u8) -> Schema
    requires { length second.now ≤ 32 }
    ensures { HasColumns 6 (786 + n) result }
{
    let schema = with_text(two_numbers(second), 255);
    let schema = with_text(schema, 255);
    let schema = with_text(schema, 255);
    with_text(schema, n)
}

/// The columns of a table whose rows have so many bytes, for the widths that are measured; the second of them
/// has this name.
pub(crate) fn schema_of(bytes: u32, second: &[u8]) -> Option<Schema>
    requires { length second.now ≤ 32 }
    ensures columns { IfSome result AreColumns }
    ensures wide { IfSome result (λ schema. width schema ≡ bytes) }
{
    match bytes {
        17 => Some(two_numbers(second)),
        33 => Some(four_numbers(second)),
        128 => Some(with_text(two_numbers(second), 110)),
        1008 => Some(with_texts(second, 222)),
        1024 => Some(with_texts(second, 238)),
        _ => None,
    }
}

// A text of so many bytes.
fn text_of(n: u8) -> Text
    ensures { FitsText n result }
{
    let bytes = [b'x'; 255];
    Text::from_bytes(&bytes[..usize::from(n)])
}

// A number of its own for each index below 65,536, in no order.
fn scattered(i: u32) -> u32 {
    i.wrapping_mul(40_503) % 65_536
}

// What stands in a column of the row of this index.
fn sample_cell(column: &Column, i: u32) -> Cell
    ensures { FitsKind column.now.kind result }
{
    match column.kind {
        Kind::Int if column.key => Cell::Int(i64::from(i)),
        Kind::Int if column.name.as_bytes() == SCATTERED => Cell::Int(i64::from(scattered(i))),
        Kind::Int => Cell::Int(i64::from(i % 16)),
        Kind::Varchar(n) => Cell::Text(text_of(n)),
    }
}

// Adds the cells of these columns.
fn push_cells(columns: &[Column], i: u32, cells: &mut Vec<Cell>) -> Result<(), NoMemory>
    ensures { OnOk result ((row : Row) × (cells.new.items ≡ cells.old.items ++ row)
        × FitsColumns columns.now row) }
{
    match columns.split_first() {
        None => Ok(()),
        Some((column, columns)) => match cells.push(sample_cell(column, i)) {
            Ok(()) => push_cells(columns, i, cells),
            Err(_) => Err(NoMemory),
        },
    }
}

/// The cells of the row of this index.
pub(crate) fn cells_of(alloc: Global, schema: &Schema, i: u32) -> Result<Vec<Cell>, NoMemory>
    ensures { IfOk result (λ cells. FitsColumns schema.now cells.items) }
{
    let mut cells = Vec::new(alloc);
    match push_cells(schema.as_slice(), i, &mut cells) {
        Ok(()) => Ok(cells),
        Err(e) => Err(e),
    }
}
