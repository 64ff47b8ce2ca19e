//! The cells of a row.
ghost use Rattle.std.specs.Prelude.{◌≡◌, ◌++◌, IfSome, OnOk, IfOk};
ghost use Rattle.std.specs.Int.{is_in_range};
ghost use Rattle.std.specs.List.{list_all};
ghost use Rattle.ob_row.specs.Spelling.{FitsText, FitsKind, FitsColumns};
ghost use Rattle.ob_row.specs.Rows.{Row};
ghost use Rattle.ob_mutate.specs.Changing.{FitsSets};

use crate::stop::Stop;
use crate::words::{Words, place_of};
use ob_base::{Column, Kind, Schema, Text};
use ob_row::Cell;
use std::alloc::Global;

fn is_printable(text: &[u8]) -> bool
    ensures { result ≡ list_all (is_in_range 0x20 0x7E) text.now }
{
    text.iter().all(|b| 0x20 <= *b && *b <= 0x7e)
}

// The text between quotes, of at most so many bytes.
fn text_of(n: u8, word: &str) -> Option<Text>
    ensures { IfSome result (FitsText n) }
{
    let word = word.strip_prefix('\'')?.strip_suffix('\'')?;
    let text = word.as_bytes();
    if text.len() > usize::from(n) || !is_printable(text) {
        return None;
    }
    Some(Text::from_bytes(text))
}

/// A cell of this kind.
fn cell_of(kind: Kind, word: &str) -> Option<Cell>
    ensures { IfSome result (FitsKind kind) }
{
    match kind {
        Kind::Int => Some(Cell::Int(word.parse::<i64>().ok()?)),
        Kind::Varchar(n) => Some(Cell::Text(text_of(n, word)?)),
    }
}

// Adds the cells of these columns.
fn push_cells(columns: &[Column], words: &mut Words<'_>, cells: &mut Vec<Cell>) -> Result<(), Stop>
    ensures { OnOk result ((row : Row) × (cells.new.items ≡ cells.old.items ++ row)
        × FitsColumns columns.now row) }
{
    let Some((column, columns)) = columns.split_first() else {
        return Ok(());
    };
    let Some(cell) = cell_of(column.kind, words.next().unwrap_or("")) else {
        return Err(Stop::Unread);
    };
    match cells.push(cell) {
        Ok(()) => push_cells(columns, words, cells),
        Err(_) => Err(Stop::Memory),
    }
}

/// The cells of a row of these columns.
pub(crate) fn cells_of(
    alloc: Global,
    schema: &Schema,
    words: &mut Words<'_>,
) -> Result<Vec<Cell>, Stop>
    ensures { IfOk result (λ cells. FitsColumns schema.now cells.items) }
{
    let mut cells = Vec::new(alloc);
    match push_cells(schema.as_slice(), words, &mut cells) {
        Ok(()) => Ok(cells),
        Err(stop) => Err(stop),
    }
}

/// A column's place, and a cell for it.
pub(crate) fn set_of(schema: &Schema, words: &mut Words<'_>) -> Option<[(u8, Cell); 1]>
    ensures { IfSome result (λ sets. FitsSets schema.now sets) }
{
    let place = place_of(schema, words.next()?)?;
    let column = &schema.as_slice()[usize::from(place)];
    let cell = cell_of(column.kind, words.next()?)?;
    Some([(place, cell)])
}
