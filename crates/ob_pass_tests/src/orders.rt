//! Places of rows in order of a field of theirs, and which row is found by it.
ghost use Rattle.std.specs.Prelude.{◌≡◌, ◌≤◌, length};

use crate::stop::Stop;
use crate::words::{Words, number};
use ob_order::Order;
use ob_room::{ClearRow, RowBuffer};
use std::alloc::Global;

/// The mark of a row, and a field of two bytes.
type Marked = [u8; 3];

// Writes a mark and a field of two bytes.
fn spell(row: &mut ClearRow, given: &Marked)
    ensures { length row.new ≡ length row.old }
{
    let bytes = row.bytes_mut();
    if bytes.len() == 3 {
        bytes.copy_from_slice(given);
    }
}

fn spell_all(rows: &mut [ClearRow], given: &[Marked])
    ensures { length rows.new ≡ length rows.old }
{
    for i in 0..rows.len() {
        if i < given.len() {
            spell(&mut rows[i], &given[i]);
        }
    }
}

// The bytes of a field, which a point parts.
fn field_of(word: &str) -> Option<[u8; 2]> {
    let (first, second) = word.split_once('.')?;
    Some([first.parse::<u8>().ok()?, second.parse::<u8>().ok()?])
}

// A mark and a field after it.
fn marked_of(word: &str) -> Option<Marked> {
    let (mark, field) = word.split_once('.')?;
    let [first, second] = field_of(field)?;
    Some([mark.parse::<u8>().ok()?, first, second])
}

// The rows that words spell.
fn rows_of(alloc: Global, words: Words<'_>) -> Result<Vec<Marked>, Stop> {
    let mut rows = Vec::new(alloc);
    for word in words {
        let Some(row) = marked_of(word) else {
            return Err(Stop::Unread);
        };
        if rows.push(row).is_err() {
            return Err(Stop::Memory);
        }
    }
    Ok(rows)
}

// The first row that is found by the field that a line names.
fn found(alloc: Global, rows: &[ClearRow], line: &str) -> Result<Option<u32>, Stop>
    requires { length rows.now ≤ 16 }
{
    let Ok(mut order) = Order::new(alloc, 16) else {
        return Err(Stop::Memory);
    };
    let mut words = line.split_ascii_whitespace();
    let operation = words.next().unwrap_or("");
    let Some(field) = field_of(words.next().unwrap_or("")) else {
        return Err(Stop::Unread);
    };
    if operation == "listed" {
        order.list(rows, 1, 2);
        return Ok(order.first_row(rows, 1, &field));
    }
    order.add(number(&mut words).ok_or(Stop::Unread)?);
    order.add(number(&mut words).ok_or(Stop::Unread)?);
    order.sort(rows, 1, 2);
    Ok(order.find(rows, 1, &field))
}

// Writes after each line the place of the row that it finds.
fn find_all(
    alloc: Global,
    out: &mut String,
    rows: &[ClearRow],
    lines: &[String],
) -> Result<(), Stop>
    requires { length rows.now ≤ 16 }
{
    for line in lines {
        write!(out, "\n{line} -> ")?;
        match found(alloc, rows, line.as_str())? {
            Some(place) => write!(out, "{place}")?,
            None => out.push_str("none")?,
        }
    }
    Ok(())
}

// The same, of these rows.
fn find_given(
    alloc: Global,
    out: &mut String,
    given: &[Marked],
    lines: &[String],
) -> Result<(), Stop> {
    let Ok(mut room) = RowBuffer::new(alloc, 16, 3, 1) else {
        return Err(Stop::Memory);
    };
    let rows = room.open(given.len().min(16) as u32);
    spell_all(rows, given);
    find_all(alloc, out, rows, lines)
}

/// Writes after each line but the first, which spells the rows, the place of the row that it finds.
pub(crate) fn find_rows(alloc: Global, out: &mut String, lines: &[String]) -> Result<(), Stop> {
    let Some((line, lines)) = lines.split_first() else {
        return Err(Stop::Unread);
    };
    out.push_str(line.as_str())?;
    let mut words = line.split_ascii_whitespace();
    let _head = words.next();
    let given = rows_of(alloc, words)?;
    find_given(alloc, out, given.as_slice(), lines)
}
