//! The words of a line.
ghost use Rattle.std.specs.Prelude.{◌<◌, IfSome, length};

use ob_base::{ComparisonOperator, Schema};
use ob_row::{Cell, Operand, Pred};
use std::str::SplitAsciiWhitespace;

/// The words of a line after its first.
pub(crate) type Words<'a> = SplitAsciiWhitespace<'a>;

/// The first word of a line.
pub(crate) fn head(line: &str) -> &str {
    line.split_ascii_whitespace().next().unwrap_or("")
}

/// The next word, as a number.
pub(crate) fn number(words: &mut Words<'_>) -> Option<u32> {
    words.next()?.parse::<u32>().ok()
}

/// The place of the column of this name.
pub(crate) fn place_of(schema: &Schema, name: &str) -> Option<u8>
    ensures { IfSome result (λ place. place < length schema.now) }
{
    let columns = schema.as_slice();
    for i in 0..columns.len() {
        if columns[i].name.as_bytes() == name.as_bytes() {
            return Some(i as u8);
        }
    }
    None
}

fn operator(word: &str) -> Option<ComparisonOperator> {
    match word {
        "=" => Some(ComparisonOperator::Equal),
        ">=" => Some(ComparisonOperator::GreaterOrEqual),
        _ => None,
    }
}

/// What of a line stands before its condition, and the condition, or one that each row makes true.
pub(crate) fn parted<'a>(line: &'a str, schema: &Schema) -> Option<(Words<'a>, Pred)> {
    let Some((line, condition)) = line.split_once(" where ") else {
        return Some((line.split_ascii_whitespace(), Pred::all()));
    };
    let mut words = condition.split_ascii_whitespace();
    let place = place_of(schema, words.next()?)?;
    let order = operator(words.next()?)?;
    let cell = Cell::Int(words.next()?.parse::<i64>().ok()?);
    let pred = Pred::compare(place, order, Operand::Cell(cell));
    Some((line.split_ascii_whitespace(), pred))
}
