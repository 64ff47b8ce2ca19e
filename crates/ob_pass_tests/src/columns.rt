//! The columns of a table.
use crate::words::Words;
use ob_base::{Column, Kind, Name, Schema};

/// The longest text of a column of texts.
const LONGEST: u8 = 4;

// A column of the table `t`, from its name and its kind.
fn column(word: &str) -> Option<Column> {
    let (name, kind) = word.split_once(':')?;
    if name.len() > 32 {
        return None;
    }
    let (kind, key) = match kind {
        "key" => (Kind::Int, true),
        "int" => (Kind::Int, false),
        "text" => (Kind::Varchar(LONGEST), false),
        _ => return None,
    };
    Some(Column {
        table: Name::from_bytes(b"t"),
        name: Name::from_bytes(name.as_bytes()),
        kind,
        key,
    })
}

/// The columns that words name.
pub(crate) fn schema_of(words: Words<'_>) -> Option<Schema> {
    let mut schema = Schema::new();
    for word in words {
        if schema.as_slice().len() >= 32 {
            return None;
        }
        schema.push(column(word)?);
    }
    Some(schema)
}
