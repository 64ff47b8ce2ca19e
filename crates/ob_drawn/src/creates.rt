//! CREATE.
use crate::draws::Draws;
use crate::pen::Pen;
use crate::settings::Kind;
use crate::tables::{Column, Table};
use std::alloc::{AllocError, Global};

const NAMES: [&str; 8] = ["id", "v", "w", "name", "city", "total", "k1", "_x"];

/// As often a name is drawn anew that another column has.
const TRIES: u32 = 64;

// A name for one more column, seldom one that another has.
fn column_name(draws: &mut Draws, columns: &[Column]) -> &'static str {
    let mut name = draws.one(&NAMES);
    let mut is_free = draws.chance(3);
    for _ in 0..TRIES {
        if is_free {
            return name;
        }
        name = draws.one(&NAMES);
        is_free = true;
        for column in columns {
            is_free = is_free && column.name != name;
        }
    }
    name
}

// Writes a column without its key, and gives whether it is a number's.
fn put_column(draws: &mut Draws, name: &str, is_number: bool, to: &mut Pen) -> bool {
    to.put(name);
    if is_number || draws.chance(75) {
        let word = draws.one(&["INT", "INT", "INTEGER"]);
        draws.keyword(to, word);
        return true;
    }
    to.put(draws.one(&[" VARCHAR(1)", " VARCHAR(4)", " VARCHAR(12)", " VARCHAR(20)"]));
    false
}

// Writes the columns of a table in parentheses, seldom a key twice, and gives them.
fn put_columns(
    alloc: Global,
    draws: &mut Draws,
    is_indexed: bool,
    to: &mut Pen,
) -> Result<Vec<Column>, AllocError> {
    let mut columns = Vec::new(alloc);
    let has_key = is_indexed && draws.chance(92);
    let count = match draws.below(6) {
        0 => 1,
        1 | 2 => 2,
        3 | 4 => 3,
        _ => 4,
    };
    for i in 0..count {
        to.put(if i == 0 { " (" } else { ", " });
        let name = column_name(draws, columns.as_slice());
        let is_number = put_column(draws, name, has_key && i == 0, to);
        let is_key = i == 0 && (has_key || draws.chance(75)) || draws.chance(1);
        if is_key {
            draws.keyword(to, "PRIMARY KEY");
            to.put(draws.one(&["", " NOT NULL"]));
            to.put(if draws.chance(1) { " PRIMARY KEY" } else { "" });
        }
        columns.push(Column {
            name,
            is_number,
            is_key,
            is_indexed,
        })?;
    }
    to.put(")");
    Ok(columns)
}

/// Writes a CREATE, seldom with a capacity that no table has, and gives the table.
pub fn create(alloc: Global, draws: &mut Draws, to: &mut Pen) -> Result<Table, AllocError> {
    let is_indexed = matches!(draws.kind, Kind::Indexed) && draws.chance(75);
    let (said, name) = match draws.below(4) {
        0 => (" t", "t"),
        1 => (" u", "u"),
        2 => (" s", "s"),
        _ => (" T", "t"),
    };
    draws.keyword(to, "CREATE TABLE");
    to.put(said);
    let columns = put_columns(alloc, draws, is_indexed, to)?;
    draws.keyword(to, "CAPACITY");
    to.put(if draws.chance(3) {
        draws.one(&[" 0", " 1048577"])
    } else {
        draws.one(&[" 1", " 2", " 5", " 8", " 12", " 16", " 24"])
    });
    if is_indexed {
        draws.keyword(to, "INDEXED");
    }
    to.put(";");
    Ok(Table { name, columns })
}
