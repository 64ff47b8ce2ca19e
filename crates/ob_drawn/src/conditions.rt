//! Columns and conditions.
use crate::draws::Draws;
use crate::pen::Pen;
use crate::tables::Tables;
use crate::values::{integer, literal};

/// So deep a condition is at most.
const DEPTH: u32 = 3;

/// A column as a statement names it, with its table or without.
#[derive(Clone, Copy)]
pub struct Named {
    pub table: Option<&'static str>,
    pub column: &'static str,
    pub is_number: bool,
}

impl Named {
    /// Writes it.
    pub fn put(self, to: &mut Pen) {
        if let Some(table) = self.table {
            to.put(table);
            to.put(".");
        }
        to.put(self.column);
    }
}

/// A column of these tables, seldom one that they don't have.
pub fn name_column(draws: &mut Draws, tables: &Tables, scope: &[&'static str]) -> Named {
    let name = draws.one(scope);
    let column = tables.column(draws, name);
    let has_table = draws.chance(30) || scope.len() > 1 && draws.chance(80);
    let (table, column_name) = match draws.below(150) {
        0 => (None, "none"),
        1 => (Some(name), "none"),
        2 => (Some("zz"), column.name),
        _ if has_table => (Some(name), column.name),
        _ => (None, column.name),
    };
    Named {
        table,
        column: column_name,
        is_number: column.is_number,
    }
}

// Writes a comparison of a column, with a literal or with another column.
fn comparison(draws: &mut Draws, tables: &Tables, scope: &[&'static str], to: &mut Pen) {
    let column = name_column(draws, tables, scope);
    to.put(" ");
    column.put(to);
    to.put(draws.one(&[" = ", " <> ", " != ", " < ", " <= ", " > ", " >= ", "="]));
    if draws.chance(80) {
        literal(draws, column.is_number, to);
    } else {
        name_column(draws, tables, scope).put(to);
    }
}

// Writes a condition of this depth at most.
fn condition(draws: &mut Draws, tables: &Tables, scope: &[&'static str], depth: u32, to: &mut Pen) {
    if depth == 0 || draws.chance(45) {
        return comparison(draws, tables, scope, to);
    }
    let form = draws.below(4);
    if form < 2 {
        let is_closed = form == 0 || draws.chance(50);
        if form == 1 {
            draws.keyword(to, "NOT");
        }
        to.put(if is_closed { " (" } else { "" });
        condition(draws, tables, scope, depth - 1, to);
        to.put(if is_closed { ")" } else { "" });
    } else {
        condition(draws, tables, scope, depth - 1, to);
        draws.keyword(to, if form == 2 { "AND" } else { "OR" });
        condition(draws, tables, scope, depth - 1, to);
    }
}

// Writes that a key is some integer.
fn by_key(draws: &mut Draws, table: &str, key: &str, to: &mut Pen) {
    let is_closed = draws.chance(10);
    to.put(if is_closed { " (" } else { " " });
    if draws.chance(20) {
        to.put(table);
        to.put(".");
    }
    to.put(key);
    to.put(" = ");
    integer(draws, to);
    to.put(if is_closed { ")" } else { "" });
}

/// Writes a WHERE: of an index mostly one that asks for its key, and else one in so many of a hundred cases.
pub fn filter(
    draws: &mut Draws,
    tables: &Tables,
    scope: &[&'static str],
    percent: usize,
    to: &mut Pen,
) {
    let is_by_key = scope.len() == 1 && draws.chance(85);
    let name = scope.first().copied().unwrap_or("");
    match tables.key(name) {
        Some(key) if key.is_indexed && is_by_key => {
            draws.keyword(to, "WHERE");
            by_key(draws, name, key.name, to);
        }
        _ if draws.chance(percent) => {
            draws.keyword(to, "WHERE");
            condition(draws, tables, scope, DEPTH, to);
        }
        _ => {}
    }
}
