//! SELECT. Beside its text its header is written.
use crate::conditions::{Named, filter, name_column};
use crate::draws::Draws;
use crate::pen::Pen;
use crate::tables::{Column, Tables};

// Writes the label of a column into a header, with what stands before it and behind it.
fn put_label(head: &mut Pen, front: &str, mark: &str, column: &str, end: &str) {
    let is_first = head.bytes().is_empty();
    head.put(if is_first { "\"" } else { ",\"" });
    head.put(front);
    head.put(mark);
    head.put(column);
    head.put(end);
    head.put("\"");
}

// The first of these tables that has a column of this name, or the first of all.
fn home(tables: &Tables, scope: &[&'static str], name: &str) -> &'static str {
    match scope {
        [left, right] if !tables.has(left, name) && tables.has(right, name) => right,
        [left, ..] => left,
        [] => "",
    }
}

// Writes one to three columns with their labels: after a join a label has the column's table.
fn put_list(
    draws: &mut Draws,
    tables: &Tables,
    scope: &[&'static str],
    text: &mut Pen,
    head: &mut Pen,
) {
    for i in 0..draws.up_to(3) {
        text.put(if i == 0 { " " } else { ", " });
        let column = name_column(draws, tables, scope);
        column.put(text);
        if scope.len() > 1 {
            let table = match column.table {
                Some(table) => table,
                None => home(tables, scope, column.column),
            };
            put_label(head, table, ".", column.column, "");
        } else {
            put_label(head, "", "", column.column, "");
        }
    }
}

// Writes `*`, with the labels of all columns.
fn put_all(tables: &Tables, scope: &[&'static str], text: &mut Pen, head: &mut Pen) {
    text.put(" *");
    for table in scope {
        for column in tables.columns(table) {
            if scope.len() > 1 {
                put_label(head, table, ".", column.name, "");
            } else {
                put_label(head, "", "", column.name, "");
            }
        }
    }
}

// Writes that two columns are equal.
fn put_sides(left: &str, column: Column, right: &str, other: Column, text: &mut Pen) {
    text.put(" ");
    text.put(left);
    text.put(".");
    text.put(column.name);
    text.put(" = ");
    text.put(right);
    text.put(".");
    text.put(other.name);
}

// Writes the columns by which two tables are joined: the key of the left one, if it has any, and any of the other.
fn put_on(
    draws: &mut Draws,
    tables: &Tables,
    left: &'static str,
    right: &'static str,
    text: &mut Pen,
) {
    let key = match tables.key(left) {
        Some(key) => key,
        None => tables.column(draws, left),
    };
    let other = tables.column(draws, right);
    draws.keyword(text, "ON");
    if draws.chance(30) {
        put_sides(right, other, left, key, text);
    } else {
        put_sides(left, key, right, other, text);
    }
}

/// Writes a SELECT of rows of a table or of a join, which seldom is of a table with itself.
pub fn rows(draws: &mut Draws, tables: &Tables, joins: bool, text: &mut Pen, head: &mut Pen) {
    let left = tables.drawn(draws);
    let right = tables.drawn(draws);
    let is_joined = joins && (left != right || draws.chance(5));
    let both = [left, right];
    let scope = both.get(..if is_joined { 2 } else { 1 }).unwrap_or(&[]);
    draws.keyword(text, "SELECT");
    if draws.chance(if is_joined { 40 } else { 30 }) {
        put_all(tables, scope, text, head);
    } else {
        put_list(draws, tables, scope, text, head);
    }
    draws.keyword(text, "FROM");
    text.put(" ");
    text.put(left);
    if is_joined {
        let word = draws.one(&["JOIN", "INNER JOIN"]);
        draws.keyword(text, word);
        text.put(" ");
        text.put(right);
        put_on(draws, tables, left, right, text);
    }
    filter(draws, tables, scope, if is_joined { 50 } else { 70 }, text);
    text.put(";");
}

// Writes an aggregate and its label.
fn put_aggregate(
    draws: &mut Draws,
    tables: &Tables,
    name: &'static str,
    text: &mut Pen,
    head: &mut Pen,
) {
    let column = name_column(draws, tables, &[name]);
    if draws.chance(20) {
        draws.keyword(text, "COUNT");
        text.put("(*)");
        return put_label(head, "COUNT", "(", "*", ")");
    }
    // (of a text there is only a count)
    let drawn = draws.one(&["COUNT", "SUM", "MIN", "MAX"]);
    let is_any = column.is_number || draws.chance(5);
    let word = if is_any { drawn } else { "COUNT" };
    draws.keyword(text, word);
    text.put("(");
    column.put(text);
    text.put(")");
    put_label(head, word, "(", column.column, ")");
}

/// Writes a SELECT of one to three aggregates, of all rows or of groups, whose key stands at any place.
pub fn totals(
    draws: &mut Draws,
    tables: &Tables,
    has_groups: bool,
    text: &mut Pen,
    head: &mut Pen,
) {
    let name = tables.drawn(draws);
    let key = name_column(draws, tables, &[name]);
    let count = draws.up_to(3);
    let place = draws.below(count);
    draws.keyword(text, "SELECT");
    for i in 0..count {
        text.put(if i == 0 { "" } else { "," });
        if has_groups && i == place {
            text.put(" ");
            key.put(text);
            put_label(head, "", "", key.column, "");
        } else {
            put_aggregate(draws, tables, name, text, head);
        }
    }
    draws.keyword(text, "FROM");
    text.put(" ");
    text.put(name);
    filter(draws, tables, &[name], 45, text);
    if has_groups {
        draws.keyword(text, "GROUP BY");
        text.put(" ");
        key.put(text);
    }
    text.put(";");
}
