//! INSERT, UPDATE and DELETE.
use crate::conditions::filter;
use crate::draws::Draws;
use crate::pen::Pen;
use crate::settings::Kind;
use crate::tables::{Column, Tables};
use crate::values::literal;

// Writes the names of columns in this order, or a value for each, parted by commas.
fn put_columns(
    draws: &mut Draws,
    columns: &[Column],
    order: &[usize],
    are_names: bool,
    to: &mut Pen,
) {
    for (i, place) in order.iter().enumerate() {
        if let Some(column) = columns.get(*place) {
            to.put(if i == 0 { " (" } else { ", " });
            if are_names {
                to.put(column.name);
            } else {
                literal(draws, column.is_number, to);
            }
        }
    }
}

/// Writes an INSERT, seldom with a value more than columns.
pub fn insert(draws: &mut Draws, tables: &Tables, to: &mut Pen) {
    draws.stays = matches!(draws.kind, Kind::Batched) && draws.chance(90);
    let name = tables.drawn(draws);
    draws.stays = false;
    let columns = tables.columns(name);
    draws.keyword(to, "INSERT INTO");
    to.put(" ");
    to.put(name);
    let mut order = [0, 1, 2, 3];
    if draws.chance(30) {
        order = draws.order(columns.len());
        put_columns(draws, columns, &order, true, to);
        to.put(")");
    }
    draws.keyword(to, "VALUES");
    put_columns(draws, columns, &order, false, to);
    to.put(if draws.chance(3) { ", 1);" } else { ");" });
}

/// Writes an UPDATE of one column or two, seldom of a key, and tells whether there is any column to be set.
pub fn update(draws: &mut Draws, tables: &Tables, to: &mut Pen) -> bool {
    let name = tables.drawn(draws);
    let columns = tables.columns(name);
    let order = draws.order(columns.len());
    let is_key_set = draws.chance(5);
    let most = draws.up_to(2);
    let mut count: usize = 0;
    for place in order {
        match columns.get(place) {
            Some(column) if count < most && (!column.is_key || is_key_set) => {
                if count == 0 {
                    draws.keyword(to, "UPDATE");
                    to.put(" ");
                    to.put(name);
                    draws.keyword(to, "SET");
                }
                to.put(if count == 0 { " " } else { ", " });
                to.put(column.name);
                to.put(" = ");
                literal(draws, column.is_number, to);
                count = count.saturating_add(1);
            }
            _ => {}
        }
    }
    if count > 0 {
        filter(draws, tables, &[name], 70, to);
        to.put(";");
    }
    count > 0
}

/// Writes a DELETE.
pub fn delete(draws: &mut Draws, tables: &Tables, to: &mut Pen) {
    let name = tables.drawn(draws);
    draws.keyword(to, "DELETE FROM");
    to.put(" ");
    to.put(name);
    filter(draws, tables, &[name], 85, to);
    to.put(";");
}
