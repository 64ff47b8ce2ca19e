//! GROUP BY.
ghost use Rattle.std.specs.Prelude.{◌≡◌, ◌++◌, ◌∷◌, not, filter, map, IfOk, OnOk};
ghost use Rattle.ob_row.specs.Rows.{agree_at};
ghost use Rattle.ob_row.specs.Totals.{group_heads, group_of, item_shown, grouped};
ghost use Rattle.ob_names.specs.Names.{columns_in};
ghost use Rattle.ob_mean.specs.Step.{item_of};

use crate::copies::{add_rows, copied};
use crate::printed::shown_at;
use crate::tables::Tuple;
use crate::totals::total;
use crate::truth::agree_at;
use ob_base::{Items, NoMemory, Shown};
use ob_mean::item_in;
use ob_names::Scope;
use ob_row::{Cell, Item};
use ob_sql::Listed;
use std::alloc::Global;

// Takes the rows away that have the key of this row.
fn drop_group(key: usize, row: &Tuple, rows: &mut Vec<Tuple>)
    ensures { rows.new.items ≡ filter (λ y. not (agree_at key key row.now y)) rows.old.items }
{
    rows.retain(|other| !agree_at(key, key, row.as_slice(), other.as_slice()));
}

// Keeps the rows that have the key of this row.
fn keep_group(key: usize, row: &Tuple, rows: &mut Vec<Tuple>)
    ensures { rows.new.items ≡ filter (agree_at key key row.now) rows.old.items }
{
    rows.retain(|other| agree_at(key, key, row.as_slice(), other.as_slice()));
}

fn put_first(row: Tuple, rows: &mut Vec<Tuple>) -> Result<(), NoMemory>
    ensures { OnOk result (rows.new.items ≡ row ∷ rows.old.items) }
{
    match rows.insert(0, row) {
        Err(_) => Err(NoMemory),
        Ok(()) => Ok(()),
    }
}

/// The first row of each group.
pub(crate) fn group_heads(alloc: Global, key: usize, rows: &[Tuple]) -> Result<Vec<Tuple>, NoMemory>
    ensures { IfOk result (λ heads. heads.items ≡ group_heads key rows.now) }
{
    match rows.split_first() {
        None => Ok(Vec::new(alloc)),
        Some((row, rows)) => match group_heads(alloc, key, rows) {
            Err(_) => Err(NoMemory),
            Ok(mut heads) => {
                drop_group(key, row, &mut heads);
                match copied(alloc, row) {
                    Err(_) => Err(NoMemory),
                    Ok(copy) => match put_first(copy, &mut heads) {
                        Err(_) => Err(NoMemory),
                        Ok(()) => Ok(heads),
                    },
                }
            }
        },
    }
}

fn group_of(alloc: Global, key: usize, row: &Tuple, rows: &[Tuple]) -> Result<Vec<Tuple>, NoMemory>
    ensures { IfOk result (λ group. group.items ≡ group_of key rows.now row.now) }
{
    let mut group = Vec::new(alloc);
    match add_rows(alloc, rows, &mut group) {
        Err(_) => Err(NoMemory),
        Ok(()) => {
            keep_group(key, row, &mut group);
            Ok(group)
        }
    }
}

fn item_shown(key: usize, row: &[Cell], group: &[Tuple], item: Item) -> Shown
    ensures { result ≡ item_shown key row.now group.now item }
{
    match item {
        Item::Key => shown_at(row, key),
        Item::Agg(agg) => total(agg, group),
    }
}

fn add_items(
    key: usize,
    row: &[Cell],
    group: &[Tuple],
    items: &[Item],
    fields: &mut Items<Shown>,
) -> Result<(), NoMemory>
    ensures { OnOk result
        (fields.new ≡ fields.old ++ map (item_shown key row.now group.now) items.now) }
{
    match items.split_first() {
        None => Ok(()),
        Some((item, items)) => match fields.push(item_shown(key, row, group, *item)) {
            Err(_) => Err(NoMemory),
            Ok(()) => add_items(key, row, group, items, fields),
        },
    }
}

// The row of an answer for the group of this row.
fn group_row(
    alloc: Global,
    key: usize,
    row: &Tuple,
    items: &[Item],
    rows: &[Tuple],
) -> Result<Items<Shown>, NoMemory>
    ensures { IfOk result
        (λ fields. fields
        ≡ map (item_shown key row.now (group_of key rows.now row.now)) items.now) }
{
    match group_of(alloc, key, row, rows) {
        Err(_) => Err(NoMemory),
        Ok(group) => {
            let mut fields = Items::new(alloc);
            match add_items(key, row.as_slice(), group.as_slice(), items, &mut fields) {
                Err(_) => Err(NoMemory),
                Ok(()) => Ok(fields),
            }
        }
    }
}

fn add_groups(
    alloc: Global,
    key: usize,
    heads: &[Tuple],
    items: &[Item],
    rows: &[Tuple],
    answer: &mut Items<Items<Shown>>,
) -> Result<(), NoMemory>
    ensures { OnOk result
        (answer.new
        ≡ answer.old
        ++ map (λ row. map (item_shown key row (group_of key rows.now row)) items.now) heads.now) }
{
    match heads.split_first() {
        None => Ok(()),
        Some((row, heads)) => match group_row(alloc, key, row, items, rows) {
            Err(_) => Err(NoMemory),
            Ok(fields) => match answer.push(fields) {
                Err(_) => Err(NoMemory),
                Ok(()) => add_groups(alloc, key, heads, items, rows, answer),
            },
        },
    }
}

/// Adds the items of a list, by the places of their columns.
pub(crate) fn add_listed(
    listed: &[Listed],
    scope: &Scope<'_>,
    items: &mut Vec<Item>,
) -> Result<(), NoMemory>
    ensures { OnOk result
        (items.new.items ≡ items.old.items ++ map (item_of (columns_in scope.now)) listed.now) }
{
    match listed.split_first() {
        None => Ok(()),
        Some((item, listed)) => match items.push(item_in(item, scope)) {
            Err(_) => Err(NoMemory),
            Ok(()) => add_listed(listed, scope, items),
        },
    }
}

/// A row of an answer for each group.
pub(crate) fn grouped(
    alloc: Global,
    key: usize,
    heads: &[Tuple],
    items: &[Item],
    rows: &[Tuple],
) -> Result<Items<Items<Shown>>, NoMemory>
    requires { heads.now ≡ group_heads key rows.now }
    ensures { IfOk result (λ answer. answer ≡ grouped key items.now rows.now) }
{
    let mut answer = Items::new(alloc);
    match add_groups(alloc, key, heads, items, rows, &mut answer) {
        Err(_) => Err(NoMemory),
        Ok(()) => Ok(answer),
    }
}
