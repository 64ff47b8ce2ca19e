//! What of a table's columns is answered.
ghost use Rattle.std.specs.Prelude.{◌≤◌, IfOk, length};
ghost use Rattle.std.specs.Bool.{OnTrue};
ghost use Rattle.ob_emit.specs.Emitting.{AreColumns};
ghost use Rattle.ob_group.specs.Grouping.{aggs_of};
ghost use Rattle.ob_group.specs.Running.{IsWithin, AreWithin};

use crate::stop::Stop;
use crate::words::{Words, place_of};
use ob_base::Schema;
use ob_row::{Agg, Item};
use std::alloc::Global;

// Whether each of these places is one of a column.
fn are_columns(schema: &Schema, places: &[u8]) -> bool
    ensures { OnTrue result (AreColumns schema.now places.now) }
{
    let columns = schema.as_slice().len();
    places.len() <= 32 && places.iter().all(|place| usize::from(*place) < columns)
}

/// The places of the columns that words name.
pub(crate) fn columns_of(alloc: Global, schema: &Schema, words: Words<'_>) -> Result<Vec<u8>, Stop>
    ensures { IfOk result (λ places. AreColumns schema.now places.items) }
{
    let mut places = Vec::new(alloc);
    for word in words {
        let Some(place) = place_of(schema, word) else {
            return Err(Stop::Unread);
        };
        if places.push(place).is_err() {
            return Err(Stop::Memory);
        }
    }
    if are_columns(schema, places.as_slice()) {
        Ok(places)
    } else {
        Err(Stop::Unread)
    }
}

// The aggregate of this name over a column.
fn aggregate_over(name: &str, place: u8) -> Option<Agg> {
    match name {
        "COUNT" => Some(Agg::Count(place)),
        "SUM" => Some(Agg::Sum(place)),
        "MIN" => Some(Agg::Min(place)),
        "MAX" => Some(Agg::Max(place)),
        _ => None,
    }
}

// The aggregate that a word spells.
fn aggregate_of(schema: &Schema, word: &str) -> Option<Agg> {
    let (name, column) = word.strip_suffix(')')?.split_once('(')?;
    if column == "*" {
        return Some(Agg::CountAll);
    }
    aggregate_over(name, place_of(schema, column)?)
}

// Whether it is one over a column.
fn is_within(columns: usize, aggregate: &Agg) -> bool
    ensures { OnTrue result (IsWithin columns aggregate.now) }
{
    match aggregate {
        Agg::CountAll | Agg::Count(_) => true,
        Agg::Sum(place) | Agg::Min(place) | Agg::Max(place) => usize::from(*place) < columns,
    }
}

// Whether each of them is.
fn are_within(columns: usize, aggregates: &[Agg]) -> bool
    ensures { OnTrue result (AreWithin columns aggregates.now) }
{
    match aggregates.split_first() {
        Some((aggregate, rest)) => is_within(columns, aggregate) && are_within(columns, rest),
        None => true,
    }
}

/// The aggregates that words spell.
pub(crate) fn aggregates_of(
    alloc: Global,
    schema: &Schema,
    words: Words<'_>,
) -> Result<Vec<Agg>, Stop>
    ensures few { IfOk result (λ aggregates. length aggregates.items ≤ 32) }
    ensures within { IfOk result (λ aggregates. AreWithin (length schema.now) aggregates.items) }
{
    let mut aggregates = Vec::new(alloc);
    for word in words {
        let Some(aggregate) = aggregate_of(schema, word) else {
            return Err(Stop::Unread);
        };
        if aggregates.push(aggregate).is_err() {
            return Err(Stop::Memory);
        }
    }
    if aggregates.len() <= 32 && are_within(schema.as_slice().len(), aggregates.as_slice()) {
        Ok(aggregates)
    } else {
        Err(Stop::Unread)
    }
}

// Whether each item over a column is.
fn items_within(columns: usize, items: &[Item]) -> bool
    ensures { OnTrue result (AreWithin columns (aggs_of items.now)) }
{
    match items.split_first() {
        Some((Item::Key, rest)) => items_within(columns, rest),
        Some((Item::Agg(aggregate), rest)) => {
            is_within(columns, aggregate) && items_within(columns, rest)
        }
        None => true,
    }
}

/// The items of a group: its key, and these aggregates.
pub(crate) fn items_of(
    alloc: Global,
    schema: &Schema,
    aggregates: &[Agg],
) -> Result<Vec<Item>, Stop>
    ensures few { IfOk result (λ items. length items.items ≤ 32) }
    ensures within { IfOk result (λ items. AreWithin (length schema.now) (aggs_of items.items)) }
{
    let mut items = Vec::new(alloc);
    if items.push(Item::Key).is_err() {
        return Err(Stop::Memory);
    }
    for aggregate in aggregates {
        if items.push(Item::Agg(*aggregate)).is_err() {
            return Err(Stop::Memory);
        }
    }
    if items.len() <= 32 && items_within(schema.as_slice().len(), items.as_slice()) {
        Ok(items)
    } else {
        Err(Stop::Unread)
    }
}
