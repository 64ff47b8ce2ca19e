//! How places of rows are compared and sorted.
ghost use Rattle.std.specs.Prelude.{◌≡◌, ◌≤◌, ◌<◌, ◌^◌, [], ℕ, true, false, vec_capacity, length, slice_index_or, take, drop, IfSome, IfNone};
ghost use Rattle.std.specs.List.{Contains};
ghost use Rattle.std.specs.List.Sorted.{IsPermutation, IsPartitionPoint};
ghost use Rattle.ob_order.specs.Orders.{field_at, place_cmp, has_lesser, AreInOrder, IsFirst, HasNone, is_marked};

use ob_room::ClearRow;
use std::cmp::Ordering;

// So many bytes of a text from one on, or as many as there are.
fn part(bytes: &[u8], at: usize, len: usize) -> &[u8]
    ensures { result.now ≡ take len (drop at bytes.now) }
{
    match bytes.split_at_checked(at) {
        None => &[],
        Some((_, rest)) => match rest.split_at_checked(len) {
            None => rest,
            Some((field, _)) => field,
        },
    }
}

// The field of the row at a place; nothing where there is no row.
pub(crate) fn field_at(rows: &[ClearRow], at: usize, len: usize, place: u32) -> &[u8]
    ensures { result.now ≡ field_at at len rows.now place }
{
    match rows.get(place as usize) {
        None => &[],
        Some(row) => part(row.bytes(), at, len),
    }
}

// Which of two places comes first.
fn place_cmp(rows: &[ClearRow], at: usize, len: usize, p: u32, q: u32) -> Ordering
    ensures { result ≡ place_cmp at len rows.now p q }
{
    field_at(rows, at, len, p)
        .cmp(field_at(rows, at, len, q))
        .then(p.cmp(&q))
}

/// Puts the places in order.
pub(crate) fn sort(places: &mut [u32], rows: &[ClearRow], at: usize, len: usize)
    ensures same { IsPermutation places.old places.new }
    ensures count { length places.new ≡ length places.old }
    ensures sorted { AreInOrder at len rows.now places.new }
{
    places.sort_unstable_by(|p, q| place_cmp(rows, at, len, *p, *q));
}

// How many of these places, which are in order, have a lesser field: they are the first ones.
fn lesser(places: &[u32], rows: &[ClearRow], at: usize, field: &[u8]) -> usize
    requires { AreInOrder at (length field.now) rows.now places.now }
    ensures parted { IsPartitionPoint (λ p. has_lesser at field.now rows.now p ≡ true)
        (λ p. has_lesser at field.now rows.now p ≡ false) places.now result }
    ensures most { result ≤ length places.now }
{
    let len = field.len();
    places.partition_point(|p| field_at(rows, at, len, *p).cmp(field).is_lt())
}

/// The first of these places, which are in order, whose row has this field.
pub(crate) fn find(places: &[u32], rows: &[ClearRow], at: usize, field: &[u8]) -> Option<u32>
    requires { AreInOrder at (length field.now) rows.now places.now }
    ensures some { IfSome result (IsFirst at field.now rows.now places.now) }
    ensures none { IfNone result (HasNone at field.now rows.now places.now) }
{
    let first = lesser(places, rows, at, field);
    if first == places.len() {
        return None;
    }
    let place = places[first];
    if field_at(rows, at, field.len(), place) == field {
        Some(place)
    } else {
        None
    }
}

// Whether a row has the mark of one that is no dummy.
fn is_marked(row: &ClearRow) -> bool
    ensures { result ≡ is_marked row.now }
{
    match row.bytes().first() {
        Some(mark) => *mark == 1,
        None => false,
    }
}

/// Takes the places of these rows in turn, dummies left out, in place of those that there were.
pub(crate) fn list_marked(places: &mut Vec<u32>, rows: &[ClearRow])
    requires room { length rows.now ≤ vec_capacity places.old }
    requires few { length rows.now < 2 ^ 32 }
    ensures each { (i : ℕ) → Contains places.new.items i
        → (i < length rows.now) × (is_marked (slice_index_or rows.now i []) ≡ true) }
    ensures all { (i : ℕ) → i < length rows.now → is_marked (slice_index_or rows.now i []) ≡ true
        → Contains places.new.items i }
    ensures room { vec_capacity places.new ≡ vec_capacity places.old }
{
    places.clear();
    for i in 0..rows.len() {
        if is_marked(&rows[i]) {
            places.push_reserved(i as u32);
        }
    }
}
