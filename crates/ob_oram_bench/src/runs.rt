//! The accesses that are timed and counted.
ghost use Rattle.ob_vault.specs.Places.{at};
ghost use Rattle.ob_oram_bench.specs.Sessions.{IsSession};

use crate::fault::Fault;
use crate::rows::text_of;
use crate::sessions::{Ask, ask_key};
use ob_oram::{Got, Index, OramErr};
use ob_room::RowBuffer;
use ob_row::Cell;
use ob_store::BlockStore;
use ob_vault::{Revisions, Vault};
use rand_chacha::ChaCha20Rng;
use rand_core::Rng;
use std::alloc::Global;
use std::collections::BTreeMap;

// The next word that is drawn.
fn word(rng: &mut ChaCha20Rng) -> u32 {
    rng.next_u32()
}

// A number below this one that is drawn, or 0 where there is none.
fn drawn_below(rng: &mut ChaCha20Rng, n: u32) -> u32 {
    word(rng).checked_rem(n).unwrap_or(0)
}

/// Puts in rows and looks for them by turns, each at a key that is drawn. Answers how many accesses there were.
pub(crate) fn turns<S: BlockStore, R: Revisions>(
    store: &mut S,
    vault: &mut Vault<R>,
    room: &mut RowBuffer,
    index: &mut Index,
    rng: &mut ChaCha20Rng,
    count: u32,
) -> Result<u64, Fault>
    requires { IsSession room.old index.old (at R.state vault.old (S.state store.old)) }
{
    for i in 0..count {
        let key = i64::from(drawn_below(rng, index.capacity));
        let what = if i % 2 == 0 { Ask::Insert(0) } else { Ask::Get };
        let draw = rng.next_u64();
        match ask_key(store, vault, room, index, key, what, draw) {
            Ok(_) => {}
            Err(fault) => return Err(fault),
        }
    }
    Ok(u64::from(count))
}

// Whether this is the row of a key.
fn is_row(got: &Got, key: i64, value: u8) -> bool {
    match got {
        Got::Row(cells) => {
            cells.len() == 2
                && cells.at(0) == &Cell::Int(key)
                && cells.at(1) == &Cell::Text(text_of(value))
        }
        _ => false,
    }
}

// Whether this is what a map answers that has this value at the key, or none.
fn agrees(got: &Got, key: i64, what: Ask, was: Option<u8>) -> bool {
    match (what, was) {
        (Ask::Insert(_), None) => matches!(got, Got::Done),
        (Ask::Insert(_), Some(_)) => matches!(got, Got::Duplicate),
        (_, None) => matches!(got, Got::None),
        (Ask::Get, Some(value)) => is_row(got, key, value),
        (_, Some(_)) => matches!(got, Got::Done),
    }
}

// The value at the key after that.
fn after(what: Ask, was: Option<u8>) -> Option<u8> {
    match (what, was) {
        (Ask::Insert(value), None) => Some(value),
        (Ask::Change(value), Some(_)) => Some(value),
        (Ask::Remove, _) => None,
        _ => was,
    }
}

fn drawn(rng: &mut ChaCha20Rng) -> Ask {
    let value = (word(rng) % 26) as u8;
    match word(rng) % 4 {
        0 => Ask::Get,
        1 => Ask::Insert(value),
        2 => Ask::Change(value),
        _ => Ask::Remove,
    }
}

// Does an operation on a map with so many keys, and tells whether it answers the same.
fn map_agrees(
    map: &mut BTreeMap<i64, u8>,
    capacity: u32,
    got: &Got,
    key: i64,
    what: Ask,
) -> Result<bool, Fault> {
    if key < 0 || key >= i64::from(capacity) {
        return Ok(matches!(got, Got::OutOfRange));
    }
    let was = map.get(&key).copied();
    match after(what, was) {
        Some(value) => {
            if map.insert(key, value).is_err() {
                return Err(Fault::NoMemory);
            }
        }
        None => {
            let _ = map.remove(&key);
        }
    }
    Ok(agrees(got, key, what, was))
}

/// Does drawn operations beside a map, at keys that are drawn, of which one is too small and one too great. Answers how
/// many there were, or `Differs` where an answer isn't that of the map.
pub(crate) fn beside_map<S: BlockStore, R: Revisions>(
    alloc: Global,
    store: &mut S,
    vault: &mut Vault<R>,
    room: &mut RowBuffer,
    index: &mut Index,
    rng: &mut ChaCha20Rng,
    count: u32,
) -> Result<u64, Fault>
    requires { IsSession room.old index.old (at R.state vault.old (S.state store.old)) }
{
    let mut map: BTreeMap<i64, u8> = BTreeMap::new(alloc);
    for _ in 0..count {
        let key = i64::from(drawn_below(rng, index.capacity.saturating_add(2))) - 1;
        let what = drawn(rng);
        let draw = rng.next_u64();
        let got = match ask_key(store, vault, room, index, key, what, draw) {
            Ok(got) => got,
            Err(fault) => return Err(fault),
        };
        match map_agrees(&mut map, index.capacity, &got, key, what) {
            Ok(true) => {}
            Ok(false) => return Err(Fault::Differs),
            Err(fault) => return Err(fault),
        }
    }
    Ok(u64::from(count))
}

// What is asked at a turn: a row is put in at each key, and then keys that are drawn are looked for.
fn loading(rng: &mut ChaCha20Rng, capacity: u32, i: u64) -> (i64, Ask) {
    if i < u64::from(capacity) {
        (i as i64, Ask::Insert(0))
    } else {
        (i64::from(drawn_below(rng, capacity)), Ask::Get)
    }
}

/// Puts in a row at each key, and then looks for so many keys that are drawn. Answers how many accesses were done
/// before one found the stash full, or all.
pub(crate) fn full_load<S: BlockStore, R: Revisions>(
    store: &mut S,
    vault: &mut Vault<R>,
    room: &mut RowBuffer,
    index: &mut Index,
    rng: &mut ChaCha20Rng,
    count: u32,
) -> Result<u64, Fault>
    requires { IsSession room.old index.old (at R.state vault.old (S.state store.old)) }
{
    let capacity = index.capacity;
    let total = u64::from(capacity).saturating_add(u64::from(count));
    for i in 0..total {
        let (key, what) = loading(rng, capacity, i);
        let draw = rng.next_u64();
        match ask_key(store, vault, room, index, key, what, draw) {
            Ok(_) => {}
            Err(Fault::Access(OramErr::StashFull)) => return Ok(i),
            Err(fault) => return Err(fault),
        }
    }
    Ok(total)
}
