//! What was asked of a store, and the numbers of what was written to it.
use crate::stop::Stop;
use crate::words::number;
use ob_base::Access;
use ob_seal::{At, Keys, unseal};
use ob_store::BlockStore;
use ob_test_stores::{Block, KeepingStore};

// The letter of an access, its region, and what else it has.
fn push_words(out: &mut String, letter: &str, region: u64, numbers: &[u32]) -> Result<(), Stop> {
    write!(out, "{letter} {region}")?;
    for number in numbers {
        write!(out, " {number}")?;
    }
    Ok(())
}

// An access as a trace spells it.
fn push_access(out: &mut String, access: Access) -> Result<(), Stop> {
    match access {
        Access::Make {
            region,
            blocks,
            len,
        } => push_words(out, "M", region, &[blocks, len]),
        Access::Read { region, place } => push_words(out, "R", region, &[place]),
        Access::Write { region, place } => push_words(out, "W", region, &[place]),
        Access::Discard { region } => push_words(out, "D", region, &[]),
        Access::Open {
            region,
            blocks,
            len,
        } => push_words(out, "O", region, &[blocks, len]),
    }
}

// The accesses of these indices.
fn accesses(out: &mut String, store: &KeepingStore, from: u64, to: u64) -> Result<(), Stop> {
    for at in from.max(store.gone())..to.min(store.count()) {
        if from < at {
            out.push_str(", ")?;
        }
        push_access(out, store.nth(at))?;
    }
    Ok(())
}

// Whether a block opens as what the write of this number put at its place.
fn opens(keys: &Keys, number: u64, write: &(u64, u32, Block)) -> bool {
    let (region, place, block) = write;
    let at = At {
        region: *region,
        place: *place,
        number,
    };
    let mut row = [9; 17];
    unseal(keys, at, block, &mut row).is_ok()
}

// Where each write was, which opens under the number of all writes up to it, from 1 on.
fn writes(out: &mut String, store: &KeepingStore) -> Result<(), Stop> {
    let keys = Keys::derive(&[0; 32]);
    for (number, write) in (1..=1_000_000).zip(store.written()) {
        if 1 < number {
            out.push_str(", ")?;
        }
        write!(out, "{} {}", write.0, write.1)?;
        if !opens(&keys, number, write) {
            out.push_str(" shut")?;
        }
    }
    Ok(())
}

/// What a line shows of a store.
pub(crate) fn shown(out: &mut String, store: &KeepingStore, line: &str) -> Result<(), Stop> {
    let mut words = line.split_ascii_whitespace();
    match words.next() {
        Some("accesses") => {
            let from = number(&mut words).unwrap_or(0);
            let to = number(&mut words).unwrap_or(u32::MAX);
            accesses(out, store, u64::from(from), u64::from(to))
        }
        Some("writes") => writes(out, store),
        _ => Err(Stop::Unread),
    }
}
