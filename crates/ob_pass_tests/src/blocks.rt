//! A block of lines, and what comes of it.
ghost use Rattle.std.specs.Prelude.{◌≤◌};
ghost use Rattle.ob_vault.specs.Places.{at};
ghost use Rattle.ob_blocks.specs.Idle.{IsIdle};
ghost use Rattle.ob_pass_tests.specs.Tables.{HasTable, StartsIdle};

use crate::accesses::shown;
use crate::answers::{aggregated, emit_discard, emitted, grouped, walked};
use crate::emitter::Calls;
use crate::joins::joined;
use crate::orders::find_rows;
use crate::room::{calls_of, room_of};
use crate::selects::{hashed, selected};
use crate::steps::is_step;
use crate::stop::Stop;
use crate::tables::made;
use crate::words::{Words, head, number, parted};
use ob_flat::Flat;
use ob_room::RowBuffer;
use ob_row::Pred;
use ob_seal::Keys;
use ob_store::{BlockStore, MemStore};
use ob_test_stores::KeepingStore;
use ob_vault::{BaseRevs, Revisions, Vault, VecRevs};
use std::alloc::{AllocError, Global};

// The line of a table and the lines of its steps, and the others.
fn table_lines(lines: &[String]) -> (&[String], &[String]) {
    for i in 1..lines.len() {
        if !is_step(head(lines[i].as_str())) {
            return lines.split_at(i);
        }
    }
    (lines, &[])
}

// The lines before those that show what was asked of the store, and those.
fn shown_last(lines: &[String]) -> (&[String], &[String]) {
    for i in 0..lines.len() {
        if matches!(head(lines[i].as_str()), "accesses" | "writes") {
            return lines.split_at(i);
        }
    }
    (lines, &[])
}

// What an operator selects of a table, which is emitted and discarded.
fn select_emit<S: BlockStore, R: Revisions>(
    alloc: Global,
    out: &mut String,
    store: &mut S,
    vault: &mut Vault<R>,
    room: &mut RowBuffer,
    flat: &Flat,
    operator: &str,
    words: Words<'_>,
    pred: &Pred,
    calls: Calls,
) -> Result<(), Stop>
    requires rest { StartsIdle room.old (at R.state vault.old (S.state store.old)) }
    requires table { HasTable room.old.pack flat.now (at R.state vault.old (S.state store.old)) }
{
    let mut words = words;
    let Some(k) = number(&mut words) else {
        return Err(Stop::Unread);
    };
    if operator == "hash" {
        let Some(depth) = number(&mut words) else {
            return Err(Stop::Unread);
        };
        let result = hashed(out, store, vault, room, flat, pred, k, depth)?;
        return emit_discard(alloc, out, store, vault, room, result, words, calls);
    }
    let result = selected(store, vault, room, flat, pred, operator, k)?;
    emit_discard(alloc, out, store, vault, room, result, words, calls)
}

// Answers what a line asks of a table.
fn answered<S: BlockStore, R: Revisions>(
    alloc: Global,
    out: &mut String,
    store: &mut S,
    vault: &mut Vault<R>,
    room: &mut RowBuffer,
    flat: &Flat,
    line: &str,
    calls: Calls,
) -> Result<(), Stop>
    requires rest { StartsIdle room.old (at R.state vault.old (S.state store.old)) }
    requires table { HasTable room.old.pack flat.now (at R.state vault.old (S.state store.old)) }
{
    let Some((mut words, pred)) = parted(line, &flat.schema) else {
        return Err(Stop::Unread);
    };
    match words.next() {
        Some("emit") => emitted(alloc, out, store, vault, room, flat, words, calls),
        Some("walk") => walked(out, store, vault, room, flat),
        Some("aggregate") => aggregated(alloc, out, store, vault, room, flat, words, &pred),
        Some("group") => grouped(alloc, out, store, vault, room, flat, words, &pred, calls),
        Some(operator) => select_emit(
            alloc, out, store, vault, room, flat, operator, words, &pred, calls,
        ),
        None => Err(Stop::Unread),
    }
}

// Makes a table, or two, does to each what its lines say, and answers what the line after them asks.
fn session<S: BlockStore, R: Revisions>(
    alloc: Global,
    out: &mut String,
    store: &mut S,
    vault: &mut Vault<R>,
    room: &mut RowBuffer,
    lines: &[String],
    calls: Calls,
) -> Result<(), Stop>
    requires { StartsIdle room.old (at R.state vault.old (S.state store.old)) }
{
    let (table, rest) = table_lines(lines);
    let left = made(alloc, out, store, vault, room, table)?;
    let Some((line, _)) = rest.split_first() else {
        return Err(Stop::Unread);
    };
    out.push_str("\n")?;
    if head(line.as_str()) != "table" {
        write!(out, "{line} -> ")?;
        return answered(alloc, out, store, vault, room, &left, line.as_str(), calls);
    }
    let (table, rest) = table_lines(rest);
    let right = made(alloc, out, store, vault, room, table)?;
    let Some((line, _)) = rest.split_first() else {
        return Err(Stop::Unread);
    };
    write!(out, "\n{line} -> ")?;
    joined(
        alloc,
        out,
        store,
        vault,
        room,
        &left,
        &right,
        line.as_str(),
        calls,
    )
}

// What lines show of a store.
fn show_all(out: &mut String, store: &KeepingStore, shows: &[String]) -> Result<(), Stop> {
    for line in shows {
        write!(out, "\n{line} -> ")?;
        shown(out, store, line.as_str())?;
    }
    Ok(())
}

// Does what the lines of a block say, and shows what was asked of the store.
fn serve<R: Revisions>(
    alloc: Global,
    out: &mut String,
    store: &mut KeepingStore,
    vault: &mut Vault<R>,
    room: &mut RowBuffer,
    lines: &[String],
    calls: Calls,
) -> Result<(), Stop>
    requires { StartsIdle room.old
        (at R.state vault.old (⟦<KeepingStore as BlockStore>⟧.state store.old)) }
{
    let (lines, shows) = shown_last(lines);
    if let Err(stop) = session(alloc, out, store, vault, room, lines, calls) {
        write!(out, "{stop}")?;
    }
    show_all(out, store, shows)
}

// The same over a store of its own.
fn run_over<R: Revisions>(
    alloc: Global,
    out: &mut String,
    room: &mut RowBuffer,
    lines: &[String],
    calls: Calls,
) -> Result<(), Stop>
    requires idle { IsIdle 1024 room.old }
    requires pack { (1 ≤ room.old.pack) × (room.old.pack ≤ 16) }
{
    let mut store = KeepingStore::new(alloc, MemStore::new(alloc));
    let mut vault: Vault<R> = Vault::new(alloc, Keys::derive(&[0; 32]));
    serve(alloc, out, &mut store, &mut vault, room, lines, calls)
}

// Runs a block.
fn run<R: Revisions>(alloc: Global, out: &mut String, lines: &[String]) -> Result<(), Stop> {
    let Some((line, lines)) = lines.split_first() else {
        return Err(Stop::Unread);
    };
    write!(out, "{line}\n")?;
    let mut words = line.split_ascii_whitespace();
    let _head = words.next();
    let Some(mut room) = room_of(alloc, &mut words) else {
        return Err(Stop::Unread);
    };
    let calls = calls_of(&mut words);
    run_over::<R>(alloc, out, &mut room, lines, calls)
}

// Writes why a block was given up, if it was, and ends its last line.
fn put_end(out: &mut String, end: Result<(), Stop>) -> Result<(), AllocError> {
    if let Err(stop) = end {
        write!(out, "{stop}")?;
    }
    out.push_str("\n")
}

// What comes of a block, over one kind of revisions.
fn outcome<R: Revisions>(alloc: Global, lines: &[String]) -> Result<String, AllocError> {
    let mut out = String::new(alloc);
    let result = run::<R>(alloc, &mut out, lines);
    put_end(&mut out, result)?;
    Ok(out)
}

// What comes of a block of rows.
fn found(alloc: Global, lines: &[String]) -> Result<String, AllocError> {
    let mut out = String::new(alloc);
    let result = find_rows(alloc, &mut out, lines);
    put_end(&mut out, result)?;
    Ok(out)
}

// What comes of a block over both kinds of revisions, once where they are the same.
fn joined_outcomes(alloc: Global, bases: &str, numbers: &str) -> Result<String, AllocError> {
    let mut out = String::from_str(alloc, bases)?;
    if bases != numbers {
        write!(out, "Over a number for each block:\n{numbers}")?;
    }
    Ok(out)
}

/// A block with what comes of each of its lines.
pub(crate) fn answer(alloc: Global, lines: &[String]) -> Result<String, AllocError> {
    let Some((line, _)) = lines.split_first() else {
        return Ok(String::new(alloc));
    };
    if head(line.as_str()) == "rows" {
        return found(alloc, lines);
    }
    let bases = outcome::<BaseRevs>(alloc, lines)?;
    let numbers = outcome::<VecRevs>(alloc, lines)?;
    joined_outcomes(alloc, bases.as_str(), numbers.as_str())
}
