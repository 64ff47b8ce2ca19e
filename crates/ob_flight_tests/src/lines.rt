//! A line, and what comes of it.
ghost use Rattle.std.specs.Prelude.{◌≡◌, ◌≤◌, [], IfOk};
ghost use Rattle.ob_store.specs.State.{StoreState};
ghost use Rattle.ob_flight_tests.specs.Sessions.{IsSession};

use crate::answers::Answers;
use crate::fault::Fault;
use crate::sessions::{session, statement};
use ob_base::{Config, NoMemory, Planner};
use ob_meddle::{Meddle, MeddledStore, parse_changes};
use ob_seal::Keys;
use ob_sql::Stmt;
use ob_tables::Engine;
use ob_vault::{Revisions, VecRevs};
use std::alloc::{AllocError, Global};

// An engine with so many rows.
fn engine_of(alloc: Global, buffer: u32) -> Result<Engine<VecRevs>, NoMemory>
    requires least { 4 ≤ buffer }
    requires most { buffer ≤ 65536 }
    ensures { IfOk result (λ engine. (s : StoreState) → s.asked ≡ []
        → IsSession ⟦<VecRevs as Revisions>⟧.state engine s) }
{
    let config = Config {
        buffer,
        depth: 5,
        pack: 1,
        planner: Planner::Auto,
        pad: None,
        stash: 32,
        keep: false,
        save: false,
        batch: None,
        max_input: 1_073_741_824,
    };
    Engine::start(alloc, config, Keys::derive(&[0; 32]))
}

// A flight over a store in memory that others change.
fn serve(
    alloc: Global,
    out: &mut Answers,
    buffer: u32,
    changes: Vec<Meddle>,
    stmts: &[Stmt],
    odd: bool,
) -> Result<(), Fault> {
    if !(4..=65_536).contains(&buffer) {
        return Err(Fault::Usage);
    }
    let mut store = MeddledStore::new(alloc, changes);
    match engine_of(alloc, buffer) {
        Ok(mut engine) => session(alloc, &mut engine, &mut store, stmts, odd, out),
        Err(_) => Err(Fault::NoMemory),
    }
}

// Reads one statement more.
fn read_statement(alloc: Global, text: &str, stmts: &mut Vec<Stmt>) -> Result<(), Fault> {
    match statement(alloc, text) {
        Ok(stmt) => match stmts.push(stmt) {
            Ok(()) => Ok(()),
            Err(_) => Err(Fault::NoMemory),
        },
        Err(fault) => Err(fault),
    }
}

// Reads the statements that slashes part.
fn read_statements(alloc: Global, text: &str, stmts: &mut Vec<Stmt>) -> Result<(), Fault> {
    for one in text.split(" / ") {
        read_statement(alloc, one, stmts)?;
    }
    Ok(())
}

// The changes that a word spells.
fn changes_of(alloc: Global, word: &str) -> Result<Vec<Meddle>, Fault> {
    if word == "-" {
        return Ok(Vec::new(alloc));
    }
    match parse_changes(alloc, word.as_bytes()) {
        Ok(changes) => Ok(changes),
        Err(_) => Err(Fault::Usage),
    }
}

// The flight of these words.
fn fly_words(
    alloc: Global,
    out: &mut Answers,
    odd: bool,
    buffer: u32,
    changes: &str,
    stmts: &[Stmt],
) -> Result<(), Fault> {
    match changes_of(alloc, changes) {
        Ok(changes) => serve(alloc, out, buffer, changes, stmts, odd),
        Err(fault) => Err(fault),
    }
}

// The first word, the rows, the changes and the statements of a line.
fn parts_of(line: &str) -> Option<(bool, u32, &str, &str)> {
    let (word, line) = line.split_once(" ")?;
    let (buffer, line) = line.split_once(" ")?;
    let (changes, stmts) = line.split_once(" ")?;
    Some((word == "1", buffer.parse::<u32>().ok()?, changes, stmts))
}

fn put_flight(alloc: Global, out: &mut Answers, line: &str) -> Result<(), Fault> {
    let Some((odd, buffer, changes, texts)) = parts_of(line) else {
        return Err(Fault::Usage);
    };
    let mut stmts = Vec::new(alloc);
    match read_statements(alloc, texts, &mut stmts) {
        Ok(()) => fly_words(alloc, out, odd, buffer, changes, stmts.as_slice()),
        Err(fault) => Err(fault),
    }
}

fn word_of(fault: Fault) -> &'static str {
    match fault {
        Fault::Usage => "usage",
        Fault::NoMemory => "out of memory",
        Fault::Unfilled => "unfilled",
    }
}

/// Writes a line, and what comes of it.
pub(crate) fn put_line(alloc: Global, out: &mut Answers, line: &str) -> Result<(), AllocError> {
    out.text.push_str(line)?;
    if line.is_empty() || line.starts_with('#') {
        return Ok(());
    }
    out.text.push_str("\n")?;
    match put_flight(alloc, out, line) {
        Ok(()) => Ok(()),
        Err(fault) => out.text.push_str(word_of(fault)),
    }
}
