//! Draws sessions, has the engine and the plain evaluator answer them, and compares what both say: each header, the rows
//! after it in any order, each last line, and the status. Sessions with runs of INSERTs are served with `--batch`, too,
//! and how many accesses they ask is compared with what the specification counts.
//!
//! The words are `[SEED [SESSIONS]]`: a number by which all is drawn, 1 without it, and how many sessions there are. It
//! prints each that differs, and last how many there were. Each is compared once more with a bit of what is wanted
//! inverted, which has to be noticed. The exit status is 0 where none differs, 1 where one does, and 2 where the words are
//! none, or memory or the output fails.
#![tactic(auto)]

mod accesses;
mod changes;
mod conditions;
mod creates;
mod draws;
mod pen;
mod plain;
mod selects;
mod serving;
mod sessions;
mod settings;
mod statements;
mod tables;
mod values;

use crate::pen::Pen;
use crate::serving::{Served, Wanted, difference, is_noticed, serve};
use crate::sessions::{Session, drawn};
use std::alloc::{AllocError, Global};
use std::env;
use std::io::{self, Print, Write};
use std::process::ExitCode;
use std::rt::Env;

/// How many sessions there are where no word says so.
const SESSIONS: u64 = 2_160;

/// How many of each there were.
#[derive(Clone, Copy)]
struct Tally {
    texts: u64,
    refused: u64,
    // How often sessions were served, some of them with and without batches.
    runs: u64,
    differ: u64,
    noticed: u64,
}

// The seed, and how many sessions there are, by the words.
fn numbers<R: Env + AllocGlobal>(rt: &R) -> Option<(u64, u64)> {
    let mut words = env::args(rt).ok()?.skip(1);
    let seed = match words.next() {
        Some(word) => word.as_str().parse::<u64>().ok()?,
        None => 1,
    };
    let sessions = match words.next() {
        Some(word) => word.as_str().parse::<u64>().ok()?,
        None => SESSIONS,
    };
    match words.next() {
        Some(_) => None,
        None => Some((seed, sessions)),
    }
}

// Writes a status, how many accesses there were, and answers.
fn put_answers(to: &mut Pen, word: &str, status: u8, asked: u64, answers: &[u8]) {
    to.put(word);
    to.put(": status ");
    to.put_number(status);
    to.put(", ");
    to.put_number(asked);
    to.put(" accesses\n");
    to.write(answers);
}

// Writes a session of which a part differs.
fn put_session(
    to: &mut Pen,
    session: &Session,
    words: &str,
    wanted: Wanted<'_>,
    served: &Served,
    part: &str,
) {
    to.put("seed ");
    to.put_number(session.seed);
    to.put(", session ");
    to.put_number(session.number);
    to.put(": ");
    to.put(part);
    to.put(" differ\nwords ");
    to.put(words);
    to.put("\n");
    to.write(session.typed.bytes());
    let asked = wanted.asked.unwrap_or(served.asked);
    put_answers(to, "wanted", wanted.status, asked, wanted.answers);
    let answers = served.answers.bytes();
    put_answers(to, "came", served.status, served.asked, answers);
}

// Serves a session with these words, of which this is wanted, and writes it if it differs.
fn try_words(
    alloc: Global,
    session: &Session,
    words: &str,
    wanted: Wanted<'_>,
    tally: &mut Tally,
    to: &mut Pen,
) -> Result<(), AllocError> {
    let served = serve(alloc, words, session.typed.bytes())?;
    tally.runs = tally.runs.saturating_add(1);
    if is_noticed(alloc, wanted, session.slip, &served)? {
        tally.noticed = tally.noticed.saturating_add(1);
    }
    if let Some(part) = difference(alloc, wanted, &served)? {
        tally.differ = tally.differ.saturating_add(1);
        put_session(to, session, words, wanted, &served, part);
    }
    Ok(())
}

// Serves a session where so many INSERTs are served together, or each by itself. Accesses are counted where there are runs
// of them.
fn try_batch(
    alloc: Global,
    session: &Session,
    batch: Option<u32>,
    tally: &mut Tally,
    to: &mut Pen,
) -> Result<(), AllocError> {
    let pen = session.settings.words(alloc, batch);
    let words = str::from_utf8(pen.bytes()).unwrap_or("");
    let asked = match (session.settings.batch, batch) {
        (None, _) => None,
        (Some(_), None) => Some(session.alone.count),
        (Some(_), Some(_)) => Some(session.together.count),
    };
    let wanted = Wanted {
        status: u8::from(session.refused > 0),
        asked,
        answers: session.answers.bytes(),
    };
    try_words(alloc, session, words, wanted, tally, to)
}

// Draws a session, and serves it.
fn try_session(
    alloc: Global,
    seed: u64,
    number: u64,
    tally: &mut Tally,
    to: &mut Pen,
) -> Result<(), AllocError> {
    let session = drawn(alloc, seed, number)?;
    tally.texts = tally.texts.saturating_add(session.texts);
    tally.refused = tally.refused.saturating_add(session.refused);
    try_batch(alloc, &session, None, tally, to)?;
    match session.settings.batch {
        Some(most) => try_batch(alloc, &session, Some(most), tally, to),
        None => Ok(()),
    }
}

// Writes how many there were.
fn put_tally(to: &mut Pen, sessions: u64, tally: Tally) {
    to.put_number(sessions);
    to.put(" sessions with ");
    to.put_number(tally.texts);
    to.put(" texts, ");
    to.put_number(tally.refused);
    to.put(" of them refused\n");
    to.put_number(tally.runs);
    to.put(" runs: ");
    to.put_number(tally.differ);
    to.put(" differ, ");
    to.put_number(tally.noticed);
    to.put(" do with a bit inverted\n");
}

// Draws and serves all sessions, and tells whether none differs.
fn try_all<R: Print + AllocGlobal>(rt: &R, seed: u64, sessions: u64) -> io::Result<bool> {
    let mut tally = Tally {
        texts: 0,
        refused: 0,
        runs: 0,
        differ: 0,
        noticed: 0,
    };
    let mut out = io::writer(rt);
    for number in 0..sessions {
        let mut to = Pen::new(rt.alloc());
        try_session(rt.alloc(), seed, number, &mut tally, &mut to)?;
        out.write_all(to.bytes())?;
    }
    let mut to = Pen::new(rt.alloc());
    put_tally(&mut to, sessions, tally);
    out.write_all(to.bytes())?;
    Ok(tally.differ == 0 && tally.noticed == tally.runs)
}

fn main(rt: HostRuntime) -> ExitCode {
    let Some((seed, sessions)) = numbers(&rt) else {
        return ExitCode::from(2);
    };
    match try_all(&rt, seed, sessions) {
        Ok(true) => ExitCode::from(0),
        Ok(false) => ExitCode::from(1),
        Err(_) => ExitCode::from(2),
    }
}
