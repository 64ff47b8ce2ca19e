//! Reads lines from standard input, each of the name of a reader and a text, and prints them with what comes of the text:
//! tags, check values, sealed blocks, rows, marks, changes, and what stores answer to calls. Blank lines, and lines that begin with `#`,
//! are printed as they stand.
#![tactic(auto)]

mod accesses;
mod bytes;
mod calls;
mod changes;
mod marks;
mod rooms;
mod rows;
mod runs;
mod sealing;

use bytes::{narrow, parted};
use ob_store::MemStore;
use std::alloc::{AllocError, Global};
use std::io;

// Writes what the reader of this name reads in a text.
fn read(alloc: Global, out: &mut String, reader: &str, text: &str) -> Result<(), AllocError> {
    match reader {
        "mark" => marks::read(alloc, out, text),
        "fresh" => marks::fresh(alloc, out),
        "region" => marks::region(out, text),
        "tag" => sealing::tagged(alloc, out, text),
        "value" => sealing::checked(alloc, out, text),
        "words" => sealing::words(out),
        "draws" => sealing::draws(out),
        "row" => rows::read(alloc, out, text),
        "room" if text == "all" => rooms::all(alloc, out),
        "room" => rooms::one(alloc, out),
        "changes" => changes::read(alloc, out, text),
        "log" => accesses::listed(alloc, out, text),
        "insert" => accesses::inserted(alloc, out, narrow(text)),
        _ => sealing::keyed(alloc, out, reader, text),
    }
}

// Writes a line, and what it is answered.
fn put_answer(alloc: Global, out: &mut String, line: &str) -> Result<(), AllocError> {
    out.push_str(line)?;
    if line.is_empty() || line.starts_with('#') {
        return Ok(());
    }
    let (reader, text) = parted(line);
    out.push_str(" ->")?;
    match reader {
        "memory" => runs::in_memory(MemStore::new(alloc), text, 8, out),
        "meddled" => runs::meddled(alloc, text, false, out),
        "early" => runs::meddled(alloc, text, true, out),
        _ => {
            out.push_str(" ")?;
            read(alloc, out, reader, text)
        }
    }
}

// What a line is answered.
fn answer(alloc: Global, line: &str) -> Result<String, AllocError> {
    let mut out = String::new(alloc);
    put_answer(alloc, &mut out, line)?;
    Ok(out)
}

fn main(rt: HostRuntime) -> io::Result<()> {
    for line in rt.lines(rt.alloc()) {
        let answer = answer(rt.alloc(), line?.as_str())?;
        println!(rt; "{answer}")?;
    }
    Ok(())
}
