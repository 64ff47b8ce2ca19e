//! Reads a text from standard input, parses it a hundred times, and does nothing else: what `bench/parse.py`
//! times.
#![tactic(auto)]

use ob_parse::{ParseErr, parse};
use std::alloc::Global;
use std::io;

const ROUNDS: u32 = 100;

/// The longest text that is parsed, in bytes.
const LONGEST: usize = 65_536;

// What parsing a text gives, in a word.
fn word(alloc: Global, text: &[u8]) -> &'static str {
    if text.len() > LONGEST {
        return "too long";
    }
    match parse(alloc, text) {
        Ok(_) => "a statement",
        Err(ParseErr::Syntax(_)) => "no statement",
        Err(ParseErr::NoMemory) => "no memory",
    }
}

fn main(rt: HostRuntime) -> io::Result<()> {
    let alloc = rt.alloc();
    let text = io::read_to_string(alloc, rt.stdin())?;
    let mut found = "nothing";
    for _ in 0..ROUNDS {
        found = word(alloc, text.as_bytes());
    }
    println!(rt; "{found}")
}
