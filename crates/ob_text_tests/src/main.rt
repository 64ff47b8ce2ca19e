//! Reads lines from standard input, each of the name of a reader and a text, and prints them with what the text is read
//! as, or where it is refused: each part of it is written out in its place. In a text `\` and two hexadecimal digits are
//! a byte. Blank lines, and lines that begin with `#`, are printed as they stand.
#![tactic(auto)]

mod bytes;
mod readers;
mod spelled;

use std::alloc::{AllocError, Global};
use std::io;

// What a line is answered.
fn answer(alloc: Global, line: &str) -> Result<String, AllocError> {
    let mut out = String::from_str(alloc, line)?;
    if line.is_empty() || line.starts_with('#') {
        return Ok(out);
    }
    let (reader, text) = line.split_once(' ').unwrap_or((line, ""));
    let text = bytes::spelled_by(alloc, text)?;
    out.push_str(" -> ")?;
    readers::read(alloc, &mut out, reader, text.as_slice())?;
    Ok(out)
}

fn main(rt: HostRuntime) -> io::Result<()> {
    for line in rt.lines(rt.alloc()) {
        let answer = answer(rt.alloc(), line?.as_str())?;
        println!(rt; "{answer}")?;
    }
    Ok(())
}
