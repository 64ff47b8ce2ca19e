//! Flights of SELECTs over a table in a store in memory, as the lines of its input say: each line is printed with what
//! comes of it.
//!
//! Blank lines, and lines that begin with `#`, are printed as they stand. Any other line is
//! `WORD BUFFER CHANGES SELECT ..; / SELECT ..;`: the first of the words by which turns are taken, which are 0 and 1 by
//! turns; how many rows may be open; what others change in the store, or `-`; and the statements, which fly over a table
//! of its own, `t` of four rows.
//!
//! Below it stand the answers, with the place of each statement, the stop if there was one, what is seen of each
//! statement, and the number of all accesses with those of the flight; or why none fly.
#![tactic(auto)]

mod answers;
mod fault;
mod lines;
mod sessions;
mod shown;
mod turns;

use crate::answers::Answers;
use crate::lines::put_line;
use std::io::{self, Print};

// Prints a line, and what comes of it.
fn print_line<H: Print + AllocGlobal>(host: &H, line: &str) -> io::Result<()> {
    let mut out = Answers {
        text: String::new(host.alloc()),
    };
    put_line(host.alloc(), &mut out, line)?;
    println!(host; "{}", out.text)
}

fn main(rt: HostRuntime) -> io::Result<()> {
    for line in rt.lines(rt.alloc()) {
        let line = line?;
        print_line(&rt, line.as_str())?;
    }
    Ok(())
}
