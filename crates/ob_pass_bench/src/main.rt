//! Fills a table of real rows in a store in memory, and runs one pass over it: what `bench/passes.py` times.
//!
//! It reads lines. A line has a letter for the pass, the bytes of a row, the rows of a block, the slots of the table,
//! the rows that may be open, how many rows are selected, or how many slots the left table of a join has, and, where
//! the table isn't to be full, how many of its first slots have rows. The table is filled, `ready` is printed, and the
//! next line is waited for, whatever it says: then the pass runs, what it gave is printed, and another line is waited
//! for before the memory of the rows and of the table is given back, so that whoever reads that can tell what the pass
//! alone took. `s` and `t` fill the table, or both tables of a join, and run no pass. Or the line is `b`, how many
//! blocks are sealed, how many are opened, and how many bytes their rows have.
#![tactic(auto)]

mod answers;
mod bare;
mod filling;
mod joining;
mod mutations;
mod runs;
mod schemas;
mod selects;

use crate::bare::seal_open;
use crate::runs::{Case, run};
use std::io;
use std::str::SplitAsciiWhitespace;

// The next number of a line.
fn number(words: &mut SplitAsciiWhitespace<'_>) -> Option<u32> {
    words.next()?.parse::<u32>().ok()
}

// The case that a line gives after the letter of its pass.
fn case_of(pass: u8, words: &mut SplitAsciiWhitespace<'_>) -> Option<Case> {
    let width = number(words)?;
    let pack = number(words)?;
    let slots = number(words)?;
    let rows = number(words)?;
    let k = number(words)?;
    Some(Case {
        pass,
        width,
        pack,
        slots,
        rows,
        k,
        full: number(words).unwrap_or(slots),
    })
}

// Does what a line asks for, and prints what it gave.
fn answer<H: Input + Print + AllocGlobal>(host: &H, line: &str) -> Option<()> {
    let mut words = line.split_ascii_whitespace();
    let pass = words.next()?.as_bytes().first()?;
    if *pass == b'b' {
        let opened = seal_open(
            number(&mut words)?,
            number(&mut words)?,
            number(&mut words)?,
        )?;
        return println!(host; "{opened}").ok();
    }
    run(host, &case_of(*pass, &mut words)?)
}

fn main(rt: HostRuntime) -> io::Result<()> {
    for _ in 0..u64::MAX {
        let mut line = String::new(rt.alloc());
        if rt.read_line(&mut line)? == 0 {
            break;
        }
        match answer(&rt, line.as_str()) {
            Some(()) => {}
            None => {
                println!(rt; "usage: PASS WIDTH PACK SLOTS ROWS K [FULL], or b SEALS UNSEALS LEN")?
            }
        }
    }
    Ok(())
}
