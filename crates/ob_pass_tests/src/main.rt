//! Runs passes over tables in a store in memory, as the lines of its input say, and prints each line with what came
//! of it.
//!
//! Lines that follow each other are a block; blank lines, and lines that begin with `#`, part blocks, and are printed
//! as they stand. A block runs twice, over both kinds of revisions, and is printed once where both print the same.
//! Its lines:
//!
//! - `open ROWS PACK [CALLS FAULT]`: a store of which nothing was asked, and a room of so many rows for blocks of
//!   `PACK`. What takes the answers takes so many calls, and then `failed`, or has no `memory`.
//! - `table SLOTS COLUMN:KIND ..`: a table of empty slots. A kind is `key`, an integer; `int`; or `text`, of four
//!   bytes.
//! - `insert CELL ..`, `update COLUMN CELL [where ..]`, `delete [where ..]`, `count [where ..]`: what these passes
//!   answer. A condition is `COLUMN OPERATOR INTEGER`.
//! - `small`, `padded`, `large` or `continuous`, `K COLUMN .. [where ..]`, and `hash K DEPTH COLUMN .. [where ..]`:
//!   the rows that are selected into a fresh region, which is emitted and discarded; `join LEFT RIGHT COLUMN ..`:
//!   those of two tables.
//! - `emit COLUMN ..`, `walk`, `aggregate ITEM .. [where ..]`, `group COLUMN ITEM .. [where ..]`: what these passes
//!   answer.
//! - `accesses FROM [TO]`: those of these indices, as a trace spells them; `writes`: the region and the place of
//!   each, which opens under its number, or is marked as `shut`.
//!
//! Nothing passes over a table after a line that selects, joins, emits, walks or adds up.
//!
//! Or a block begins with `rows MARK.FIELD.FIELD ..`: then `listed FIELD.FIELD` is the first such row of them all,
//! and `found FIELD.FIELD PLACE ..` the first of those at these places.
#![tactic(auto)]

mod accesses;
mod answers;
mod blocks;
mod cells;
mod columns;
mod emitter;
mod items;
mod joins;
mod orders;
mod room;
mod selects;
mod steps;
mod stop;
mod tables;
mod words;

use crate::blocks::answer;
use std::alloc::AllocError;
use std::io::{self, Print};

// Prints what comes of a block.
fn print_block<H: Print + AllocGlobal>(host: &H, block: &[String]) -> io::Result<()> {
    let answer = answer(host.alloc(), block)?;
    print!(host; "{answer}")
}

fn main(rt: HostRuntime) -> io::Result<()> {
    let mut block = Vec::new(rt.alloc());
    for line in rt.lines(rt.alloc()) {
        let line = line?;
        if line.is_empty() || line.starts_with('#') {
            print_block(&rt, &block)?;
            println!(rt; "{line}")?;
            block.clear();
        } else if block.push(line).is_err() {
            return Err(AllocError.into());
        }
    }
    print_block(&rt, &block)
}
