//! The words of the programs, with what they say.
use clap::{Arg, ArgAction, Command};
use std::alloc::{AllocError, Global};

/// A program that has words.
#[derive(Clone, Copy, Debug, PartialEq, Eq)]
pub enum Program {
    Oblidb,
    Oblitrace,
}

// The version, the kit that it is built with, and the form of a store's files.
fn version<'a>() -> &'a str {
    "0.1, of rattle-kit-13f logic dac8208d650f15bf, for files of form ribquince 1"
}

/// What a word says, the values that it may have, and what holds without it.
pub fn says<'a>(name: &str) -> &'a str {
    match name {
        "buffer" => "rows that may be open at once: 4 to 65536, at least 3R + 1 [default: 64]",
        "pack" => "rows of a block: 1 to 16 [default: 1]",
        "depth" => "blocks of a hash bucket: 1 to 8 [default: 5]",
        "plan" => "auto, cheapest, small, large, continuous or hash [default: auto]",
        "pad" => "rows to which results are padded: 1 to 1048576 [default: they aren't]",
        "stash" => "slots of an index's stash: 1 to 1024 [default: 32]",
        "batch" => "INSERTs served together: 2 to 65535 [default: each by itself]",
        "flight" => "SELECTs in turns: 2 to 8, and a start below 2^64 [default: each by itself]",
        "max-input" => "bytes of the input: 1024 to 1073741824 [default: 1073741824]",
        "gen" => "a text for the input: X below 2^64, 1 to 4096 rows [default: it is read]",
        "trace" => "the accesses are written to standard error",
        "store" => "where the store lies [default: oblidb-store]",
        "save" => "tables are saved behind each statement",
        "keep" => "tables are kept at the end of the run alone",
        "mark" => "where the mark lies [default: NAME.mark, or where that points]",
        "meddle" => "what others do to the store: 1 to 64 changes [default: nothing]",
        _ => "",
    }
}

// A flag, and what it says.
fn flag(alloc: Global, name: &str) -> Arg<'_> {
    Arg::new(alloc, name)
        .long(name)
        .action(ArgAction::SetTrue)
        .help(says(name))
}

// A word with a value of this name, and what it says.
fn valued<'a>(alloc: Global, name: &'a str, value: &'a str) -> Arg<'a> {
    Arg::new(alloc, name)
        .long(name)
        .action(ArgAction::Set)
        .value_name(value)
        .help(says(name))
}

// A command of this name, with the words of every program.
fn common<'a>(alloc: Global, name: &'a str) -> Result<Command<'a>, AllocError> {
    Command::new(alloc, name)
        .version(version())
        .arg(valued(alloc, "buffer", "B"))?
        .arg(valued(alloc, "pack", "R"))?
        .arg(valued(alloc, "depth", "D"))?
        .arg(valued(alloc, "plan", "P"))?
        .arg(valued(alloc, "pad", "P"))?
        .arg(valued(alloc, "stash", "T"))?
        .arg(valued(alloc, "batch", "M"))?
        .arg(valued(alloc, "flight", "M,X"))?
        .arg(valued(alloc, "max-input", "N"))?
        .arg(valued(alloc, "gen", "X,N"))?
        .arg(flag(alloc, "trace"))
}

fn oblidb<'a>(alloc: Global) -> Result<Command<'a>, AllocError> {
    let command = common(alloc, "oblidb")?
        .about("Serves statements over a store in files that see nothing of them")
        .arg(valued(alloc, "store", "NAME"))?
        .arg(flag(alloc, "save"))?
        .arg(flag(alloc, "keep"))?
        .arg(valued(alloc, "mark", "PATH"))?;
    Ok(command.no_binary_name(true))
}

fn oblitrace<'a>(alloc: Global) -> Result<Command<'a>, AllocError> {
    let command = common(alloc, "oblitrace")?
        .about("Serves statements over a store in memory that others change")
        .arg(valued(alloc, "meddle", "CHANGES"))?;
    Ok(command.no_binary_name(true))
}

/// The command of a program.
pub fn command<'a>(alloc: Global, program: Program) -> Result<Command<'a>, AllocError> {
    match program {
        Program::Oblidb => oblidb(alloc),
        Program::Oblitrace => oblitrace(alloc),
    }
}
