//! Serves the statements of standard input over a store in memory, which others change as `--meddle` says. The exit
//! status tells how that ended.
#![tactic(auto)]

use ob_help::{Program, told};
use ob_io::{StdSink, StdSource};
use ob_shell::meddle_top;
use std::fs::File;
use std::io::{ErrorKind, Write};
use std::process::ExitCode;
use std::rt::Env;
use std::{env, io};

/// The exit status where a word is none.
const USAGE: u8 = 2;

/// The exit status where memory ran out.
const NO_MEMORY: u8 = 7;

/// The exit status where a text can't be written.
const NO_SINK: u8 = 6;

// The words of the command line, without the program's name.
fn words<R: Env + AllocGlobal>(rt: &R) -> io::Result<Vec<String>> {
    let mut words = Vec::new(rt.alloc());
    for word in env::args(rt)?.skip(1) {
        words.push(word)?;
    }
    Ok(words)
}

// Writes a text, and ends well where it could be written.
fn tell(rt: &HostRuntime, text: &str) -> ExitCode {
    let stdout = rt.stdout();
    let mut out = io::writer(&stdout);
    match out.write_all(text.as_bytes()) {
        Ok(()) => ExitCode::from(0),
        Err(_) => ExitCode::from(NO_SINK),
    }
}

// The end of a run that didn't begin, whose words can't be had: one is no UTF-8, or memory ran out.
fn end(rt: &HostRuntime, is_usage: bool) -> ExitCode {
    let stdout = rt.stdout();
    let mut out = io::writer(&stdout);
    if is_usage {
        let _ = out.write_all(b"! usage\n");
        ExitCode::from(USAGE)
    } else {
        let _ = out.write_all(b"! no memory\n");
        ExitCode::from(NO_MEMORY)
    }
}

// Serves the input.
fn serve(rt: &HostRuntime, words: &[String]) -> ExitCode {
    let stdout = rt.stdout();
    let stderr = rt.stderr();
    let mut input = StdSource::new(rt.reader());
    let mut out = StdSink::new(io::writer(&stdout));
    let mut trace = StdSink::new(io::writer(&stderr));
    let (report, _) = meddle_top(rt.alloc(), words, &mut input, &mut out, &mut trace);
    ExitCode::from(report.status)
}

// What the words ask for: to be told of them, or a run.
fn run(rt: &HostRuntime) -> ExitCode {
    let words = match words(rt) {
        Ok(words) => words,
        Err(error) => return end(rt, error.kind() == ErrorKind::InvalidData),
    };
    match told(rt.alloc(), Program::Oblitrace, &words) {
        Ok(None) => serve(rt, &words),
        Ok(Some(text)) => tell(rt, text.as_str()),
        Err(_) => end(rt, false),
    }
}

// The descriptors of the standard streams that are closed are taken first, by what can be read, but not be written.
fn main(rt: HostRuntime) -> ExitCode {
    let _streams = (
        File::open(&rt, "/"),
        File::open(&rt, "/"),
        File::open(&rt, "/"),
    );
    run(&rt)
}
