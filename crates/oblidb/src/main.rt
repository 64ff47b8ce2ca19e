//! Serves the statements of standard input over a store in files, which lie where `--store` says. With `--save` its tables
//! are there again in the next run, by a mark that lies where `--mark` says, also where the run is killed, but for a statement
//! that wasn't answered; with `--keep` where it isn't killed. The exit status tells how that ended.
#![tactic(auto)]

mod start;

use ob_file::{Complaint, FileKeeper, FileStore};
use ob_help::{Program, told};
use ob_io::{StdSink, StdSource};
use ob_shell::save_top;
use ob_start::StartErr;
use start::{Begun, Holds, begin, hold_streams, words};
use std::io;
use std::io::{Error, Write};
use std::process::ExitCode;

/// The name that what isn't right is said under.
const PROGRAM: &str = "oblidb";

// Says on standard error what isn't right.
fn complain(rt: &HostRuntime, said: &Complaint) {
    let stderr = rt.stderr();
    let mut err = io::writer(&stderr);
    let mut line = Vec::new(rt.alloc());
    let _ = match said.write(&mut line, PROGRAM) {
        Ok(()) => err.write_all(&line).is_ok(),
        Err(_) => said.write(&mut err, PROGRAM).is_ok(),
    };
}

// Says that memory ran out, for which none is needed.
fn lacks_memory(rt: &HostRuntime) {
    let stderr = rt.stderr();
    let mut err = io::writer(&stderr);
    let _ = err.write_all(b"oblidb: memory: it ran out\n");
}

// Writes a text, and ends well where it could be written.
fn tell(rt: &HostRuntime, text: &str) -> ExitCode {
    let stdout = rt.stdout();
    let mut out = io::writer(&stdout);
    match out.write_all(text.as_bytes()) {
        Ok(()) => ExitCode::from(0),
        Err(_) => ExitCode::from(6),
    }
}

// The end of a run that didn't begin.
fn end(rt: &HostRuntime, error: StartErr, said: &Complaint) -> ExitCode {
    let stdout = rt.stdout();
    let mut out = io::writer(&stdout);
    let _ = out.write_all(error.line().as_bytes());
    if error == StartErr::NoMemory {
        lacks_memory(rt);
    } else {
        complain(rt, said);
    }
    ExitCode::from(error.status())
}

// Says what isn't right where a run ended so that a person has to do something.
fn explain(
    rt: &HostRuntime,
    status: u8,
    pack: u8,
    store: &FileStore<'_, HostRuntime>,
    keeper: &FileKeeper<'_, HostRuntime>,
    said: &mut Complaint,
) {
    said.say(&["the store"], Error::other("its numbers are used up"));
    match status {
        2 | 9 => keeper.explain(pack, said),
        3 => store.complain(said),
        10 => keeper.complain(said),
        _ => return,
    }
    complain(rt, said);
}

// Serves the input: what the run holds is held until it ends.
fn serve(rt: &HostRuntime, words: &[String], begun: Begun, said: &mut Complaint) -> ExitCode {
    let Begun {
        name,
        kept,
        place,
        id,
        pack,
        replaces,
        holds,
    } = begun;
    let Ok(mut keeper) = FileKeeper::new(rt.alloc(), rt, kept, place, id) else {
        return end(rt, StartErr::NoMemory, said);
    };
    let mut store = FileStore::new(rt.alloc(), rt, name, replaces);
    let stdout = rt.stdout();
    let stderr = rt.stderr();
    let mut input = StdSource::new(rt.reader());
    let mut out = StdSink::new(io::writer(&stdout));
    let mut trace = StdSink::new(io::writer(&stderr));
    let report = save_top(
        rt.alloc(),
        words,
        &mut input,
        &mut out,
        &mut trace,
        &mut store,
        &mut keeper,
    );
    explain(rt, report.status, pack, &store, &keeper, said);
    if let Holds::Scratch(scratch) = holds {
        store.remove_all();
        scratch.end(rt);
    }
    ExitCode::from(report.status)
}

// What the words ask for: to be told of them, or a run.
fn run(rt: &HostRuntime, said: &mut Complaint) -> ExitCode {
    let words = match words(rt, said) {
        Ok(words) => words,
        Err(error) => return end(rt, error, said),
    };
    match told(rt.alloc(), Program::Oblidb, &words) {
        Ok(None) => {}
        Ok(Some(text)) => return tell(rt, text.as_str()),
        Err(_) => return end(rt, StartErr::NoMemory, said),
    }
    match begin(rt, &words, said) {
        Ok(begun) => serve(rt, &words, begun, said),
        Err(error) => end(rt, error, said),
    }
}

fn main(rt: HostRuntime) -> ExitCode {
    let streams = hold_streams(&rt);
    let mut said = Complaint::new(String::new(rt.alloc()));
    match streams {
        Ok(_streams) => run(&rt, &mut said),
        Err(error) => {
            said.say(&["/"], error);
            end(&rt, StartErr::Failed, &said)
        }
    }
}
