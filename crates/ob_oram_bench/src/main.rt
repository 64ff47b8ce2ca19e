//! Accesses of an index in a store in memory: lines with what comes of them, and what `bench/oram.py` times and counts.
//!
//! It reads lines. Blank lines, and lines that begin with `#`, are printed as they stand. A line that begins with `s` is
//! an index with steps on it, and is printed with what comes of each; one that begins with `place` is a buffer whose
//! rows get their places.
//!
//! Any other line has a letter, how many keys the index has, the bytes of a row, the slots of the stash, how
//! many accesses there are, and a seed of the draws, and each line has an index of its own. When that is made, `ready` is
//! printed, and the next line is waited for, whatever it says: then the accesses are done, and a number is printed, so
//! that whoever reads that can tell what they alone took.
//!
//! `t` puts in rows and looks for them by turns, at keys that are drawn, and answers how many accesses there were. `m`
//! does drawn operations beside a map, and answers the same. `f` puts in a row at each key, looks for keys that are
//! drawn, and answers how many accesses were done before one found the stash full, or all. What goes wrong is printed,
//! and ends the program with status 1.
#![tactic(auto)]

ghost use Rattle.std.specs.Prelude.{◌≡◌, [], IfOk};
ghost use Rattle.ob_vault.specs.Places.{at};
ghost use Rattle.ob_oram_bench.specs.Sessions.{IsSession};

mod fault;
mod lines;
mod places;
mod rows;
mod runs;
mod sessions;
mod shown;
mod steps;

use crate::fault::Fault;
use crate::lines::put_session;
use crate::places::put_places;
use crate::runs::{beside_map, full_load, turns};
use crate::sessions::new_index;
use ob_oram::Index;
use ob_room::RowBuffer;
use ob_store::{BlockStore, MemStore};
use ob_vault::{BaseRevs, Revisions, Vault};
use rand_chacha::ChaCha20Rng;
use rand_core::{Rng, SeedableRng};
use std::alloc::Global;
use std::io::{self, Input, Print};
use std::process::ExitCode;
use std::str::SplitAsciiWhitespace;

// The accesses that a line asks for.
#[derive(Clone, Copy)]
enum Run {
    Turns,
    BesideMap,
    FullLoad,
}

// What a line asks for.
#[derive(Clone, Copy)]
struct Case {
    run: Run,
    keys: u32,
    bytes: u32,
    slots: u32,
    count: u32,
    seed: u8,
}

/// The next number of a line.
pub(crate) fn number(words: &mut SplitAsciiWhitespace<'_>) -> Option<u32> {
    words.next()?.parse::<u32>().ok()
}

// The accesses with this letter.
fn run_of(letter: &str) -> Option<Run> {
    match letter.as_bytes() {
        [b't'] => Some(Run::Turns),
        [b'm'] => Some(Run::BesideMap),
        [b'f'] => Some(Run::FullLoad),
        _ => None,
    }
}

fn case_of(line: &str) -> Option<Case> {
    let mut words = line.split_ascii_whitespace();
    Some(Case {
        run: run_of(words.next()?)?,
        keys: number(&mut words)?,
        bytes: number(&mut words)?,
        slots: number(&mut words)?,
        count: number(&mut words)?,
        seed: u8::try_from(number(&mut words)?).ok()?,
    })
}

// The draws of a new index.
fn draws_of(alloc: Global, rng: &mut ChaCha20Rng, keys: u32) -> Result<Vec<u64>, Fault> {
    let mut draws = Vec::new(alloc);
    for _ in 0..keys {
        match draws.push(rng.next_u64()) {
            Ok(()) => {}
            Err(_) => return Err(Fault::NoMemory),
        }
    }
    Ok(draws)
}

// Tells whoever measures that the index is made, and waits until that is heard.
fn wait<H: Input + Print + AllocGlobal>(host: &H) -> io::Result<()> {
    println!(host; "ready")?;
    let mut line = String::new(host.alloc());
    host.read_line(&mut line)?;
    Ok(())
}

// Waits until the index is known to be made, and does the accesses.
fn do_accesses<H: Input + Print + AllocGlobal, S: BlockStore, R: Revisions>(
    host: &H,
    store: &mut S,
    vault: &mut Vault<R>,
    room: &mut RowBuffer,
    index: &mut Index,
    rng: &mut ChaCha20Rng,
    case: Case,
) -> Result<u64, Fault>
    requires { IsSession room.old index.old (at R.state vault.old (S.state store.old)) }
{
    wait(host)?;
    match case.run {
        Run::Turns => turns(store, vault, room, index, rng, case.count),
        Run::BesideMap => beside_map(host.alloc(), store, vault, room, index, rng, case.count),
        Run::FullLoad => full_load(store, vault, room, index, rng, case.count),
    }
}

// An index with drawn leaves.
fn drawn_index(
    alloc: Global,
    store: &mut MemStore,
    rng: &mut ChaCha20Rng,
    case: Case,
) -> Result<(Vault<BaseRevs>, RowBuffer, Index), Fault>
    requires { (⟦<MemStore as BlockStore>⟧.state store.old).asked ≡ [] }
    ensures { IfOk result (λ new. IsSession new.1 new.2
        (at ⟦<BaseRevs as Revisions>⟧.state new.0 (⟦<MemStore as BlockStore>⟧.state store.new))) }
{
    let draws = draws_of(alloc, rng, case.keys)?;
    new_index(alloc, store, case.bytes, case.slots, draws.as_slice())
}

// The number that a line is answered.
fn answer<H: Input + Print + AllocGlobal>(host: &H, case: Case) -> Result<u64, Fault> {
    let mut rng = ChaCha20Rng::from_seed([case.seed; 32]);
    let mut store = MemStore::new(host.alloc());
    match drawn_index(host.alloc(), &mut store, &mut rng, case) {
        Ok((mut vault, mut room, mut index)) => do_accesses(
            host, &mut store, &mut vault, &mut room, &mut index, &mut rng, case,
        ),
        Err(fault) => Err(fault),
    }
}

// Does what a line says, and writes what comes of it.
fn put_line(alloc: Global, out: &mut String, line: &str) -> Result<(), Fault> {
    if line.is_empty() || line.starts_with('#') {
        Ok(out.push_str(line)?)
    } else if line.starts_with("s ") {
        put_session(alloc, out, line)
    } else if line.starts_with("place ") {
        put_places(alloc, out, line)
    } else {
        Err(Fault::Usage)
    }
}

// Prints a line, and what comes of it.
fn print_line<H: Print + AllocGlobal>(host: &H, line: &str) -> Result<(), Fault> {
    let mut out = String::new(host.alloc());
    put_line(host.alloc(), &mut out, line)?;
    Ok(println!(host; "{out}")?)
}

// Answers a line.
fn answer_line<H: Input + Print + AllocGlobal>(host: &H, line: &str) -> Result<(), Fault> {
    match case_of(line) {
        Some(case) => {
            let n = answer(host, case)?;
            Ok(println!(host; "{n}")?)
        }
        None => print_line(host, line),
    }
}

// Answers each line.
fn answer_all<H: Input + Print + AllocGlobal>(host: &H) -> Result<(), Fault> {
    for _ in 0..u64::MAX {
        let mut line = String::new(host.alloc());
        if host.read_line(&mut line)? == 0 {
            break;
        }
        let line = line.as_str();
        answer_line(host, line.strip_suffix('\n').unwrap_or(line))?;
    }
    Ok(())
}

fn main(rt: HostRuntime) -> ExitCode {
    match answer_all(&rt) {
        Ok(()) => ExitCode::from(0),
        Err(fault) => {
            let _ = println!(rt; "{fault}");
            ExitCode::from(1)
        }
    }
}
