//! Serves a case over a store in memory.
ghost use Rattle.std.specs.Prelude.{◌≡◌, []};

use crate::case::{Case, LineErr, Part, Run, Taking, mark_of};
use crate::compare::{Came, difference};
use ob_base::NoMemory;
use ob_io::{MemSink, MemSource, Sink, Source};
use ob_meddle::{Act, ChangesErr, Meddle, MeddledStore, parse_changes};
use ob_reopen::{Keeper, Mark, MemKeeper, Salts};
use ob_shell::{keep_top, meddle_top, save_top};
use ob_store::{BlockStore, Lasting, Saving};
use std::alloc::Global;

/// So many bytes of answers, and of accesses, a run may have.
const ROOM: usize = 4_194_304;

/// So many calls fail of a store that dies: more than a run asks of it then, since each statement ends at the first.
const LAST: u64 = 64;

/// What came of a case: the part that differs, if any, with what was answered and traced in its last run, or in the
/// first that differs.
#[derive(Drop)]
pub struct Served {
    pub differs: Option<Part>,
    pub answers: Vec<u8>,
    pub trace: Vec<u8>,
    pub status: u8,
}

impl From<NoMemory> for LineErr {
    fn from(_error: NoMemory) -> LineErr {
        LineErr::NoMemory
    }
}

// The words of a run. The accesses are traced where it wants any of them.
fn words_of(alloc: Global, run: &Run) -> Result<Vec<String>, LineErr> {
    let mut words = Vec::new(alloc);
    if run.accesses.is_some() || run.total.is_some() {
        words.push(String::from_str(alloc, "--trace")?)?;
    }
    for word in &run.words {
        words.push(String::from_str(alloc, word.as_str())?)?;
    }
    Ok(words)
}

// What others do in a run, and which calls fail once its store dies.
fn changes_of(alloc: Global, run: &Run) -> Result<Vec<Meddle>, LineErr> {
    let mut list = changes_in(alloc, run)?;
    if let Some(first) = run.dies {
        for n in 0..LAST {
            let failing = Meddle {
                before: first.saturating_add(n),
                act: Act::Fail,
            };
            match list.push(failing) {
                Ok(()) => {}
                Err(_) => return Err(LineErr::NoMemory),
            }
        }
    }
    Ok(list)
}

// What others do in a run.
fn changes_in(alloc: Global, run: &Run) -> Result<Vec<Meddle>, LineErr> {
    match &run.changes {
        None => Ok(Vec::new(alloc)),
        Some(text) => match parse_changes(alloc, text.as_bytes()) {
            Ok(list) => Ok(list),
            Err(ChangesErr::Malformed) => Err(LineErr::Form),
            Err(ChangesErr::NoMemory) => Err(LineErr::NoMemory),
        },
    }
}

// The input of a run.
fn source_of(alloc: Global, run: &Run) -> Result<MemSource, LineErr> {
    let input = copied(alloc, run.input.as_slice())?;
    Ok(MemSource::new(input, copied(alloc, run.reads.as_slice())?))
}

// A sink that takes what it has to.
fn sink_of(alloc: Global, taking: &Taking) -> Result<MemSink, LineErr> {
    let room = match taking.room {
        Some(room) => room as usize,
        None => ROOM,
    };
    Ok(MemSink::new(alloc, room, copied(alloc, taking.fail.as_slice())?)?)
}

// How many bytes are read of the input after a run, where it wants to know: to the end, or to a call that fails.
fn left_in(run: &Run, input: &mut MemSource) -> u64 {
    let mut left: u64 = 0;
    if run.left.is_none() {
        return left;
    }
    let mut buf = [0; 64];
    for _ in 0..run.input.len() {
        match input.read(&mut buf) {
            Ok(n) if n > 0 => left = left.saturating_add(n as u64),
            _ => break,
        }
    }
    left
}

// Serves by its words over a store that they have changed, and tells the status and how many accesses were asked.
fn serve_meddled<I: Source, O: Sink, T: Sink>(
    alloc: Global,
    words: &[String],
    input: &mut I,
    out: &mut O,
    trace: &mut T,
) -> (u8, u64) {
    let (report, store) = meddle_top(alloc, words, input, out, trace);
    match store {
        Some(store) => (report.status, store.count()),
        None => (report.status, 0),
    }
}

// Serves over what rests of a store, with a keeper, and tells the status.
fn serve_kept<I: Source, O: Sink, T: Sink, S: Lasting, K: Keeper>(
    alloc: Global,
    words: &[String],
    input: &mut I,
    out: &mut O,
    trace: &mut T,
    store: &mut S,
    keeper: &mut K,
) -> u8
    requires { (S.state store.old).asked ≡ [] }
{
    keep_top(alloc, words, input, out, trace, store, keeper).status
}

// The same with `save_top`, where its keeper draws salts, too.
fn serve_saved<I: Source, O: Sink, T: Sink, S: Saving, K: Salts>(
    alloc: Global,
    words: &[String],
    input: &mut I,
    out: &mut O,
    trace: &mut T,
    store: &mut S,
    keeper: &mut K,
) -> u8
    requires { (S.state store.old).asked ≡ [] }
{
    save_top(alloc, words, input, out, trace, store, keeper).status
}

// Whether a run has the word by which tables are saved.
fn saves(run: &Run) -> bool {
    let mut found = false;
    for word in &run.words {
        found = found || word.as_str() == "--save";
    }
    found
}

// One of the two, by the words of a run, and by whether the case lists salts.
fn serve_resting<I: Source, O: Sink, T: Sink, S: Saving, K: Salts>(
    alloc: Global,
    run: &Run,
    salted: bool,
    input: &mut I,
    out: &mut O,
    trace: &mut T,
    store: &mut S,
    keeper: &mut K,
) -> Result<u8, LineErr>
    requires { (S.state store.old).asked ≡ [] }
{
    let words = words_of(alloc, run)?;
    if salted || saves(run) {
        Ok(serve_saved(alloc, &words, input, out, trace, store, keeper))
    } else {
        Ok(serve_kept(alloc, &words, input, out, trace, store, keeper))
    }
}

// What came of a run, beside what it wants.
fn served_as(alloc: Global, run: &Run, unordered: bool, came: &Came) -> Result<Served, LineErr> {
    Ok(Served {
        differs: difference(alloc, run, unordered, came)?,
        answers: copied(alloc, came.answers)?,
        trace: copied(alloc, came.trace)?,
        status: came.status,
    })
}

// Serves a session over a store that its words have changed.
fn serve_once(alloc: Global, run: &Run, unordered: bool) -> Result<Served, LineErr> {
    let words = words_of(alloc, run)?;
    let mut input = source_of(alloc, run)?;
    let mut out = sink_of(alloc, &run.writes)?;
    let mut trace = sink_of(alloc, &run.traces)?;
    let (status, asked) = serve_meddled(alloc, &words, &mut input, &mut out, &mut trace);
    let came = Came {
        answers: out.bytes(),
        trace: trace.bytes(),
        asked,
        left: left_in(run, &mut input),
        status,
        mark: None,
    };
    served_as(alloc, run, unordered, &came)
}

// The mark that a keeper holds, which is asked for where a run wants it.
fn mark_behind(run: &Run, keeper: &mut MemKeeper) -> Option<Mark> {
    match run.mark {
        None => None,
        Some(_) => keeper.mark().ok(),
    }
}

// Serves a run over what rests of a store, with a keeper, which has salts to draw or hasn't.
fn serve_over(
    alloc: Global,
    run: &Run,
    salted: bool,
    unordered: bool,
    store: MeddledStore,
    keeper: &mut MemKeeper,
) -> Result<(Served, MeddledStore), LineErr> {
    let mut store = store.rest(changes_of(alloc, run)?);
    let mut input = source_of(alloc, run)?;
    let mut out = sink_of(alloc, &run.writes)?;
    let mut trace = sink_of(alloc, &run.traces)?;
    let status = serve_resting(
        alloc, run, salted, &mut input, &mut out, &mut trace, &mut store, keeper,
    )?;
    let came = Came {
        answers: out.bytes(),
        trace: trace.bytes(),
        asked: store.count(),
        left: left_in(run, &mut input),
        status,
        mark: mark_behind(run, keeper),
    };
    let served = served_as(alloc, run, unordered, &came)?;
    Ok((served, store))
}

// The keeper of a case, which draws its salts, the last of its own list first.
fn keeper_of(alloc: Global, case: &Case, held: &str) -> Result<MemKeeper, LineErr> {
    let faults = copied(alloc, case.faults.as_slice())?;
    let mut left = copied(alloc, case.salts.as_slice())?;
    let mut salts = Vec::new(alloc);
    for _ in 0..case.salts.len() {
        if let Some(salt) = left.pop() {
            match salts.push(salt) {
                Ok(()) => {}
                Err(_) => return Err(LineErr::NoMemory),
            }
        }
    }
    Ok(MemKeeper::new(mark_of(held)?, faults).with_salts(salts))
}

// Serves runs, one after the other, to the first that differs.
fn serve_all(alloc: Global, case: &Case, held: &str) -> Result<Served, LineErr> {
    let mut keeper = keeper_of(alloc, case, held)?;
    let mut store = MeddledStore::new(alloc, Vec::new(alloc));
    let mut last = None;
    let salted = case.salts.len() > 0;
    for run in &case.runs {
        let (served, rest) = serve_over(alloc, run, salted, case.unordered, store, &mut keeper)?;
        if served.differs.is_some() {
            return Ok(served);
        }
        store = rest;
        last = Some(served);
    }
    match last {
        Some(served) => Ok(served),
        None => Err(LineErr::Form),
    }
}

/// Serves a case.
pub fn serve(alloc: Global, case: &Case) -> Result<Served, LineErr> {
    match &case.keeper {
        Some(held) => serve_all(alloc, case, held.as_str()),
        None => match case.runs.as_slice() {
            [run] => serve_once(alloc, run, case.unordered),
            _ => Err(LineErr::Form),
        },
    }
}

fn copied<T: Copy>(alloc: Global, items: &[T]) -> Result<Vec<T>, LineErr> {
    let mut copy = Vec::new(alloc);
    match copy.extend_from_slice(items) {
        Ok(()) => Ok(copy),
        Err(_) => Err(LineErr::NoMemory),
    }
}
