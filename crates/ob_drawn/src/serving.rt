//! A session is served over a store in memory, and what comes of it is compared.
use ob_io::{MemSink, MemSource, Sink, Source};
use ob_shell::meddle_top;
use ob_store::BlockStore;
use std::alloc::{AllocError, Global};

/// The first line of each input.
const SECRET: &[u8] = b"0000000000000000000000000000000000000000000000000000000000000000\n";

/// So many bytes of answers a session may have.
const ROOM: usize = 4_194_304;

/// What came of a session.
#[derive(Drop)]
pub struct Served {
    pub status: u8,
    /// How many accesses were asked.
    pub asked: u64,
    /// What was answered.
    pub answers: MemSink,
}

/// What is wanted of a session.
#[derive(Clone, Copy)]
pub struct Wanted<'a> {
    pub status: u8,
    /// How many accesses, where they are counted.
    pub asked: Option<u64>,
    pub answers: &'a [u8],
}

// The words of a line.
fn words_in(alloc: Global, line: &str) -> Result<Vec<String>, AllocError> {
    let mut words = Vec::new(alloc);
    for word in line.split(' ') {
        words.push(String::from_str(alloc, word)?)?;
    }
    Ok(words)
}

// Serves by these words, and tells the status and how many accesses were asked.
fn serve_meddled<I: Source, O: Sink, T: Sink>(
    alloc: Global,
    words: &[String],
    input: &mut I,
    out: &mut O,
    trace: &mut T,
) -> (u8, u64) {
    let (report, store) = meddle_top(alloc, words, input, out, trace);
    match store {
        Some(store) => (report.status, store.count()),
        None => (report.status, 0),
    }
}

// A sink that takes so many bytes.
fn sink(alloc: Global, room: usize) -> Result<MemSink, AllocError> {
    match MemSink::new(alloc, room, Vec::new(alloc)) {
        Ok(sink) => Ok(sink),
        Err(_) => Err(AllocError),
    }
}

/// Serves what is typed, with the words of this line. No access is traced.
pub fn serve(alloc: Global, line: &str, typed: &[u8]) -> Result<Served, AllocError> {
    let words = words_in(alloc, line)?;
    let mut bytes = Vec::new(alloc);
    bytes.extend_from_slice(SECRET)?;
    bytes.extend_from_slice(typed)?;
    let mut input = MemSource::new(bytes, Vec::new(alloc));
    let mut answers = sink(alloc, ROOM)?;
    let mut trace = sink(alloc, 0)?;
    let (status, asked) = serve_meddled(alloc, &words, &mut input, &mut answers, &mut trace);
    Ok(Served {
        status,
        asked,
        answers,
    })
}

// The lines of some answers, in which the rows after each header are sorted.
fn ordered(alloc: Global, answers: &[u8]) -> Result<Vec<&[u8]>, AllocError> {
    let mut lines = Vec::new(alloc);
    let mut rows = Vec::new(alloc);
    let mut is_row = false;
    let mut from = 0;
    for (i, b) in answers.iter().enumerate() {
        if *b != b'\n' {
            continue;
        }
        let line = answers.get(from..i).unwrap_or(&[]);
        let is_quoted = line.starts_with(b"\"");
        if is_quoted && is_row {
            rows.push(line)?;
        } else {
            rows.sort()?;
            lines.append(&mut rows)?;
            lines.push(line)?;
        }
        is_row = is_quoted;
        from = i.saturating_add(1);
    }
    rows.push(answers.get(from..).unwrap_or(&[]))?;
    rows.sort()?;
    lines.append(&mut rows)?;
    Ok(lines)
}

/// The first part in which what came of a session is other than what is wanted.
pub fn difference(
    alloc: Global,
    wanted: Wanted<'_>,
    served: &Served,
) -> Result<Option<&'static str>, AllocError> {
    if ordered(alloc, wanted.answers)? != ordered(alloc, served.answers.bytes())? {
        return Ok(Some("answers"));
    }
    match wanted.asked {
        Some(asked) if asked != served.asked => Ok(Some("accesses")),
        _ if wanted.status != served.status => Ok(Some("status")),
        _ => Ok(None),
    }
}

/// Whether it is noticed that a byte of the wanted answers is another.
pub fn is_noticed(
    alloc: Global,
    wanted: Wanted<'_>,
    slip: usize,
    served: &Served,
) -> Result<bool, AllocError> {
    let mut answers = Vec::new(alloc);
    answers.extend_from_slice(wanted.answers)?;
    if let Some(b) = answers.get_mut(slip) {
        *b ^= 1;
    }
    Ok(ordered(alloc, answers.as_slice())? != ordered(alloc, served.answers.bytes())?)
}
