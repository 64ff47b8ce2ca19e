//! What came of a run, beside what was wanted.
use crate::case::{LineErr, Part, Run};
use ob_reopen::Mark;
use std::alloc::{AllocError, Global};

/// What came of a run.
#[derive(Clone, Copy)]
pub struct Came<'a> {
    pub answers: &'a [u8],
    /// The accesses, one a line.
    pub trace: &'a [u8],
    /// How many accesses were asked.
    pub asked: u64,
    /// How many bytes are read of the input after the run, where it wants to know.
    pub left: u64,
    pub status: u8,
    /// The mark that the keeper holds, where there is a keeper and it told.
    pub mark: Option<Mark>,
}

/// The first part in which what came is other than what a run wants, whose rows may come in any order or may not.
pub fn difference(
    alloc: Global,
    run: &Run,
    unordered: bool,
    came: &Came,
) -> Result<Option<Part>, LineErr> {
    let answered = match &run.answers {
        Some(wanted) if unordered => {
            ordered(alloc, wanted.as_slice())? == ordered(alloc, came.answers)?
        }
        Some(wanted) => first(wanted.as_slice(), run.writes.taken) == Some(came.answers),
        None => true,
    };
    if !answered {
        return Ok(Some(Part::Answers));
    }
    let traced = match &run.accesses {
        Some(wanted) if run.traces.taken.is_some() => {
            first(wanted.as_slice(), run.traces.taken) == Some(came.trace)
        }
        Some(wanted) => is_traced(wanted.as_slice(), came.trace),
        None => true,
    };
    if !traced {
        return Ok(Some(Part::Accesses));
    }
    Ok(difference_behind(run, came))
}

// The same of what isn't spelt line by line.
fn difference_behind(run: &Run, came: &Came) -> Option<Part> {
    if run.total.is_some_and(|total| total != lines_in(came.trace)) {
        return Some(Part::Total);
    }
    if run.asked.is_some_and(|asked| asked != came.asked) {
        return Some(Part::Asked);
    }
    if run.left.is_some_and(|left| left != came.left) {
        return Some(Part::Left);
    }
    if run.status != u64::from(came.status) {
        return Some(Part::Status);
    }
    if run.mark.is_some() && run.mark != came.mark {
        return Some(Part::Mark);
    }
    None
}

// So many first bytes, or all where there is no number; none where there are fewer.
fn first(bytes: &[u8], count: Option<u64>) -> Option<&[u8]> {
    match count {
        Some(n) => bytes.get(..n as usize),
        None => Some(bytes),
    }
}

// The lines of some answers, in which the rows after each header are sorted.
fn ordered(alloc: Global, answers: &[u8]) -> Result<Vec<&[u8]>, AllocError> {
    let mut lines = Vec::new(alloc);
    let mut rows = Vec::new(alloc);
    let mut is_row = false;
    for line in answers.split(|b| *b == b'\n') {
        let quoted = line.starts_with(b"\"");
        if quoted && is_row {
            rows.push(line)?;
        } else {
            rows.sort()?;
            lines.append(&mut rows)?;
            lines.push(line)?;
        }
        is_row = quoted;
    }
    Ok(lines)
}

// How many lines end in these bytes.
fn lines_in(bytes: &[u8]) -> u64 {
    let mut n: u64 = 0;
    for b in bytes {
        if *b == b'\n' {
            n = n.saturating_add(1);
        }
    }
    n
}

// Whether a trace is as it is wanted, line by line, where a line that is a number stands for so many accesses.
fn is_traced(wanted: &[u8], trace: &[u8]) -> bool {
    let mut rest = trace;
    for line in wanted.split(|b| *b == b'\n') {
        if line.is_empty() {
            continue;
        }
        let behind = match count_of(line) {
            Some(n) => behind_lines(rest, n),
            None => behind_line(rest, line),
        };
        match behind {
            Some(more) => rest = more,
            None => return false,
        }
    }
    rest.is_empty()
}

// The number that a line is.
fn count_of(line: &[u8]) -> Option<u64> {
    let mut n: u64 = 0;
    for b in line {
        if !b.is_ascii_digit() {
            return None;
        }
        n = n
            .saturating_mul(10)
            .saturating_add(u64::from(b.saturating_sub(b'0')));
    }
    Some(n)
}

// What follows so many lines, where there are as many.
fn behind_lines(bytes: &[u8], n: u64) -> Option<&[u8]> {
    let mut rest = bytes;
    for _ in 0..n {
        match rest.iter().position(|b| *b == b'\n') {
            Some(i) => rest = &rest[i + 1..],
            None => return None,
        }
    }
    Some(rest)
}

// What follows this line, where it is the first.
fn behind_line<'a>(bytes: &'a [u8], line: &[u8]) -> Option<&'a [u8]> {
    bytes.strip_prefix(line)?.strip_prefix(b"\n".as_slice())
}
