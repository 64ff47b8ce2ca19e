//! The cases of a file.
use crate::case::{Case, LineErr};
use std::alloc::Global;

/// Why a file can't be taken: the number of its first line that is none of a case, from 1, and why.
#[derive(Drop)]
pub struct FileErr {
    pub line: u64,
    pub error: LineErr,
}

/// A case, with its lines as they stand in the file.
#[derive(Drop)]
pub struct Lines<'a> {
    pub case: Case,
    pub lines: Vec<&'a str>,
    /// The number of its first line, from 1.
    pub first: u64,
}

impl Lines<'_> {
    pub fn name(&self) -> &str {
        self.case.name.as_str()
    }

    /// Whether the case is of runs over one store.
    pub fn is_kept(&self) -> bool {
        self.case.keeper.is_some()
    }

    /// The input of its first run.
    pub fn input(&self) -> &[u8] {
        match self.case.runs.first() {
            Some(run) => run.input.as_slice(),
            None => b"",
        }
    }
}

/// The cases of a file, in order. A line `case NAME` begins one; blank lines, and lines that begin with `#`,
/// are passed over.
pub fn cases_of<'a>(alloc: Global, text: &'a str) -> Result<Vec<Lines<'a>>, FileErr> {
    let mut cases = Vec::new(alloc);
    for (i, line) in text.lines().enumerate() {
        let number = (i as u64).saturating_add(1);
        match take_line(alloc, &mut cases, number, line) {
            Ok(()) => {}
            Err(error) => {
                return Err(FileErr {
                    line: number,
                    error,
                });
            }
        }
    }
    Ok(cases)
}

// Takes a line of this number into the last case, or begins the next one.
fn take_line<'a>(
    alloc: Global,
    cases: &mut Vec<Lines<'a>>,
    number: u64,
    line: &'a str,
) -> Result<(), LineErr> {
    if line.is_empty() || line.starts_with('#') {
        return Ok(());
    }
    if let Some(name) = line.strip_prefix("case ") {
        let case = Case::new(alloc, name)?;
        let begun = Lines {
            case,
            lines: Vec::new(alloc),
            first: number,
        };
        return match cases.push(begun) {
            Ok(()) => Ok(()),
            Err(_) => Err(LineErr::NoMemory),
        };
    }
    match cases.last_mut() {
        Some(last) => {
            last.case.take(alloc, line)?;
            match last.lines.push(line) {
                Ok(()) => Ok(()),
                Err(_) => Err(LineErr::NoMemory),
            }
        }
        None => Err(LineErr::Form),
    }
}
