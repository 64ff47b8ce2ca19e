//! Serves the sessions that the named files spell, each over a store in memory that others change as its words say, and
//! runs that keep or save their tables, each over what the one before it left; serves each as often again as lines `each ..`
//! say; and compares what comes of them. Prints each that differs, and last how many did not. The exit status is 0 where
//! none differs, 1 where one does, and 2 where a file can't be read or has another form.
#![tactic(auto)]

mod case;
mod compare;
mod cuts;
mod each;
mod file;
mod items;
mod serving;
mod texts;
mod unwritten;

use case::{Case, LineErr, Part};
use each::made;
use file::Lines;
use serving::{Served, serve};
use std::alloc::Global;
use std::io::{self, Print, Write};
use std::process::ExitCode;
use std::rt::{Env, Files};
use std::{env, fs};

/// How many cases came out as they should, and how many differ.
#[derive(Clone, Copy, Debug, PartialEq, Eq)]
struct Tally {
    passed: u64,
    differ: u64,
    // How many of those that passed differ as they have to.
    noticed: u64,
}

/// Why not all cases were served.
#[derive(Drop)]
enum Fault {
    Io(io::Error),
    Line(LineErr),
}

impl From<io::Error> for Fault {
    fn from(error: io::Error) -> Fault {
        Fault::Io(error)
    }
}

impl From<LineErr> for Fault {
    fn from(error: LineErr) -> Fault {
        Fault::Line(error)
    }
}

// Prints a case that differs, with what came of it.
fn print_case<R: Print>(rt: &R, file: &str, case: &Case, served: &Served) -> io::Result<()> {
    let mut out = io::writer(rt);
    let part = match served.differs {
        Some(part) => part.word(),
        None => "nothing",
    };
    let name = case.name.as_str();
    println!(rt; "{file}: {name}: {part} differs")?;
    out.write_all(served.answers.as_slice())?;
    out.write_all(served.trace.as_slice())?;
    Ok(())
}

// Serves a case, in which this part may differ.
fn serve_case<R: Print>(
    rt: &R,
    alloc: Global,
    file: &str,
    case: &Case,
    differs: Option<Part>,
    tally: Tally,
) -> Result<Tally, Fault> {
    let served = serve(alloc, case)?;
    let mut tally = tally;
    if served.differs.is_none() {
        tally.passed = tally.passed.saturating_add(1);
    } else if served.differs == differs {
        tally.passed = tally.passed.saturating_add(1);
        tally.noticed = tally.noticed.saturating_add(1);
    } else {
        tally.differ = tally.differ.saturating_add(1);
        print_case(rt, file, case, &served)?;
    }
    Ok(tally)
}

// Serves a case and those that its lines make, of which as many have to differ as it says.
fn serve_lines<R: Print>(
    rt: &R,
    alloc: Global,
    file: &str,
    lines: &Lines,
    tally: Tally,
) -> Result<Tally, Fault> {
    let Ok(others) = made(alloc, lines) else {
        println!(rt; "{file}: the case at line {} makes none", lines.first)?;
        return Err(Fault::Line(LineErr::Form));
    };
    let differs = lines.case.differs;
    let before = tally.noticed;
    let mut tally = serve_case(rt, alloc, file, &lines.case, differs, tally)?;
    for case in &others {
        tally = serve_case(rt, alloc, file, case, differs, tally)?;
    }
    let noticed = tally.noticed.saturating_sub(before);
    if noticed != lines.case.differing {
        tally.differ = tally.differ.saturating_add(1);
        println!(rt; "{file}: {}: {noticed} differ", lines.case.name)?;
    }
    Ok(tally)
}

// Serves the cases of a file.
fn serve_file<R: Print + Files + AllocGlobal>(
    rt: &R,
    name: &str,
    tally: Tally,
) -> Result<Tally, Fault> {
    let alloc = rt.alloc();
    let text = fs::read_to_string(rt, name)?;
    let mut tally = tally;
    let cases = match file::cases_of(alloc, text.as_str()) {
        Ok(cases) => cases,
        Err(bad) => {
            println!(rt; "{name}: line {} is none of a case", bad.line)?;
            return Err(Fault::Line(bad.error));
        }
    };
    for lines in &cases {
        tally = serve_lines(rt, alloc, name, lines, tally)?;
    }
    Ok(tally)
}

// Serves the files of the command line.
fn serve_all<R: Env + Print + Files + AllocGlobal>(rt: &R) -> Result<Tally, Fault> {
    let mut tally = Tally {
        passed: 0,
        differ: 0,
        noticed: 0,
    };
    for name in env::args(rt)?.skip(1) {
        tally = serve_file(rt, name.as_str(), tally)?;
    }
    println!(rt; "{} cases passed, {} differ", tally.passed, tally.differ)?;
    Ok(tally)
}

fn main(rt: HostRuntime) -> ExitCode {
    match serve_all(&rt) {
        Ok(tally) if tally.differ == 0 => ExitCode::from(0),
        Ok(_) => ExitCode::from(1),
        Err(_) => ExitCode::from(2),
    }
}
