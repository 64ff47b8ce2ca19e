//! What takes the answers of a flight.
ghost use Rattle.ob_base.specs.Events.{EmitCause};

use crate::shown::{put_cell, put_text};
use ob_base::{Emit, EmitErr, Label, Refusal, Shown};
use ob_inflight::FlightOut;
use ob_print::refusal_line;
use ob_verdict::Outcome;
use std::alloc::AllocError;

/// Writes out headers, rows, their numbers, and how each statement ended.
#[derive(Drop)]
pub(crate) struct Answers {
    pub(crate) text: String,
}

// What the emitter answers to what was written.
fn taken(written: Result<(), AllocError>) -> Result<(), EmitErr>
    ensures { EmitCause result 0 0 }
{
    match written {
        Ok(()) => Ok(()),
        Err(_) => Err(EmitErr::NoMemory),
    }
}

fn put_labels(out: &mut String, labels: &[Label]) -> Result<(), AllocError> {
    for label in labels {
        out.push_str(str::from_utf8(label.as_bytes()).unwrap_or("?"))?;
        out.push_str(" ")?;
    }
    Ok(())
}

fn put_cells(out: &mut String, cells: &[Shown]) -> Result<(), AllocError> {
    out.push_str("|")?;
    for cell in cells {
        put_cell(out, cell)?;
    }
    out.push_str(" ")
}

fn put_refusal(out: &mut String, refusal: Refusal) -> Result<(), AllocError> {
    put_text(out, &refusal_line(refusal))?;
    out.push_str(" ")
}

fn put_ended(out: &mut String, place: u32, outcome: &Outcome) -> Result<(), AllocError> {
    match outcome {
        Outcome::Rows(_) => {}
        Outcome::Refused(refusal) => put_refusal(out, *refusal)?,
        Outcome::Created
        | Outcome::Inserted
        | Outcome::Changed(_)
        | Outcome::Deleted(_)
        | Outcome::Dropped => out.push_str("? ")?,
    }
    write!(out, "by {place}\n")
}

impl Emit for Answers {
    ghost use Rattle.std.specs.Prelude.{⊤};

    ghost grew = { λ a b events. ⊤ };

    ghost cut = { λ a b events. ⊤ };

    ghost faults = { λ d. 0 };

    ghost starts = { λ d. tt };

    fn head(&mut self, cols: &[Label]) -> Result<(), EmitErr> {
        taken(put_labels(&mut self.text, cols))
    }

    fn row(&mut self, cells: &[Shown]) -> Result<(), EmitErr> {
        taken(put_cells(&mut self.text, cells))
    }

    fn close(&mut self, k: u64) -> Result<(), EmitErr> {
        taken(write!(self.text, "= {k} rows "))
    }
}

impl FlightOut for Answers {
    ghost use Rattle.std.specs.Prelude.{⊤};

    ghost closed = { λ a b place outcome. ⊤ };

    ghost parted = { λ a b place outcome. ⊤ };

    fn ended(&mut self, place: u32, outcome: &Outcome) -> Result<(), EmitErr> {
        taken(put_ended(&mut self.text, place, outcome))
    }
}
