//! What takes the answer of a pass, and how its cells are printed.
ghost use Rattle.ob_base.specs.Events.{EmitCause};

use ob_base::{Emit, EmitErr, Label, Shown};
use std::alloc::{AllocError, Global};

/// Writes out header and rows, and stops after so many calls.
#[derive(Drop)]
pub(crate) struct Shower {
    pub(crate) text: String,
    calls: u32,
    fault: EmitErr,
    faults: u64,
}

/// How many calls are taken, and what the next one answers.
pub(crate) type Calls = (u32, EmitErr);

impl Shower {
    /// Nothing was taken.
    pub(crate) fn new(alloc: Global, calls: Calls) -> Shower {
        Shower {
            text: String::new(alloc),
            calls: calls.0,
            fault: calls.1,
            faults: 0,
        }
    }

    // One call more, or the fault.
    fn take(&mut self) -> Result<(), EmitErr>
        ensures { EmitCause result self.old.faults self.new.faults }
    {
        match self.calls.checked_sub(1) {
            Some(calls) => {
                self.calls = calls;
                Ok(())
            }
            None => {
                if self.fault == EmitErr::Failed {
                    self.faults = self.faults.saturating_add(1);
                }
                Err(self.fault)
            }
        }
    }
}

fn push_labels(out: &mut String, labels: &[Label]) -> Result<(), AllocError> {
    for label in labels {
        out.push_str(str::from_utf8(label.as_bytes()).unwrap_or("?"))?;
        out.push_str(" ")?;
    }
    Ok(())
}

/// Writes cells out.
pub(crate) fn push_cells(out: &mut String, cells: &[Shown]) -> Result<(), AllocError> {
    for cell in cells {
        match cell {
            Shown::Int(x) => write!(out, "{x} ")?,
            Shown::Text(text) => {
                let text = str::from_utf8(text.as_bytes()).unwrap_or("?");
                write!(out, "'{text}' ")?;
            }
            Shown::Null => out.push_str("NULL ")?,
        }
    }
    Ok(())
}

fn push_row(out: &mut String, cells: &[Shown]) -> Result<(), AllocError> {
    out.push_str("| ")?;
    push_cells(out, cells)
}

impl Emit for Shower {
    ghost use Rattle.std.specs.Prelude.{⊤};

    ghost grew = { λ a b events. ⊤ };

    ghost cut = { λ a b events. ⊤ };

    ghost faults = { λ w. w.faults };

    ghost starts = { λ w. tt };

    fn head(&mut self, cols: &[Label]) -> Result<(), EmitErr> {
        self.take()?;
        match push_labels(&mut self.text, cols) {
            Ok(()) => Ok(()),
            Err(_) => Err(EmitErr::NoMemory),
        }
    }

    fn row(&mut self, cells: &[Shown]) -> Result<(), EmitErr> {
        self.take()?;
        match push_row(&mut self.text, cells) {
            Ok(()) => Ok(()),
            Err(_) => Err(EmitErr::NoMemory),
        }
    }

    fn close(&mut self, _k: u64) -> Result<(), EmitErr> {
        self.take()
    }
}
