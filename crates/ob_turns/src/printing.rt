//! The answers of statements in flight.
ghost use Rattle.std.specs.Prelude.{◌≡◌};
ghost use Rattle.ob_headline.specs.Closing.{closing_line};
ghost use Rattle.ob_print.specs.Rows.{Printed, PrintedCut};
ghost use Rattle.ob_print.specs.Sent.{Sends};
ghost use Rattle.ob_turns.specs.Kept.{IsKept};

use crate::closing::closing_line;
use ob_base::{Emit, EmitErr, Failed, Label, Shown};
use ob_inflight::FlightOut;
use ob_io::Sink;
use ob_print::Printer;
use ob_verdict::Outcome;

// Notes how the statement at a place was answered, where there is room for it.
fn keep(outcomes: &mut [Outcome], place: u32, outcome: Outcome)
    ensures { IsKept place outcome outcomes.old outcomes.new }
{
    if (place as usize) < outcomes.len() {
        outcomes[place as usize] = outcome;
    }
}

/// Prints answers one after the other, each with the line that ends it, and keeps how the statement at each place was
/// answered, where there is room for it.
#[derive(Drop)]
pub struct FlightPrinter<'a, K: Sink> {
    pub printer: Printer<'a, K>,
    pub outcomes: &'a mut [Outcome],
}

impl<'a, K: Sink> Emit for FlightPrinter<'a, K> {
    ghost grew = { λ s t events. Printed (K.written s.printer.out.out.now) (K.written t.printer.out.out.now) s.printer.out.waiting.items t.printer.out.waiting.items events × (t.printer.out.out.ghost_name ≡ s.printer.out.out.ghost_name) × (t.outcomes.now ≡ s.outcomes.now) };

    ghost cut = { λ s t events. PrintedCut (K.written s.printer.out.out.now) (K.written t.printer.out.out.now) s.printer.out.waiting.items t.printer.out.waiting.items events × (t.printer.out.out.ghost_name ≡ s.printer.out.out.ghost_name) };

    ghost faults = { λ s. K.faults s.printer.out.out.now };

    fn head(&mut self, cols: &[Label]) -> Result<(), EmitErr> {
        self.printer.head(cols)
    }

    fn row(&mut self, cells: &[Shown]) -> Result<(), EmitErr> {
        self.printer.row(cells)
    }

    fn close(&mut self, k: u64) -> Result<(), EmitErr> {
        self.printer.close(k)
    }

    ghost use Rattle.std.specs.Prelude.{refl};
    ghost use Rattle.ob_print.specs.Rows.{printed_none};

    ghost starts = { λ s. (printed_none (K.written s.printer.out.out.now) s.printer.out.waiting.items, refl, refl) };
}

impl<'a, K: Sink> FlightOut for FlightPrinter<'a, K> {
    // its line came after what waited for the sink
    ghost closed = { λ s t place outcome. Sends (K.written s.printer.out.out.now) (K.written t.printer.out.out.now) s.printer.out.waiting.items t.printer.out.waiting.items ⊥ (closing_line outcome) × (t.printer.out.out.ghost_name ≡ s.printer.out.out.ghost_name) × IsKept place outcome s.outcomes.now t.outcomes.now };

    // a first part of it did
    ghost parted = { λ s t place outcome. Sends (K.written s.printer.out.out.now) (K.written t.printer.out.out.now) s.printer.out.waiting.items t.printer.out.waiting.items (Unit {0}) (closing_line outcome) × (t.printer.out.out.ghost_name ≡ s.printer.out.out.ghost_name) };

    fn ended(&mut self, place: u32, outcome: &Outcome) -> Result<(), EmitErr> {
        keep(self.outcomes, place, *outcome);
        match self
            .printer
            .out
            .write_all(closing_line(*outcome).as_bytes())
        {
            Ok(()) => Ok(()),
            Err(Failed) => Err(EmitErr::Failed),
        }
    }
}
