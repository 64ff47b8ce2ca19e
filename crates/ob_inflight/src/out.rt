//! What takes the answers of statements in flight.
ghost use Rattle.std.specs.Prelude.{OnOk, OnErr};
ghost use Rattle.ob_base.specs.Events.{EmitCause};
ghost use Rattle.ob_inflight.specs.Answers.{HasFewRows};

use ob_base::{Emit, EmitErr};
use ob_verdict::Outcome;

/// Takes the rows of several statements' answers, one answer after the other, and how each statement ended.
pub trait FlightOut: Emit {
    ghost use Rattle.std.specs.Prelude.{ℕ};
    ghost use Rattle.ob_verdict.specs.declared.outcome.Outcome.{Outcome as AnOutcome};

    // From the first to the second it took that the statement at this place ended so.
    ghost closed: { Self → Self → ℕ → AnOutcome → Type 0 };

    // From the first to the second its output ends within that.
    ghost parted: { Self → Self → ℕ → AnOutcome → Type 0 };

    /// Takes how the statement at a place, from 0, was answered; of rows, which it took before, the number fits 32 bits.
    fn ended(&mut self, place: u32, outcome: &Outcome) -> Result<(), EmitErr>
        requires few { HasFewRows outcome.now }
        ensures ok { OnOk result (closed self.old self.new place outcome.now) }
        ensures err { OnErr result (parted self.old self.new place outcome.now) }
        ensures cause { EmitCause result (Self.faults self.old) (Self.faults self.new) };
}
