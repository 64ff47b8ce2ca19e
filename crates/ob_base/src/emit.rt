//! What takes the rows of an answer.
ghost use Rattle.std.specs.Prelude.{[], ◌∷◌, OnOk, OnErr};
ghost use Rattle.ob_base.specs.Events.{Head, Row, Close, EmitCause, Leads};

use crate::shown::Shown;
use crate::text::Label;
use thiserror::Error;

/// Why an emitter stopped.
#[derive(Clone, Copy, Debug, PartialEq, Eq, Error)]
pub enum EmitErr {
    #[error("the answer could not be written")]
    Failed,
    #[error("out of memory")]
    NoMemory,
}

/// Takes the header of an answer, its rows, and their number.
pub trait Emit {
    ghost use Rattle.std.specs.Prelude.{ℕ, List};
    ghost use Rattle.ob_base.specs.Events.{Event};

    // From the first to the second it took these events.
    ghost grew: { Self → Self → List Event → Type 0 };

    // From the first to the second its output ends within these events.
    ghost cut: { Self → Self → List Event → Type 0 };

    // How many of its calls failed.
    ghost faults: { Self → ℕ };

    /// Takes the labels of the columns.
    fn head(&mut self, cols: &[Label]) -> Result<(), EmitErr>
        ensures ok { OnOk result (Leads grew grew self.old self.new (Head cols.now ∷ [])) }
        ensures err { OnErr result (Leads grew cut self.old self.new (Head cols.now ∷ [])) }
        ensures cause { EmitCause result (faults self.old) (faults self.new) };

    /// Takes a row.
    fn row(&mut self, cells: &[Shown]) -> Result<(), EmitErr>
        ensures ok { OnOk result (Leads grew grew self.old self.new (Row cells.now ∷ [])) }
        ensures err { OnErr result (Leads grew cut self.old self.new (Row cells.now ∷ [])) }
        ensures cause { EmitCause result (faults self.old) (faults self.new) };

    /// Takes the number of the rows, which ends the answer.
    fn close(&mut self, k: u64) -> Result<(), EmitErr>
        ensures ok { OnOk result (Leads grew grew self.old self.new (Close k ∷ [])) }
        ensures err { OnErr result (Leads grew cut self.old self.new (Close k ∷ [])) }
        ensures cause { EmitCause result (faults self.old) (faults self.new) };

    ghost starts: { (s : Self) → grew s s [] };
}
