//! Whose turn it is.
use ob_inflight::Turns;

/// The words 0 and 1 by turns.
#[derive(Drop)]
pub(crate) struct InTurn {
    pub(crate) odd: bool,
}

impl Turns for InTurn {
    ghost use Rattle.std.specs.Prelude.{◌+◌, ◌%◌};
    ghost use Rattle.ob_script.specs.FlightLaws.{one_if};

    ghost word = { λ turns t. (one_if turns.odd + t) % 2 };

    fn next(&mut self) -> u64 {
        let word = u64::from(self.odd);
        self.odd = !self.odd;
        word
    }
}
