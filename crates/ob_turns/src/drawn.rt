//! The words of the program.
ghost use Rattle.std.specs.Prelude.{◌≡◌};
ghost use Rattle.ob_script.specs.Flights;

use ob_inflight::Turns;

/// The words that follow a number: those of a linear congruential sequence modulo 2^64, without their low bits. They go on
/// from flight to flight.
#[derive(Clone, Copy, Debug, PartialEq, Eq)]
pub struct DrawnTurns {
    pub last: u64,
}

// The number that follows in the sequence.
fn next_draw(x: u64) -> u64
    ensures { result ≡ Flights.next_draw x }
{
    x.wrapping_mul(6_364_136_223_846_793_005)
        .wrapping_add(1_442_695_040_888_963_407)
}

impl Turns for DrawnTurns {
    ghost word = { λ turns t. Flights.drawn turns.last t };

    fn next(&mut self) -> u64 {
        self.last = next_draw(self.last);
        self.last >> 33
    }
}
