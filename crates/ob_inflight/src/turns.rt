//! The words that tell whose turn it is.
ghost use Rattle.std.specs.Prelude.{◌≡◌, ◌+◌, ℕ};

/// Gives words, one for each turn of statements in flight.
pub trait Turns {
    ghost use Rattle.std.specs.Prelude.{ℕ};

    // The words still to come, the next one at 0.
    ghost word: { Self → ℕ → ℕ };

    /// The next word.
    fn next(&mut self) -> u64
        ensures value { result ≡ word self.old 0 }
        ensures rest { (t : ℕ) → word self.new t ≡ word self.old (t + 1) };
}
