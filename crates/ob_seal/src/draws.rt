//! Draws, from the key stream of a seed.
ghost use Rattle.std.specs.Prelude.{◌≡◌, ◌+◌, ◌%◌, ◌^◌};
ghost use Rattle.rand_chacha.specs.ChaCha.{key_of};
ghost use Rattle.ob_seal.specs.Draws.{draw_at};

use rand_chacha::ChaCha20Rng;
use rand_core::SeedableRng;
use rand_core::utils::NextWord;
use std::marker::Model;

/// Random choices of 64 bits, one after the other: each is the next two words of the key stream of a seed
/// (ChaCha20, stream 0), the low word first. They take no memory, and repeat after 2^67.
#[derive(Drop)]
pub struct Draws {
    words: ChaCha20Rng,
}

impl Model for Draws {
    ghost use Rattle.std.specs.Prelude.{◌≡◌, ◌*◌, ◌/◌, ◌%◌, ◌^◌, ◌<◌};
    ghost use Rattle.ob_seal.specs.Draws.{DrawPlace};

    ghost Value = { DrawPlace };

    ghost view = { λ d. record { key = d.words.key; next = d.words.word_pos / 2 } };

    ghost invariant = { λ d. (d.words.stream ≡ 0) × (d.words.word_pos % 2 ≡ 0) × (d.words.word_pos < 2 ^ 68) };
}

impl Draws {
    /// The draws of a seed, from the first on.
    pub fn new(seed: [u8; 32]) -> Draws
        ensures { result ≡ record { key = key_of seed; next = 0 } }
    {
        Draws {
            words: ChaCha20Rng::from_seed(seed),
        }
    }

    /// The next draw.
    pub fn next(&mut self) -> u64
        ensures value { result ≡ draw_at self.old.key self.old.next }
        ensures next { self.new ≡ record self.old { next = (self.old.next + 1) % 2 ^ 67 } }
    {
        let low = self.words.next_word();
        let high = self.words.next_word();
        u64::from(low) + (u64::from(high) << 32)
    }
}
