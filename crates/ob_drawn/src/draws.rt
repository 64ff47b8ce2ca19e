//! What a session is drawn by.
use crate::pen::Pen;
use crate::settings::Kind;
use rand_chacha::ChaCha8Rng;
use rand_core::{Rng, SeedableRng};

/// The draws of a session, which follow from a seed and from its number alone.
#[derive(Drop)]
pub struct Draws {
    rng: ChaCha8Rng,
    pub kind: Kind,
    /// The table that was named last.
    pub last: &'static str,
    /// Whether that is named again.
    pub stays: bool,
}

impl Draws {
    /// Those of a session of this kind.
    pub fn new(seed: u64, number: u64, kind: Kind) -> Draws {
        let mut rng = ChaCha8Rng::seed_from_u64(seed);
        rng.set_stream(number);
        Draws {
            rng,
            kind,
            last: "",
            stays: false,
        }
    }

    /// A number below this one, or 0 where there is none.
    pub fn below(&mut self, n: usize) -> usize {
        (self.rng.next_u32() as usize).checked_rem(n).unwrap_or(0)
    }

    /// A number from 1 to this one.
    pub fn up_to(&mut self, n: usize) -> usize {
        self.below(n).saturating_add(1)
    }

    /// Whether something comes that does in so many of a hundred cases.
    pub fn chance(&mut self, percent: usize) -> bool {
        self.below(100) < percent
    }

    /// One of these words.
    pub fn one(&mut self, words: &[&'static str]) -> &'static str {
        let at = self.below(words.len());
        words.get(at).copied().unwrap_or("")
    }

    /// The numbers from 0 to 3, of which the first so many come in any order.
    pub fn order(&mut self, n: usize) -> [usize; 4] {
        let mut order = [0, 1, 2, 3];
        for i in 1..4 {
            let other = self.below(i + 1);
            if i < n && other < i {
                order.swap(i, other);
            }
        }
        order
    }

    /// Writes a keyword, after a blank where it isn't the first, in some case: in capitals twice as often as in small
    /// letters, or with a capital first.
    pub fn keyword(&mut self, to: &mut Pen, word: &str) {
        let capitals = match self.below(4) {
            0 | 1 => word.len(),
            2 => 0,
            _ => 1,
        };
        let is_first = to.bytes().is_empty();
        to.put(if is_first { "" } else { " " });
        for (i, b) in word.as_bytes().iter().enumerate() {
            let b = if i < capitals {
                *b
            } else {
                b.to_ascii_lowercase()
            };
            to.write(&[b]);
        }
    }
}
