//! The text that is being read.
ghost use Rattle.std.specs.Prelude.{◌≡◌, ℕ, ◌<◌, List, [], ◌∷◌, ◌++◌, length, OnOk, OnErr};
ghost use Rattle.ob_headline.specs.Texts.{text_max, rest_after, texts_at, reading_of, has_words};
ghost use Rattle.ob_shell.specs.Pushed.{Pushes};

use ob_token::{Mode, ends_at, is_blank_byte, is_solid, mode_after, solid_after};
use std::alloc::{AllocFailed, Global};
use std::marker::Model;

/// Whether a byte ended a text.
#[derive(Clone, Copy, Debug, PartialEq, Eq)]
pub enum Grown {
    More,
    Whole,
}

/// Why a byte was not taken.
#[derive(Clone, Copy, Debug, PartialEq, Eq)]
pub enum PushStop {
    NoMemory,
    InputLimit,
}

/// What has come of a text, where its next byte stands, and whether it has more than blanks and comments.
#[derive(Drop)]
pub struct Pending {
    text: Vec<u8>,
    mode: Mode,
    solid: bool,
}

impl Model for Pending {
    ghost use Rattle.std.specs.Prelude.{ℕ, List};

    ghost Value = { List ℕ };

    ghost view = { λ p. p.text.items };

    ghost use Rattle.ob_shell.specs.IsPending.{IsPending};

    ghost invariant = { IsPending };
}

impl Pending {
    pub fn new(alloc: Global) -> Pending
        ensures { result ≡ [] }
    {
        Pending {
            text: Vec::new(alloc),
            mode: Mode::Plain,
            solid: false,
        }
    }

    pub fn text(&self) -> &[u8]
        ensures { result.now ≡ self.now }
    {
        self.text.as_slice()
    }

    /// Whether there is more than blanks and comments.
    pub fn has_words(&self) -> bool
        ensures { result ≡ has_words (reading_of self.now) }
    {
        is_solid(self.mode, self.solid)
    }

    pub fn clear(&mut self)
        ensures { self.new ≡ [] }
    {
        self.text.clear();
        self.mode = Mode::Plain;
        self.solid = false;
    }

    // Takes a byte, whatever it is; want of memory leaves the text.
    fn add(&mut self, b: u8) -> Result<(), AllocFailed<u8>>
        ensures ok { OnOk result (self.new ≡ self.old ++ b ∷ []) }
        ensures err { OnErr result (self.new ≡ self.old) }
    {
        self.text.push(b)?;
        self.solid = solid_after(self.mode, self.solid, b);
        self.mode = mode_after(self.mode, b);
        Ok(())
    }

    #[tactic(auto, unfolding(ob_headline::specs::Texts::rest_after, ob_headline::specs::Texts::texts_at))]
    /// Takes one more byte. After `Whole` the text stands here with its semicolon, which is outside quotes and
    /// comments.
    pub fn push(&mut self, b: u8) -> Result<Grown, PushStop>
        requires { length self.old < text_max }
        ensures { Pushes self.old b self.new result }
    {
        let ends = ends_at(self.mode, b);
        if ends && !self.has_words() {
            self.clear();
            return Ok(Grown::More);
        }
        if self.text.is_empty() && is_blank_byte(b) {
            return Ok(Grown::More);
        }
        if self.add(b).is_err() {
            return Err(PushStop::NoMemory);
        }
        if ends {
            Ok(Grown::Whole)
        } else if self.text.len() == 65536 {
            Err(PushStop::InputLimit)
        } else {
            Ok(Grown::More)
        }
    }
}
