//! Bytes are cut into texts, each of which ends with a semicolon outside quotes and comments.
ghost use Rattle.std.specs.Prelude.{◌≡◌, ◌≤◌, ◌-◌, ℕ, List, take, drop, length, false};
ghost use Rattle.ob_token.specs.Cutting as cutting;
ghost use Rattle.ob_token.specs.declared.cut.Mode.TheVariants.{Plain};
ghost use Rattle.ob_token.specs.declared.cut.Piece.TheVariants.{Stmt};
ghost use Rattle.ob_token.specs.Closing.{SemicolonsEndAt};
ghost use Rattle.ob_token.specs.Cutting.{all_blank, blanks, cut_from};
ghost use Rattle.ob_token.specs.Tokens.{tokens_of};

use crate::lex::is_blank_byte;

/// Where a byte of a text stands; after a dash a second one begins a comment.
#[derive(Clone, Copy, Debug, PartialEq, Eq)]
pub enum Mode {
    Plain,
    Dash,
    Comment,
    Quote,
}

/// What bytes begin with. `from` is the offset of the text's first byte that isn't blank, or the length where
/// there is none, and `to` the offset after its semicolon.
#[derive(Clone, Copy, Debug, PartialEq, Eq)]
pub enum Piece {
    /// No text ends in the bytes.
    More { from: usize },
    /// A text.
    Stmt { from: usize, to: usize },
    /// Nothing except blanks and comments before a semicolon, which is no statement.
    Empty { to: usize },
}

/// Where the next byte stands.
pub fn mode_after(mode: Mode, b: u8) -> Mode
    ensures { result ≡ cutting.mode_after mode b }
{
    match (mode, b) {
        (Mode::Plain, b'\'') => Mode::Quote,
        (Mode::Plain, b'-') => Mode::Dash,
        (Mode::Plain, _) => Mode::Plain,
        (Mode::Dash, b'-') => Mode::Comment,
        (Mode::Dash, b'\'') => Mode::Quote,
        (Mode::Dash, _) => Mode::Plain,
        (Mode::Comment, b'\n') => Mode::Plain,
        (Mode::Comment, _) => Mode::Comment,
        (Mode::Quote, b'\'') => Mode::Plain,
        (Mode::Quote, _) => Mode::Quote,
    }
}

/// Whether a byte is the semicolon that ends a text.
pub fn ends_at(mode: Mode, b: u8) -> bool
    ensures { result ≡ cutting.ends_at mode b }
{
    match mode {
        Mode::Plain | Mode::Dash => b == b';',
        Mode::Comment | Mode::Quote => false,
    }
}

/// Whether the text has more than blanks and comments once this byte is read.
pub fn solid_after(mode: Mode, solid: bool, b: u8) -> bool
    ensures { result ≡ cutting.solid_after mode solid b }
{
    match mode {
        Mode::Plain => solid | !(is_blank_byte(b) | (b == b'-')),
        Mode::Dash => solid | (b != b'-'),
        Mode::Comment | Mode::Quote => solid,
    }
}

/// Whether a text that ends here has more than blanks and comments: a lone dash is no comment.
pub fn is_solid(mode: Mode, solid: bool) -> bool
    ensures { result ≡ cutting.is_solid mode solid }
{
    match mode {
        Mode::Dash => true,
        Mode::Plain | Mode::Comment | Mode::Quote => solid,
    }
}

fn blank_len(bytes: &[u8]) -> usize
    ensures value { result ≡ blanks bytes.now }
    ensures within { result ≤ length bytes.now }
{
    for (i, b) in bytes.iter().enumerate() {
        if !is_blank_byte(*b) {
            return i;
        }
    }
    bytes.len()
}

fn ended(from: usize, to: usize, solid: bool) -> Piece
    ensures { result ≡ cutting.ended from to solid }
{
    if solid {
        Piece::Stmt { from, to }
    } else {
        Piece::Empty { to }
    }
}

#[tactic(auto, unfolding(crate::specs::Cutting::cut_from))]
fn cut_at(bytes: &[u8], from: usize) -> Piece
    requires { from ≤ length bytes.now }
    ensures { result ≡ cut_from from from Plain false (drop from bytes.now) }
{
    let mut mode = Mode::Plain;
    let mut solid = false;
    let mut at = from;
    'bytes: while at < bytes.len() {
        let b = bytes[at];
        at += 1;
        if ends_at(mode, b) {
            return ended(from, at, is_solid(mode, solid));
        }
        solid = solid_after(mode, solid, b);
        mode = mode_after(mode, b);
    }
    Piece::More { from }
}

/// The text that the bytes begin with. It takes no memory.
pub fn split(bytes: &[u8]) -> Piece
    ensures { result ≡ cutting.cut bytes.now }
{
    cut_at(bytes, blank_len(bytes))
}

/// Whether there is nothing except blanks and comments. It takes no memory.
#[tactic(auto, unfolding(crate::specs::Cutting::blank_from))]
pub fn is_blank(bytes: &[u8]) -> bool
    ensures { result ≡ all_blank bytes.now }
{
    let mut mode = Mode::Plain;
    let mut solid = false;
    for b in bytes {
        solid = solid_after(mode, solid, *b);
        mode = mode_after(mode, *b);
    }
    !is_solid(mode, solid)
}

/// Cutting and tokens agree on quotes and comments: of the tokens of a text that `split` finds, only the last byte
/// is a semicolon.
pub fn semicolon_is_last()
    ensures { (bytes : List ℕ) (from to : ℕ) → cutting.cut bytes ≡ Stmt from to →
        SemicolonsEndAt (to - from) (tokens_of (take (to - from) (drop from bytes))) }
{}
