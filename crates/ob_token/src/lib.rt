//! Texts of SQL, their tokens, and where each text ends.
#![tactic(auto)]

mod cut;
mod lex;
mod token;

pub use cut::{
    Mode, Piece, ends_at, is_blank, is_solid, mode_after, semicolon_is_last, solid_after, split,
};
pub use lex::{is_blank_byte, is_printable_byte, tokens};
pub use token::{Lexeme, Mark, Token};
