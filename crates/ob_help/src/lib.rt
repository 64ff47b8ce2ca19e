//! What is told of a program's words, and of words that are none.
#![tactic(auto)]

mod commands;
mod telling;
mod wrong;

pub use commands::Program;
pub use telling::told;
pub use wrong::{WrongWord, wrong_word};
