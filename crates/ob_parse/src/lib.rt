//! The grammar of the language, and a parser that reads exactly that.
#![tactic(auto)]

mod change;
mod outline;
mod parser;
mod part;
mod select;

pub use outline::skeleton;
pub use parser::{ParseErr, one_statement, parse, three_forms};
