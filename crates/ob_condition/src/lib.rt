//! The grammar of conditions and of what they are made of, over tokens, and readers of exactly that.
#![tactic(auto)]

mod condition;
mod reader;

pub use condition::{column, constant, where_part};
pub use reader::{Fault, expect, name, number, skip};
