//! How the mark of a store and its identity are spelt as text.
#![tactic(auto)]

mod identity;
mod mark;

pub use identity::{Held, NotId, goes_with, held_of, id_of, spell_held, spell_id};
pub use mark::{mark_of, number_of, put, spell};
