//! Stores that tests look into.
#![tactic(auto)]

mod keeping;

pub use keeping::{Block, KeepingStore};
