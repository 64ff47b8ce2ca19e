//! The Hash select operator: each selected row goes into one of two buckets of a fresh region, which
//! follow from the index of its slot alone.
#![tactic(auto)]

mod buckets;
mod filling;
mod hashing;
mod placing;
mod selecting;

pub use selecting::{Placed, select};
