//! The join of two tables by equal cells: as many left rows as may be open at once are kept, and each
//! right row is joined with the first of them that agrees with it.
#![tactic(auto)]

mod collecting;
mod filling;
mod joining;
mod pairing;
mod sides;
mod tables;

pub use tables::join;
