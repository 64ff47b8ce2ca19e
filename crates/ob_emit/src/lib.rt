//! Emission: the rows of a table, read block by block, in order of their slots.
#![tactic(auto)]

mod emission;
mod emitting;
mod head;
mod row;
mod slots;
mod walking;

pub use emission::emit_all;
pub use emitting::emit_block;
pub use head::emit_head;
pub use walking::{walk, walk_block};
