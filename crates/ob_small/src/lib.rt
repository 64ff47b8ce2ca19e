//! The Small select operator: as many selected rows as may be open at once are kept in each pass over a
//! table, and then written to a fresh region.
#![tactic(auto)]

mod collecting;
mod filling;
mod keeping;
mod selecting;
mod writing;

pub use collecting::collect_block;
pub use selecting::{select, select_padded};
pub use writing::write_block;
