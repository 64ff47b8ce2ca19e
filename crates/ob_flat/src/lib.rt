//! Flat tables, after the flat storage method of ObliDB (Eskandarian and Zaharia, PVLDB 13(2), 2019):
//! an array of slots in sealed blocks, and the passes over all of its blocks in order, whose accesses
//! follow from its schema, its capacity and the number of rows of a block alone.
#![tactic(auto)]

mod change;
mod checking;
mod clearing;
mod counting;
mod creating;
mod fault;
mod flat;
mod rework;
mod scan;
mod swap;
mod visit;

pub use change::{Change, change_rows};
pub use checking::check_rows;
pub use clearing::{clear_row, clear_rows, copy_row};
pub use counting::{Counted, count};
pub use creating::{create, create_blocks, fill_blocks, make_table};
pub use fault::OpErr;
pub use flat::{Flat, discard};
pub use rework::{Rework, rework_block};
pub use scan::{scan_block, scan_blocks};
pub use swap::swap_blocks;
pub use visit::Visit;
