//! The accesses of each statement, from what is public alone.
#![tactic(auto)]

mod bucket;
mod extent;
mod flights;
mod laws;
mod place;
mod script;
mod section;
mod sections;
mod tree;

pub use bucket::{first_bucket, second_bucket};
pub use flights::{
    flights_end, flights_go_alike, flights_go_on, flights_keep_order, selects_are_steady,
    traces_alone, turns_by_gates,
};
pub use laws::{
    buffers_by_rows, cheapest_is_shortest, joined_asks_nothing, part_lengths, part_makes,
    saved_scripts, scripts_are_short,
};
pub use script::{script_len, script_nth};
pub use tree::tree_blocks;
