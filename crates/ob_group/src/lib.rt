//! Aggregates and groups: COUNT, SUM, MIN and MAX over the rows of a table, or over those of each key, in
//! one pass over its blocks.
#![tactic(auto)]

mod accs;
mod aggregation;
mod emitting;
mod fields;
mod grouping;
mod groups;
mod head;
mod keeping;
mod reading;
mod totals;

pub use accs::Accs;
pub use aggregation::{Sums, aggregate, aggregate_block};
pub use emitting::{emit_groups, emit_totals};
pub use grouping::{Grouped, group};
pub use head::agg_label;
pub use reading::group_block;
