//! The SELECTs that fly: each kind's stages, a step of which asks one access.
#![tactic(auto)]

mod faults;
mod flight;
mod groups;
mod listing;
mod reading;
mod refused;
mod rows;
mod rows_emits;
mod rows_sizes;
mod rows_steps;
mod totals;

pub use flight::Flight;
pub use groups::GroupsFlight;
pub use listing::{aggs_at, items_at};
pub use refused::RefusedFlight;
pub use rows::RowsFlight;
pub use totals::TotalsFlight;
