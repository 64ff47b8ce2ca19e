//! What the names of a statement mean: a column among those of its tables, and the kind that it has.
#![tactic(auto)]

mod joined;
mod kinds;
mod named;
mod names;
mod scope;

pub use joined::{left_place, place_of, right_place};
pub use kinds::{
    are_alike, is_against_too_large, is_number, is_wrong_comparison, overflows, takes,
};
pub use named::{Named, has_name, has_repeats, lack_column, mistype, overflow};
pub use names::{column_at, columns_at, has_table, heading_at, means_one, unqualified};
pub use scope::Scope;
