//! What statements mean, on tables as bags of rows.
#![tactic(auto)]

mod answer;
mod condition;
mod conds;
mod creates;
mod early;
mod items;
mod keyed;
mod laws;
mod listed;
mod parts;
mod sources;
mod values;

pub use answer::Answer;
pub use condition::{literal_cell, where_at};
pub use creates::new_schema;
pub use early::early_refusal;
pub use items::{agg_in, agg_of, item_in, item_of};
pub use keyed::{is_index, key_asked};
pub use laws::meaning_is_of_bags;
pub use values::{new_row, set_cell};
