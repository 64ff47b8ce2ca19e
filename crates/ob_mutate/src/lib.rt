//! The passes that change a table: each writes all of its blocks anew to a fresh region, changed or not,
//! which is the table's then.
#![tactic(auto)]

mod admitting;
mod assigning;
mod batch;
mod deleting;
mod inserting;
mod noting;
mod putting;
mod rewriting;
mod searching;
mod settling;
mod updating;

pub use batch::insert_all;
pub use deleting::delete;
pub use inserting::{Inserted, insert};
pub use settling::{Former, leave};
pub use updating::update;
