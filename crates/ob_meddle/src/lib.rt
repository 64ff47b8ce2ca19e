//! A store in memory that others change.
#![tactic(auto)]

mod acts;
mod blocks;
mod caught;
mod changes;
mod due;
mod laws;
mod meddle;
mod region;
mod regions;
mod store;

pub use changes::{ChangesErr, number, parse_changes, parted};
pub use laws::{changes_show, meddled_tells};
pub use meddle::{Act, Meddle, Spot};
pub use store::MeddledStore;
