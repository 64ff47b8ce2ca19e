//! The Large select operator: a table is copied to a fresh region of its size, which then is read and
//! written again, place by place, with a dummy for each row that isn't selected.
#![tactic(auto)]

mod changing;
mod emptying;
mod selecting;

pub use selecting::select;
