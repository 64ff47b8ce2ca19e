//! The Continuous select operator, named after that of ObliDB (Eskandarian and Zaharia, PVLDB 13(2),
//! 2019): each slot of a table has one place in a fresh region, which is read and written whether or not
//! the slot's row is selected.
#![tactic(auto)]

mod filling;
mod putting;
mod selecting;

pub use selecting::select;
