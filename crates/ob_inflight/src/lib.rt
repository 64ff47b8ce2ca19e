//! Statements in flight: SELECTs that ask in turns, an access at a time, as words tell whose turn it is.
//!
//! What is promised: whatever each of them turns out to ask, and whatever the store answers, the accesses are those that
//! the words merge of theirs; what each is told and emits is as if the others weren't there; and their answers come in
//! order, one after the other.
//!
//! `Flyer` is a statement that goes on, `fly` the loop of their turns; `Turns` gives the words, and `FlightOut` takes the
//! answers.
#![tactic(auto)]

mod flyer;
mod flying;
mod out;
mod turns;

pub use flyer::Flyer;
pub use flying::{booked_by, fly};
pub use out::FlightOut;
pub use turns::Turns;
