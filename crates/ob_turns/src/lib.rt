//! What the program's flights of statements take their words from, and how their answers are printed.
//!
//! `DrawnTurns` gives the words of the program; `FlightPrinter` prints answers one after the other, each with its closing
//! line, and keeps how each statement was answered.
#![tactic(auto)]

mod closing;
mod drawn;
mod printing;

pub use closing::closing_line;
pub use drawn::DrawnTurns;
pub use printing::FlightPrinter;
