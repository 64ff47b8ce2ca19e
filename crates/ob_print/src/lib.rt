//! Answers, refusals, stops and accesses as lines in a sink.
#![tactic(auto)]

mod line;
mod pieces;
mod printer;
mod row;
mod write;

pub use line::{Line, access_line, refusal_line, stop_line};
pub use pieces::Pieces;
pub use printer::Printer;
pub use row::RecordLine;
pub use write::write_all;
