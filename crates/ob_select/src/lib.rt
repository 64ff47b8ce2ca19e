//! A SELECT of rows from one region, a table's or a joined one: it is counted, planned, put into a fresh region
//! by one of the operators, read back, emitted and discarded.
//!
//! What is promised: the accesses are those that follow from the sizes of the region, the settings and what is
//! seen of the selection (its count, its plan and the one after it), and where results are padded nothing is
//! seen of it. Where the store tells what was written, the answer, what is seen and what is emitted are those of
//! the meaning. No region is left except those that there were.
//!
//! `select_from` is the whole of it, over a `Query`; `specs/Selecting` has its contract, `SelectsFrom`, and
//! `specs/Results` that of one result. `printed_places` and `padded_length` are what a caller asks before.
#![tactic(auto)]

mod places;
mod results;
mod selecting;

pub use places::printed_places;
pub use results::padded_length;
pub use selecting::{Query, Selected, select_from};
