//! Statements over the tables of an engine, in a block store that others watch and change: SELECT of rows, from a
//! table or a join, SELECT of totals, `run`, which carries out any statement, `run_batch`, which serves INSERTs together, and
//! `run_flight`, which carries out SELECTs that ask in turns.
//!
//! What is promised of `run` is `Ran` of `specs/Ran`: its accesses follow from what is public, the statement without its
//! literals and conditions, and what is seen of it, whatever the store answers; and where nobody changed a block, its
//! answer is that of the meaning. Where tables are saved, what it is handed as `Commit` does so before the answer
//! (`SavesTables` of `specs/Saving`), as `CommitTo` a keeper; else it is handed `NoCommit`. Of `run_batch` the same is promised
//! by `RanBatch`: what the first of a batch does is what they all do. Of `run_flight` it is promised by `RanFlight`: the accesses
//! are those of its statements, merged by the words that say whose turn it is, and each is answered as if it were alone.
//!
//! `running` begins each statement, by what is refused before any access, by the index that it accesses, and else
//! by its kind: what makes or changes a table is a call of `ob_tables`. `rows` and `totals` are the SELECTs;
//! `specs/Sources` says what is done of the rows of a source (`SelectsRows`), and `specs/Totalling` of totals.
//! `gathering` says which INSERTs are served together, and `batching` serves them. `saving` saves the tables after a
//! statement, by what `commit` says becomes of them. `boarding` makes SELECTs ready for a flight, and `flying` carries it out.
#![tactic(auto)]

mod batching;
mod boarding;
mod commit;
mod flying;
mod gathering;
mod rows;
mod running;
mod saving;
mod totalling;
mod totals;

pub use batching::run_batch;
pub use commit::{Commit, CommitTo, NoCommit};
pub use flying::run_flight;
pub use gathering::{batch_most, begins_batch};
pub use ob_tables::{
    CloseErr, Closing, Engine, Listed, OpenErr, Outcome, RunStop, names_are_apart,
};
pub use running::run;
