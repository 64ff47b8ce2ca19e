//! An engine, and the statements that make, change and keep its tables: sealed tables in a block store that others
//! watch and change.
//!
//! `Engine` has the tables, the vault that keeps their regions, and one buffer of open rows. `start` makes one
//! without a table, `open` one with the tables that an earlier run closed by `close`. CREATE, INSERT, UPDATE, DELETE,
//! DROP and what accesses an index (`serve_index`) are calls of it, and INSERTs into one flat table are that are served
//! together (`insert_batch`); a SELECT over flat tables, and which call a statement is, stand above, in `ob_exec`.
//!
//! What is promised of each is `Serves` of `specs/Serving`, or `ServesSilently` where nothing is emitted, and
//! `ServesBatch` of `specs/Batch` of INSERTs that are served together: the
//! accesses follow from what is public, the statement without its literals and conditions, and what is seen of it,
//! whatever the store answers; and where nobody changed a block, the answer and the tables are those of the meaning.
//! Begin with `specs/Agreeing`, what holds of an engine and its store between two statements, and with `refuse`,
//! `finish` and `cut`, by which each one ends.
#![tactic(auto)]

mod batching;
mod closing;
mod creating;
mod deleting;
mod dropping;
mod engine;
mod indexed;
mod inserting;
mod laws;
mod opening;
mod saving;
mod stop;
mod tables;
mod updating;

pub use engine::{Engine, LATE, seen_to_end};
pub use laws::names_are_apart;
pub use ob_reopen::{CloseErr, Closing, Listed, OpenErr};
pub use ob_verdict::Outcome;
pub use stop::{RunStop, error_of};
pub use tables::table_in;
