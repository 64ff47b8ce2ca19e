//! Statements on an index: an INSERT, or an UPDATE, DELETE or SELECT of rows that names a key, is one access of the
//! index.
//!
//! `serve` makes the access, by what the statement asks of the index (`GoneBy`). By the law `keyed_serves` that is
//! `ServesKeyed` of `specs/Serving`: what was asked and which leaf was read, whatever the store answers, and where nobody
//! changed a block, what the access of SQL's meaning answers and leaves. `outcome_of_got` and `emit_found` tell the
//! answer, `seen_whole` and `seen_cut` what a watcher sees. What follows among the tables of an engine say `keyed_shows`,
//! of all that is public, `keyed_means`, of what the statement means, and `found_prints`, of what is printed.
#![tactic(auto)]

mod answering;
mod asking;
mod emitting;
mod keyed;
mod laws;
mod seeing;
mod serving;

pub use answering::outcome_of_got;
pub use asking::sought;
pub use emitting::emit_found;
pub use keyed::Keyed;
pub use laws::{access_told, found_prints, keyed_means, keyed_serves, keyed_shows};
pub use seeing::{seen_cut, seen_whole};
pub use serving::{accesses, serve};
