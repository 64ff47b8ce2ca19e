//! An index of rows by their keys, after Path ORAM (Stefanov and others, CCS 2013): what it is in a store, how one
//! with no row is made, how a row of it is read, put in, changed or taken out, and how it is discarded. An access
//! that stops ends the index.
#![tactic(auto)]

mod accessing;
mod creating;
mod discarding;
mod fault;
mod held;
mod index;
mod laws;
mod op;
mod opening;
mod placing;
mod reading;
mod serving;
mod walk;
mod writing;

pub use accessing::access;
pub use creating::create;
pub use discarding::discard;
pub use fault::OramErr;
pub use held::Held;
pub use index::Index;
pub use laws::{access_begun, access_short, accesses_read_draws, index_lasts, scripts_join};
pub use op::{Cells, Got, Op};
pub use placing::place;
