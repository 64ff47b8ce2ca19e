//! The text that is served where no input is read, and the summary of a run over it.
#![tactic(auto)]

mod digest;
mod discard;
mod generated;
mod lines;
mod summary;
mod tally;

pub use digest::{Digester, TraceDigest, Undigested};
pub use discard::Discard;
pub use generated::Generated;
pub use summary::Summary;
pub use tally::Tally;
