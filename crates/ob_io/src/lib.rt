//! Where bytes come from and where they go, with a count of the calls that failed.
#![tactic(auto)]

mod sink;
mod source;

pub use sink::{MemSink, Sink, StdSink};
pub use source::{MemSource, Source, StdSource};
