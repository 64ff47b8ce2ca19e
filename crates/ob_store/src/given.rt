//! What was given up.

/// The last call that gave regions up: all of them from this number on, once so many accesses were asked.
#[derive(Clone, Copy, Debug, PartialEq, Eq)]
pub struct GivenUp {
    pub from: u64,
    pub asked: u64,
}
