//! Why a line has no flight.
use std::alloc::AllocError;

#[derive(Clone, Copy)]
pub(crate) enum Fault {
    /// It isn't written as it has to be, or its statements may not fly.
    Usage,
    NoMemory,
    /// The table wasn't filled.
    Unfilled,
}

impl From<AllocError> for Fault {
    fn from(_: AllocError) -> Fault {
        Fault::NoMemory
    }
}
