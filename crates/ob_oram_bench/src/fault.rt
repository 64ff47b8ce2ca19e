//! Why the program ended early.
use ob_flat::OpErr;
use ob_oram::OramErr;
use std::alloc::AllocError;
use std::io;
use thiserror::Error;

/// Why the program ended before its input did.
#[derive(Clone, Copy, Debug, PartialEq, Eq, Error)]
pub(crate) enum Fault {
    #[error("usage: LETTER KEYS BYTES SLOTS COUNT SEED")]
    Usage,
    #[error("the input or the output failed")]
    Io,
    #[error("out of memory")]
    NoMemory,
    #[error("no index was made: {0}")]
    Create(OpErr),
    #[error("an access stopped: {0}")]
    Access(OramErr),
    #[error("an access answered otherwise than a map")]
    Differs,
}

impl From<io::Error> for Fault {
    fn from(_: io::Error) -> Fault {
        Fault::Io
    }
}

impl From<AllocError> for Fault {
    fn from(_: AllocError) -> Fault {
        Fault::NoMemory
    }
}
