//! Why a line is not done.
use ob_flat::OpErr;
use std::alloc::AllocError;
use thiserror::Error;

/// The line says nothing that is known here, or asks for more than is done; memory ran out; or a pass gave up.
#[derive(Clone, Copy, Debug, Error)]
pub(crate) enum Stop {
    #[error("not read")]
    Unread,
    #[error("no memory for the line")]
    Memory,
    #[error("({0})")]
    Pass(OpErr),
}

impl From<AllocError> for Stop {
    fn from(_error: AllocError) -> Stop {
        Stop::Memory
    }
}

impl From<OpErr> for Stop {
    fn from(error: OpErr) -> Stop {
        Stop::Pass(error)
    }
}
