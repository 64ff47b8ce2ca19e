//! Failed calls and want of memory, which all crates share.
use thiserror::Error;

/// A call to the outside that failed, as one on a store, a source or a sink.
#[derive(Clone, Copy, Debug, PartialEq, Eq, Error)]
#[error("a call to the outside failed")]
pub struct Failed;

/// Want of memory.
#[derive(Clone, Copy, Debug, PartialEq, Eq, Error)]
#[error("out of memory")]
pub struct NoMemory;

/// Why a store made no region.
#[derive(Clone, Copy, Debug, PartialEq, Eq, Error)]
pub enum StoreErr {
    #[error("the store failed")]
    Failed,
    #[error("out of memory")]
    NoMemory,
}

impl From<Failed> for StoreErr {
    ghost use Rattle.std.specs.Prelude.{◌≡◌};
    ghost use Rattle.ob_base.specs.declared.fault.StoreErr.TheVariants as StoreErrs;

    ghost from_gives = { λ _ e. e ≡ StoreErrs.Failed };

    fn from(_: Failed) -> Self {
        StoreErr::Failed
    }
}
