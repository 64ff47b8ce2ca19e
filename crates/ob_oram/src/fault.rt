//! Why an access of an index stopped.
use thiserror::Error;

/// Why an access stopped: the store failed; a block was not what was last written to its place; or more rows are
/// left over than the stash has slots.
#[derive(Clone, Copy, Debug, PartialEq, Eq, Error)]
pub enum OramErr {
    #[error("the store failed")]
    Failed,
    #[error("the block at place {place} of region {region} was changed")]
    Tampered { region: u64, place: u32 },
    #[error("the stash is full")]
    StashFull,
}
