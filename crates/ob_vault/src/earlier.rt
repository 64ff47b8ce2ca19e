//! Regions of an earlier run.

/// A region of an earlier run that is live again: its places were written in order, the first of them
/// under this number.
#[derive(Clone, Copy)]
pub struct Earlier {
    pub region: u64,
    pub blocks: u32,
    pub first: u64,
}
