//! Rows that lie open during an access.

/// A row that lies open: its key, and its key's leaf.
#[derive(Clone, Copy, Debug, PartialEq, Eq)]
pub struct Held {
    pub key: u32,
    pub leaf: u32,
}

// The key of an access, or how many keys there are where it is none of them, and the leaf that it gets.
#[derive(Clone, Copy)]
pub(crate) struct Remap {
    pub(crate) key: u32,
    pub(crate) leaf: u32,
}
