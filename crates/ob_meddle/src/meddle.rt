//! Changes that others make in a store.

/// A change that others make in a store: what they do, just before which access, counted from 1.
#[derive(Clone, Copy, Debug, PartialEq, Eq)]
pub struct Meddle {
    pub before: u64,
    pub act: Act,
}

/// The block at a place of a region.
#[derive(Clone, Copy, Debug, PartialEq, Eq)]
pub struct Spot {
    pub region: u64,
    pub place: u32,
}

/// What others do in a store.
///
/// An act on a place or byte that isn't there, between blocks of unequal lengths, or on a block of a
/// discarded region has no effect.
#[derive(Clone, Copy, Debug, PartialEq, Eq)]
pub enum Act {
    /// The access answers `Failed` and does nothing.
    Fail,
    /// The lowest bit of a byte of a block is inverted.
    Flip { region: u64, place: u32, byte: u32 },
    /// A block gets the bytes of another, which may lie in a discarded region.
    Copy { from: Spot, to: Spot },
    /// A block gets what stood there before its last write, if there was one.
    Older { region: u64, place: u32 },
}
