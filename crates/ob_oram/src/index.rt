//! An index: a tree of buckets, a stash and the leaves of the keys.
use crate::held::Held;
use ob_base::Schema;

/// An index of the rows of a table by their primary key: a tree of buckets of 4 blocks and a stash, two sealed
/// regions of one row a block. A row lies in a bucket on the path to its key's leaf, or in the stash. The leaves
/// of the keys lie in the index itself, which takes memory only where it is made.
#[derive(Drop)]
pub struct Index {
    /// The columns of a row.
    pub schema: Schema,
    /// The keys are the numbers from 0 to `capacity - 1`.
    pub capacity: u32,
    /// The place of the primary key.
    pub key: u8,
    /// The slots of the stash.
    pub slots: u32,
    /// The tree has `2^height` leaves.
    pub height: u32,
    /// The region of the tree.
    pub tree: u64,
    /// The region of the stash.
    pub stash: u64,
    pub(crate) leaves: Vec<u32>,
    pub(crate) buffer: Vec<Option<Held>>,
}
