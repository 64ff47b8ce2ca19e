//! The mark of a store: what is kept of it from a run to the next.

/// What is kept of a store's tables where nobody else can change it, from a run to the next.
#[derive(Clone, Copy, Debug, PartialEq, Eq)]
pub enum Mark {
    /// Nothing was ever written under this secret.
    Fresh,
    /// A run has begun and was not closed.
    InUse,
    /// The last run was closed into this region, which has so many blocks; the first of them was written
    /// under this number, and the blocks of tables have so many rows.
    Closed {
        region: u64,
        blocks: u32,
        number: u64,
        pack: u8,
    },
    /// A run that saves its tables has begun, and none was saved yet: no region that lies in the store is wanted.
    Begun,
    /// Such a run saved its tables last into this region, as `Closed` says; its keys are those of this salt, of which
    /// this is the check value under the secret.
    Saved {
        region: u64,
        blocks: u32,
        number: u64,
        pack: u8,
        salt: [u8; 16],
        check: [u8; 16],
    },
}
