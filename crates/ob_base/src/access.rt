//! Calls on a block store.

/// One call on a block store, as somebody who watches the store sees it.
///
/// `region` is the number of a region, `place` the index of a block in it, `blocks` the number of its
/// blocks and `len` the length of each in bytes.
#[derive(Clone, Copy, Debug, PartialEq, Eq)]
pub enum Access {
    Make { region: u64, blocks: u32, len: u32 },
    Read { region: u64, place: u32 },
    Write { region: u64, place: u32 },
    Discard { region: u64 },
    /// A region of an earlier run is asked for.
    Open { region: u64, blocks: u32, len: u32 },
}
