//! Where an engine's tables are listed.

/// Where an engine's tables were listed when it was closed: a region of so many blocks, one for its head and one
/// for each table, the first of which was written under this number, and the rest in order. The blocks of the
/// tables have `pack` rows.
#[derive(Clone, Copy, Debug, PartialEq, Eq)]
pub struct Closing {
    pub region: u64,
    pub blocks: u32,
    pub number: u64,
    pub pack: u8,
}
