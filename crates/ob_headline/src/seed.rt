//! What is generated in place of the input.

/// Which text is generated in place of the input: the number before its sequence, and the rows of its table, 1 to 4,096.
#[derive(Clone, Copy, Debug, PartialEq, Eq)]
pub struct Seed {
    pub start: u64,
    pub rows: u32,
}
