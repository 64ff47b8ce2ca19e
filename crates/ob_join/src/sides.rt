//! The two tables of a join.
use ob_flat::Flat;

// The two tables of a join, the columns that are equal, and how many left blocks are kept at once.
#[derive(Drop)]
pub(crate) struct Sides<'a> {
    pub(crate) left: &'a Flat,
    pub(crate) lcol: u8,
    pub(crate) right: &'a Flat,
    pub(crate) rcol: u8,
    pub(crate) buffered: u32,
}
