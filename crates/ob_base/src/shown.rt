//! Fields of printed rows.
use crate::text::Text;

/// A field of a printed row. A sum of 64-bit integers fits.
#[derive(Debug, PartialEq, Eq, Drop)]
pub enum Shown {
    Int(i128),
    Text(Text),
    Null,
}
