//! Values of a row.
ghost use Rattle.std.specs.Prelude.{◌≡◌};

use ob_base::Text;
use thiserror::Error;

/// One value of a row.
#[derive(Clone, Debug, PartialEq, Eq, Drop)]
pub enum Cell {
    Int(i64),
    Text(Text),
}

impl Cell {
    /// The same cell.
    pub fn copied(&self) -> Cell
        ensures { result ≡ self.now }
    {
        match self {
            Cell::Int(x) => Cell::Int(*x),
            Cell::Text(text) => Cell::Text(text.copied()),
        }
    }
}

/// The bytes are neither a row's nor a dummy's.
#[derive(Clone, Copy, Debug, PartialEq, Eq, Error)]
#[error("the bytes spell neither a row nor a dummy")]
pub struct Malformed;
