//! How statements are answered.
use ob_base::Refusal;

/// How a statement was answered.
#[derive(Clone, Copy, Debug, PartialEq, Eq)]
pub enum Outcome {
    Created,
    Inserted,
    /// So many rows were updated.
    Changed(u64),
    /// So many rows were deleted.
    Deleted(u64),
    Dropped,
    /// So many rows were emitted.
    Rows(u64),
    Refused(Refusal),
}
