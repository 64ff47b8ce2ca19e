//! Answers of statements.
use ob_base::{Items, Refusal, Shown};

/// What a statement answers.
#[derive(Drop)]
pub enum Answer {
    /// It was carried out, and there is nothing to tell.
    Done,
    /// So many rows were changed or deleted.
    Changed(u64),
    /// The rows of a SELECT.
    Rows(Items<Items<Shown>>),
    Refused(Refusal),
}
