//! What a watcher learns of a statement.
use crate::config::Plan;

/// How the accesses of a statement end.
#[derive(Clone, Copy, Debug, PartialEq, Eq)]
pub enum End {
    /// It was refused before any access.
    Static,
    /// All that it asks was asked.
    Whole,
    /// It was refused after the count, because the selected slots aren't consecutive.
    AfterCount,
    /// It was served with the INSERT before it, in the accesses of that one.
    Batched,
    /// It was stopped, or the store failed, after so many accesses.
    Cut(u64),
}

/// What a watcher learns of a statement, beside its skeleton.
#[derive(Clone, Copy, Debug, PartialEq, Eq)]
pub struct Seen {
    /// The number of selected rows, for a SELECT of rows whose count has ended.
    pub k: Option<u64>,
    /// The plan that was taken.
    pub plan: Option<Plan>,
    /// The plan that was taken after it, where the first one found no place for a row.
    pub then: Option<Plan>,
    /// The leaf whose path was read, for an access of an index.
    pub leaf: Option<u64>,
    pub end: End,
}
