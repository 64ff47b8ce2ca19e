//! Aggregates, and items of grouped answers.

/// An aggregate over rows; a column is named by its place.
#[derive(Clone, Copy, Debug, PartialEq, Eq)]
pub enum Agg {
    CountAll,
    Count(u8),
    Sum(u8),
    Min(u8),
    Max(u8),
}

/// A column of a grouped answer: the group's key, or an aggregate over its rows.
#[derive(Clone, Copy, Debug, PartialEq, Eq)]
pub enum Item {
    Key,
    Agg(Agg),
}
