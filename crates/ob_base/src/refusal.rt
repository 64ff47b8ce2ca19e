//! Why statements are refused, and sessions stop.

/// Why a statement was not carried out. The tables are as they were, and the session goes on.
#[derive(Clone, Copy, Debug, PartialEq, Eq)]
pub enum Refusal {
    /// E01: the text is no statement; the place of the first token that fits none.
    Syntax(u32),
    /// E02: a table that is to exist doesn't.
    NoTable,
    /// E03: a table that is to be new exists, or a name stands twice.
    NameTaken,
    /// E04: a name that no column has there.
    NoColumn,
    /// E05: a value of another kind than its column.
    WrongType,
    /// E06: a value that its column can't hold.
    ValueRange,
    /// E07: a size beyond the limits.
    Limit,
    /// E08: a second primary key, or a change of one.
    KeyRule,
    /// E09: a join whose left column is not the primary key.
    JoinKey,
    /// E10: a row with this primary key exists.
    Duplicate,
    /// E11: the table has as many rows as its capacity.
    Full,
    /// E12: more groups than may be kept.
    TooManyGroups,
    /// E13: the selected slots aren't consecutive, and the plan that is forced needs it.
    NotConsecutive,
    /// E14: the row in this slot found no bucket, and the plan that is forced needs one.
    Overflow(u32),
    /// E15: the store failed.
    StoreFault,
    /// E16: more rows are selected than the result is padded to.
    PadPassed,
    /// E17: a key that is none of an index.
    KeyRange,
    /// E18: a statement on an index that doesn't name one key.
    NeedsKey,
}

/// What ends a session.
#[derive(Clone, Copy, Debug, PartialEq, Eq)]
pub enum Stop {
    /// The block that was read there is not the one that was written there last.
    Tampered { region: u64, place: u32 },
    /// The input could not be read.
    SourceFault,
    /// The answers, or the accesses, could not be written.
    SinkFault,
    /// Want of memory.
    NoMemory,
    /// The input, or one text of it, is too long.
    InputLimit,
    /// The store failed in an access of an index, which can't be left half done.
    StoreFault,
    /// The stash of an index has no room for the rows that an access leaves.
    StashFull,
    /// The keeper failed while tables were saved.
    KeeperFault,
}
