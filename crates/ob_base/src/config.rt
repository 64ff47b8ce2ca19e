//! What a session is set to, and what is public of it.
use crate::items::Items;
use crate::schema::Table;

/// A way to write the selected rows of a SELECT to a region (the select operators of the ObliDB paper).
#[derive(Clone, Copy, Debug, PartialEq, Eq)]
pub enum Plan {
    Small,
    Large,
    Continuous,
    Hash,
}

/// How the plan of each SELECT of rows is chosen.
#[derive(Clone, Copy, Debug, PartialEq, Eq)]
pub enum Planner {
    /// By the rows that may be buffered, how many are selected, and whether they lie side by side.
    Auto,
    /// The shortest script of those of Small, of Continuous where the rows lie side by side, and of Large.
    Cheapest,
    /// Always this one.
    Forced(Plan),
}

/// The settings of a session.
#[derive(Clone, Copy, Debug, PartialEq, Eq)]
pub struct Config {
    /// The rows that may be open at once: 4 to 65,536, and at least three blocks and one row.
    pub buffer: u32,
    /// The blocks of a hash bucket: 1 to 8.
    pub depth: u8,
    /// The rows of a block: 1 to 16.
    pub pack: u8,
    /// How the plan of each SELECT of rows is chosen.
    pub planner: Planner,
    /// The rows to which the result of a SELECT of rows is padded, where it is: 1 to 1,048,576, and then
    /// neither Continuous nor Hash is forced.
    pub pad: Option<u32>,
    /// The rows of an index's stash: 1 to 1,024.
    pub stash: u32,
    /// Whether the tables are kept from a run to the next.
    pub keep: bool,
    /// Whether they are saved after each statement that changes them: then they are kept, too.
    pub save: bool,
    /// How many INSERTs that follow one another into one flat table may be served in one pass, where they
    /// are gathered: 2 to 65,535.
    pub batch: Option<u32>,
    /// The input has fewer bytes: 1,024 to 1,073,741,824.
    pub max_input: u64,
}

/// What a watcher knows before a statement.
#[derive(Drop)]
pub struct Public {
    pub tables: Items<Table>,
    pub next_region: u64,
    pub buffer: u32,
    pub depth: u8,
    pub pack: u8,
    pub planner: Planner,
    pub pad: Option<u32>,
    pub stash: u32,
    pub keep: bool,
    pub save: bool,
    pub batch: Option<u32>,
    /// The region in which the tables are listed, where they are saved and were once.
    pub closing: Option<u64>,
}
