//! How runs end, and what they report.
use ob_base::Stop;

/// How a run ended.
#[derive(Clone, Copy, Debug, PartialEq, Eq)]
pub enum Ending {
    /// The words are none that the program takes.
    Usage,
    /// The first line is no secret.
    BadKey,
    /// The input was read to its end, with a refusal or without, or a stop came.
    Ran(Result<bool, Stop>),
}

/// How a run ended whose tables are kept.
#[derive(Clone, Copy, Debug, PartialEq, Eq)]
pub enum KeptEnding {
    /// As one does whose tables aren't.
    Plain(Ending),
    /// The tables that are kept have another pack.
    OtherPack,
    /// Their mark was left under another secret.
    OtherKey,
    /// They are those of a run that saves them.
    Saved,
    /// There is no mark, and the store has regions of a run.
    NoMark,
    /// The store failed while tables were opened or closed.
    StoreFault,
    /// The run before was not closed.
    NotClosed,
    /// The keeper failed.
    KeeperFault,
}

/// What a run comes to: its exit status, and the greatest number of rows that were open at once.
#[derive(Clone, Copy, Debug, PartialEq, Eq)]
pub struct Report {
    pub status: u8,
    pub high: u64,
}
