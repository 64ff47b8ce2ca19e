//! What ends a session in a statement.
ghost use Rattle.std.specs.Prelude.{◌≡◌};
ghost use Rattle.ob_tables.specs.Stops.{error_of};

use ob_base::{EmitErr, Stop};
use ob_flat::OpErr;

/// What ends a session in a statement.
#[derive(Clone, Copy, Debug, PartialEq, Eq)]
pub enum RunStop {
    /// The block that was read there is not the one that was written there last.
    Tampered { region: u64, place: u32 },
    /// The emitter failed.
    SinkFault,
    /// Want of memory.
    NoMemory,
    /// The store failed in an access of an index, which can't be accessed again, or while tables were saved.
    StoreFault,
    /// The stash of an index has no room for the rows that its access leaves.
    StashFull,
    /// The keeper failed while tables were saved.
    KeeperFault,
}

impl From<RunStop> for Stop {
    ghost use Rattle.std.specs.Prelude.{◌≡◌};
    ghost use Rattle.ob_tables.specs.Stops.{session_stop};

    ghost from_gives = { λ stop s. s ≡ session_stop stop };

    fn from(stop: RunStop) -> Stop {
        match stop {
            RunStop::Tampered { region, place } => Stop::Tampered { region, place },
            RunStop::SinkFault => Stop::SinkFault,
            RunStop::NoMemory => Stop::NoMemory,
            RunStop::StoreFault => Stop::StoreFault,
            RunStop::StashFull => Stop::StashFull,
            RunStop::KeeperFault => Stop::KeeperFault,
        }
    }
}

/// The error of a pass that an emitter's makes.
pub fn error_of(error: EmitErr) -> OpErr
    ensures { result ≡ error_of error }
{
    match error {
        EmitErr::Failed => OpErr::Sink,
        EmitErr::NoMemory => OpErr::NoMemory,
    }
}
