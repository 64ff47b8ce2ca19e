//! A store, a vault and a room.
ghost use Rattle.std.specs.Prelude.{◌≤◌, ℕ, OnOk, IfSome};
ghost use Rattle.ob_store.specs.Calls.{ChangesNothing};
ghost use Rattle.ob_blocks.specs.Idle.{IsIdle};
ghost use Rattle.ob_pass_tests.specs.Tables.{HasRoom};

use crate::emitter::Calls;
use crate::stop::Stop;
use crate::words::{Words, number};
use ob_base::EmitErr;
use ob_room::RowBuffer;
use ob_store::BlockStore;
use std::alloc::Global;

/// Makes room for the accesses of a pass over a few slots.
pub(crate) fn make_room<S: BlockStore>(store: &mut S) -> Result<(), Stop>
    ensures rests { ChangesNothing (S.state store.old) (S.state store.new) }
    ensures room { OnOk result (HasRoom (S.state store.new)) }
{
    if store.reserve(10_000).is_err() || store.count() >= 1_000_000 {
        return Err(Stop::Memory);
    }
    Ok(())
}

// A room of so many rows of a width for blocks of so many.
fn room_for(alloc: Global, rows: u32, width: u32, pack: u32) -> Option<RowBuffer>
    ensures pack { IfSome result (λ room. (1 ≤ room.pack) × (room.pack ≤ 16)) }
    ensures idle { IfSome result (λ room. (n : ℕ) → n ≤ width → IsIdle n room) }
    ensures few { IfSome result (λ room. room.rows ≤ 65536) }
{
    if pack < 1 || pack > 16 || rows > 65_536 || rows < 3 * pack + 1 {
        return None;
    }
    match RowBuffer::new(alloc, rows, width, pack) {
        Ok(room) => Some(room),
        Err(_) => None,
    }
}

/// A room of so many rows of 1,024 bytes for blocks of so many.
pub(crate) fn room_of(alloc: Global, words: &mut Words<'_>) -> Option<RowBuffer>
    ensures pack { IfSome result (λ room. (1 ≤ room.pack) × (room.pack ≤ 16)) }
    ensures idle { IfSome result (λ room. (n : ℕ) → n ≤ 1024 → IsIdle n room) }
    ensures few { IfSome result (λ room. room.rows ≤ 65536) }
{
    let rows = number(words)?;
    let pack = number(words)?;
    room_for(alloc, rows, 1024, pack)
}

/// How many calls the answers are taken in, and what the next one answers.
pub(crate) fn calls_of(words: &mut Words<'_>) -> Calls {
    match (number(words), words.next()) {
        (Some(calls), Some("failed")) => (calls, EmitErr::Failed),
        (Some(calls), _) => (calls, EmitErr::NoMemory),
        _ => (1_000_000, EmitErr::Failed),
    }
}
