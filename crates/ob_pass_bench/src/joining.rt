//! The join of two tables by their keys.
ghost use Rattle.std.specs.Prelude.{◌≡◌, ◌≤◌, ◌+◌, ◌*◌};
ghost use Rattle.ob_base.specs.Joins.{joined_blocks};
ghost use Rattle.ob_vault.specs.Places.{at};
ghost use Rattle.ob_pass_bench.specs.Tables.{MayRun};

use crate::filling::make_room;
use ob_flat::{Flat, OpErr};
use ob_join::join;
use ob_order::Order;
use ob_room::RowBuffer;
use ob_store::BlockStore;
use ob_vault::{Revisions, Vault};
use std::alloc::Global;

/// The most bytes of a joined row, and the most slots of its table.
const WIDEST: u32 = 1024;

const MOST: u64 = 16_777_216;

// The blocks of the result, by the rows of a block, those that may be open, and the slots of both tables.
fn blocks_of(pack: u32, rows: u32, left: u32, right: u32) -> u64
    requires pack { 1 ≤ pack }
    requires rows { 3 * pack + 1 ≤ rows }
    ensures { result ≡ joined_blocks pack rows left right }
{
    let buffered = (rows - 2 * pack) / pack;
    let chunks = left.div_ceil(pack).div_ceil(buffered);
    u64::from(chunks) * u64::from(right.div_ceil(pack))
}

/// Joins two tables, and answers the slots of the result. `NoMemory` where it is larger than a table may be.
pub(crate) fn join_keys<S: BlockStore, R: Revisions>(
    store: &mut S,
    vault: &mut Vault<R>,
    room: &mut RowBuffer,
    alloc: Global,
    left: &Flat,
    right: &Flat,
) -> Result<u64, OpErr>
    requires left { MayRun room.old left.now (at R.state vault.old (S.state store.old)) }
    requires right { MayRun room.old right.now (at R.state vault.old (S.state store.old)) }
{
    let pack = room.pack();
    let blocks = blocks_of(pack, room.rows(), left.capacity, right.capacity);
    let width = left.schema.width() + right.schema.width() - 1;
    if width > WIDEST || blocks > MOST || blocks * u64::from(pack) > MOST {
        return Err(OpErr::NoMemory);
    }
    if room.rows() > 65_536 {
        return Err(OpErr::NoMemory);
    }
    let Ok(mut order) = Order::new(alloc, room.rows()) else {
        return Err(OpErr::NoMemory);
    };
    make_room(store, 1 + u64::from(left.capacity) + 2 * blocks)?;
    let joined = join(store, vault, room, &mut order, left, right, 0, 0)?;
    Ok(u64::from(joined.capacity))
}
