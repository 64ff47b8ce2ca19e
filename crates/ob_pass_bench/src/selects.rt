//! The select operators, over the rows whose key is below a number.
ghost use Rattle.std.specs.Prelude.{◌≤◌};
ghost use Rattle.ob_vault.specs.Places.{at};
ghost use Rattle.ob_pass_bench.specs.Tables.{MayRun};

use crate::filling::make_room;
use ob_base::ComparisonOperator;
use ob_flat::{Flat, OpErr};
use ob_hash::Placed;
use ob_room::RowBuffer;
use ob_row::{Cell, Operand, Pred};
use ob_store::BlockStore;
use ob_vault::{Revisions, Vault};

/// The blocks of a bucket, as many as the program has where nothing else is said.
const DEPTH: u8 = 5;

// True of the rows whose key is below a number.
fn below(k: u32) -> Pred {
    Pred::compare(
        0,
        ComparisonOperator::Less,
        Operand::Cell(Cell::Int(i64::from(k))),
    )
}

/// Puts `k` rows into a table of their own, by Small.
pub(crate) fn small<S: BlockStore, R: Revisions>(
    store: &mut S,
    vault: &mut Vault<R>,
    room: &mut RowBuffer,
    flat: &Flat,
    k: u32,
) -> Result<u64, OpErr>
    requires runs { MayRun room.old flat.now (at R.state vault.old (S.state store.old)) }
    requires number { (1 ≤ k) × (k ≤ flat.now.capacity) }
{
    let pack = room.pack();
    let buffered = (room.rows() - 2 * pack) / pack;
    let results = k.div_ceil(pack);
    let passes = results.div_ceil(buffered);
    let reads = u64::from(passes) * u64::from(flat.capacity.div_ceil(pack));
    make_room(store, 1 + reads + u64::from(results))?;
    let result = ob_small::select(store, vault, room, flat, &below(k), k)?;
    Ok(u64::from(result.capacity))
}

/// Copies the table without its other rows, by Large.
pub(crate) fn large<S: BlockStore, R: Revisions>(
    store: &mut S,
    vault: &mut Vault<R>,
    room: &mut RowBuffer,
    flat: &Flat,
    k: u32,
) -> Result<u64, OpErr>
    requires { MayRun room.old flat.now (at R.state vault.old (S.state store.old)) }
{
    make_room(store, 1 + 4 * u64::from(flat.capacity))?;
    let result = ob_large::select(store, vault, room, flat, &below(k), k)?;
    Ok(u64::from(result.capacity))
}

/// Puts `k` rows into a table of their own, by Continuous.
pub(crate) fn continuous<S: BlockStore, R: Revisions>(
    store: &mut S,
    vault: &mut Vault<R>,
    room: &mut RowBuffer,
    flat: &Flat,
    k: u32,
) -> Result<u64, OpErr>
    requires runs { MayRun room.old flat.now (at R.state vault.old (S.state store.old)) }
    requires number { (1 ≤ k) × (k ≤ flat.now.capacity) }
{
    make_room(store, 1 + 4 * u64::from(flat.capacity))?;
    let result = ob_cont::select(store, vault, room, flat, &below(k), k)?;
    Ok(u64::from(result.capacity))
}

/// Puts `k` rows into as many buckets, of one block or of as many as the program has, by Hash.
pub(crate) fn hash<S: BlockStore, R: Revisions>(
    store: &mut S,
    vault: &mut Vault<R>,
    room: &mut RowBuffer,
    flat: &Flat,
    k: u32,
    is_shallow: bool,
) -> Result<u64, OpErr>
    requires runs { MayRun room.old flat.now (at R.state vault.old (S.state store.old)) }
    requires number { (1 ≤ k) × (k ≤ flat.now.capacity) }
{
    make_room(store, 1 + 26 * u64::from(flat.capacity))?;
    let placed = if is_shallow {
        ob_hash::select(store, vault, room, flat, &below(k), k, 1)?
    } else {
        ob_hash::select(store, vault, room, flat, &below(k), k, DEPTH)?
    };
    match placed {
        Placed::Done(result) | Placed::Overflow(result, _) => Ok(u64::from(result.capacity)),
    }
}
