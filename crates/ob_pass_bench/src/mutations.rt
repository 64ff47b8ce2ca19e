//! A count, and the passes that change a table.
ghost use Rattle.ob_vault.specs.Places.{at};
ghost use Rattle.ob_pass_bench.specs.Tables.{MayRun};

use crate::filling::make_room;
use crate::schemas::cells_of;
use ob_base::ComparisonOperator;
use ob_flat::{Flat, OpErr, count};
use ob_mutate::{Former, Inserted, delete, insert, update};
use ob_room::RowBuffer;
use ob_row::{Cell, Operand, Pred};
use ob_store::BlockStore;
use ob_vault::{Revisions, Vault};
use std::alloc::Global;

/// True of every second row.
pub(crate) fn half() -> Pred {
    Pred::compare(1, ComparisonOperator::Less, Operand::Cell(Cell::Int(8)))
}

/// Counts half of the rows.
pub(crate) fn count_half<S: BlockStore, R: Revisions>(
    store: &mut S,
    vault: &mut Vault<R>,
    room: &mut RowBuffer,
    flat: &Flat,
) -> Result<u64, OpErr>
    requires { MayRun room.old flat.now (at R.state vault.old (S.state store.old)) }
{
    make_room(store, u64::from(flat.capacity))?;
    let counted = count(store, vault, room, flat, &half())?;
    Ok(u64::from(counted.k))
}

/// Inserts a row whose key no other has, and answers how many were inserted.
pub(crate) fn insert_one<S: BlockStore, R: Revisions>(
    alloc: Global,
    store: &mut S,
    vault: &mut Vault<R>,
    room: &mut RowBuffer,
    flat: &mut Flat,
) -> Result<u64, OpErr>
    requires { MayRun room.old flat.old (at R.state vault.old (S.state store.old)) }
{
    make_room(store, 3 * u64::from(flat.capacity) + 2)?;
    match cells_of(alloc, &flat.schema, flat.capacity) {
        Ok(cells) => {
            let inserted = insert(store, vault, room, flat, cells.as_slice(), Former::Discard)?;
            Ok(u64::from(inserted == Inserted::Done))
        }
        Err(_) => Err(OpErr::NoMemory),
    }
}

/// Gives half of the rows another number.
pub(crate) fn update_half<S: BlockStore, R: Revisions>(
    store: &mut S,
    vault: &mut Vault<R>,
    room: &mut RowBuffer,
    flat: &mut Flat,
) -> Result<u64, OpErr>
    requires { MayRun room.old flat.old (at R.state vault.old (S.state store.old)) }
{
    make_room(store, 2 * u64::from(flat.capacity) + 2)?;
    update(
        store,
        vault,
        room,
        flat,
        &half(),
        &[(1, Cell::Int(16))],
        Former::Discard,
    )
}

/// Deletes half of the rows.
pub(crate) fn delete_half<S: BlockStore, R: Revisions>(
    store: &mut S,
    vault: &mut Vault<R>,
    room: &mut RowBuffer,
    flat: &mut Flat,
) -> Result<u64, OpErr>
    requires { MayRun room.old flat.old (at R.state vault.old (S.state store.old)) }
{
    make_room(store, 2 * u64::from(flat.capacity) + 2)?;
    delete(store, vault, room, flat, &half(), Former::Discard)
}
