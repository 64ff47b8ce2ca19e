//! An index in a store, with the vault and the room for its accesses.
ghost use Rattle.std.specs.Prelude.{◌≡◌, ◌≤◌, ◌<◌, ◌^◌, [], length, OnOk, IfOk};
ghost use Rattle.ob_store.specs.Calls.{ChangesNothing};
ghost use Rattle.ob_vault.specs.Words.{StartsAnew};
ghost use Rattle.ob_vault.specs.Places.{at};
ghost use Rattle.ob_blocks.specs.Idle.{IsIdle};
ghost use Rattle.ob_oram.specs.Ops.{FitsOp};
ghost use Rattle.ob_oram_bench.specs.Sessions.{IsSession};

use crate::fault::Fault;
use crate::rows::{schema_of, text_of};
use ob_oram::{Got, Index, Op, access, create};
use ob_room::RowBuffer;
use ob_row::Cell;
use ob_seal::Keys;
use ob_store::BlockStore;
use ob_vault::{BaseRevs, Revisions, Vault};
use std::alloc::Global;

/// What is asked of a key. A row that is put in has a text by its number.
#[derive(Clone, Copy)]
pub(crate) enum Ask {
    Get,
    Insert(u8),
    Change(u8),
    Remove,
}

/// Makes room for so many accesses.
pub(crate) fn make_room<S: BlockStore>(store: &mut S, n: u64) -> Result<(), Fault>
    ensures rests { ChangesNothing (S.state store.old) (S.state store.new) }
    ensures spare { OnOk result (n ≤ (S.state store.new).spare) }
    ensures few { OnOk result (length (S.state store.new).asked < 2 ^ 59) }
{
    if store.reserve(n).is_err() || store.count() >= 1 << 59 {
        return Err(Fault::NoMemory);
    }
    Ok(())
}

// An index with no row of so many bytes, which has a key for each of these draws: at most 65,536. The stash has at most
// 1,024 slots.
fn made<S: BlockStore, R: Revisions>(
    alloc: Global,
    store: &mut S,
    vault: &mut Vault<R>,
    room: &mut RowBuffer,
    bytes: u32,
    slots: u32,
    draws: &[u64],
) -> Result<Index, Fault>
    requires ready { StartsAnew (at R.state vault.old (S.state store.old)) }
    requires room { IsIdle 265 room.old }
    requires rows { 2048 ≤ room.old.rows }
    ensures session { IfOk result (λ index.
        IsSession room.new index (at R.state vault.new (S.state store.new))) }
{
    if draws.is_empty() || draws.len() > 65_536 || slots < 1 || slots > 1024 {
        return Err(Fault::Usage);
    }
    let Some(schema) = schema_of(bytes) else {
        return Err(Fault::Usage);
    };
    make_room(store, 1 << 20)?;
    let capacity = draws.len() as u32;
    match create(alloc, store, vault, room, &schema, capacity, slots, draws) {
        Ok(index) => Ok(index),
        Err(e) => Err(Fault::Create(e)),
    }
}

/// The same in a store of which nothing was asked, with a vault and a room for its accesses.
pub(crate) fn new_index<S: BlockStore>(
    alloc: Global,
    store: &mut S,
    bytes: u32,
    slots: u32,
    draws: &[u64],
) -> Result<(Vault<BaseRevs>, RowBuffer, Index), Fault>
    requires none { (S.state store.old).asked ≡ [] }
    ensures session { IfOk result (λ new. IsSession new.1 new.2
        (at ⟦<BaseRevs as Revisions>⟧.state new.0 (S.state store.new))) }
{
    let mut vault: Vault<BaseRevs> = Vault::new(alloc, Keys::derive(&[5; 32]));
    let mut room = match RowBuffer::new(alloc, 2048, 265, 1) {
        Ok(room) => room,
        Err(_) => return Err(Fault::NoMemory),
    };
    let index = made(alloc, store, &mut vault, &mut room, bytes, slots, draws)?;
    Ok((vault, room, index))
}

// One access, for which the store gets room.
fn serve<S: BlockStore, R: Revisions>(
    store: &mut S,
    vault: &mut Vault<R>,
    room: &mut RowBuffer,
    index: &mut Index,
    op: &Op<'_>,
    draw: u64,
) -> Result<Got, Fault>
    requires session { IsSession room.old index.old (at R.state vault.old (S.state store.old)) }
    requires op { FitsOp index.old.schema 0 op.now }
    ensures { OnOk result
        (IsSession room.new index.new (at R.state vault.new (S.state store.new))) }
{
    make_room(store, 4096)?;
    match access(store, vault, room, index, op, draw) {
        Ok(got) => Ok(got),
        Err(e) => Err(Fault::Access(e)),
    }
}

/// One access of a key.
pub(crate) fn ask_key<S: BlockStore, R: Revisions>(
    store: &mut S,
    vault: &mut Vault<R>,
    room: &mut RowBuffer,
    index: &mut Index,
    key: i64,
    what: Ask,
    draw: u64,
) -> Result<Got, Fault>
    requires session { IsSession room.old index.old (at R.state vault.old (S.state store.old)) }
    ensures { OnOk result
        (IsSession room.new index.new (at R.state vault.new (S.state store.new))) }
{
    match what {
        Ask::Get => serve(store, vault, room, index, &Op::Get(key), draw),
        Ask::Insert(value) => {
            let cells = [Cell::Int(key), Cell::Text(text_of(value))];
            let op = Op::Insert(key, &cells);
            serve(store, vault, room, index, &op, draw)
        }
        Ask::Change(value) => {
            let sets = [(1, Cell::Text(text_of(value)))];
            let op = Op::Change(key, &sets);
            serve(store, vault, room, index, &op, draw)
        }
        Ask::Remove => serve(store, vault, room, index, &Op::Remove(key), draw),
    }
}
