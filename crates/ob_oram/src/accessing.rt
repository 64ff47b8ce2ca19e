//! One access of an index (Path ORAM, CCS 2013).
ghost use Rattle.std.specs.Prelude.{◌≡◌, ◌≤◌, ◌<◌, ◌+◌, ◌^◌, ℕ, None, OnOk, max, length, slice_index_or};
ghost use Rattle.ob_base.specs.Schemas.{width};
ghost use Rattle.ob_vault.specs.Places.{at};
ghost use Rattle.ob_vault.specs.Rows.{SameSizes, Wide};
ghost use Rattle.ob_vault.specs.Words.{MayAsk, MayStart};
ghost use Rattle.ob_blocks.specs.Idle.{IsIdle};
ghost use Rattle.ob_row.specs.Slots.{Slots, empty_slots};
ghost use Rattle.ob_flat.specs.Slots.{AreSlots};
ghost use Rattle.ob_flat.specs.Words.{HasSpare};
ghost use Rattle.ob_oram.specs.Buffers.{IsBuffer};
ghost use Rattle.ob_base.specs.Indexes.{path_blocks, rows_open};
ghost use Rattle.ob_oram.specs.declared.index.Index.{Index as AnIndex};
ghost use Rattle.ob_oram.specs.Indexes.{IsIndex, IsShaped, IsStored, leaves_of};
ghost use Rattle.ob_oram.specs.Opens.{IsOpen, leaves_with};
ghost use Rattle.ob_oram.specs.Opened.{OpensIndex};
ghost use Rattle.ob_oram.specs.Ops.{FitsOp};
ghost use Rattle.ob_oram.specs.Scripts.{script_length};
ghost use Rattle.ob_oram.specs.Halves.{ReadsIndex, WritesIndex, leaf_blocks, stash_blocks};
ghost use Rattle.ob_oram.specs.Accessing.{Accesses, LeftBy, leaf_read, remap_of};

use crate::fault::OramErr;
use crate::held::{Held, Remap};
use crate::index::Index;
use crate::op::{Got, Op};
use crate::opening::key_number;
use crate::placing::place;
use crate::reading::read_walk;
use crate::serving::serve;
use crate::walk::Walk;
use crate::writing::write_walk;
use ob_room::{ClearRow, RowBuffer};
use ob_store::BlockStore;
use ob_vault::{Revisions, Vault};
use std::mem;

// The blocks of the stash.
fn stash_walk(index: &Index) -> Walk
    ensures { result ≡ stash_blocks index.now }
{
    Walk::Stash {
        slots: index.slots,
        height: index.height,
    }
}

// The blocks of the path of a leaf.
fn path_walk(index: &Index, leaf: u32) -> Walk
    ensures { result ≡ leaf_blocks index.now leaf }
{
    Walk::Path {
        height: index.height,
        leaf,
    }
}

// The key of an operation, and the leaf of its draw.
fn remap_for(index: &Index, op: &Op<'_>, draw: u64) -> Remap
    requires { index.now.height ≤ 24 }
    ensures { result ≡ remap_of index.now op.now draw }
{
    let leaf_count: u64 = 1 << index.height;
    Remap {
        key: key_number(index.capacity, op.key()),
        leaf: (draw % leaf_count) as u32,
    }
}

// The leaf that is read: the key's, or that of the draw where the index has no such key.
fn leaf_before(index: &Index, remap: Remap) -> u32
    requires { IsShaped index.now }
    ensures { result ≡ slice_index_or (leaves_of index.now) remap.key remap.leaf }
{
    if remap.key < index.capacity {
        index.leaves[remap.key as usize]
    } else {
        remap.leaf
    }
}

impl Index {
    /// The leaf that an access reads: the key's, or that of the draw where the index has no such key.
    pub fn leaf_of(&self, op: &Op<'_>, draw: u64) -> u32
        requires { IsShaped self.now }
        ensures { result ≡ leaf_read self.now op.now draw }
    {
        leaf_before(self, remap_for(self, op, draw))
    }
}

// Gives a key of the index its leaf.
fn set_leaf(index: &mut Index, remap: Remap)
    requires { IsShaped index.old }
    ensures same { index.new ≡ record index.old { leaves = index.new.leaves } }
    ensures leaves { leaves_of index.new ≡ leaves_with index.old remap }
{
    if remap.key < index.capacity {
        index.leaves[remap.key as usize] = remap.leaf;
    }
}

// Takes all rows out of a buffer.
fn empty(buffer: &mut [Option<Held>])
    ensures count { length buffer.new ≡ length buffer.old }
    ensures none { (j : ℕ) → slice_index_or buffer.new j None ≡ None }
{
    for slot in buffer.iter_mut() {
        *slot = None;
    }
}

// Reads the stash into the buffer, which is empty, and then the path of a leaf from the root down.
fn read_index<S: BlockStore, R: Revisions>(
    store: &mut S,
    vault: &mut Vault<R>,
    index: &Index,
    remap: Remap,
    leaf: u32,
    buffer: &mut [Option<Held>],
    rows: &mut [ClearRow],
) -> Result<(), OramErr>
    requires spare { HasSpare (index.now.slots + path_blocks index.now.height)
        (at R.state vault.old (S.state store.old)) }
    requires stored { IsStored index.now (at R.state vault.old (S.state store.old)) }
    requires leaf { leaf < 2 ^ index.now.height }
    requires wide { Wide (width index.now.schema) rows.old }
    requires open { IsOpen index.now remap
        (empty_slots (rows_open index.now.height index.now.slots)) buffer.old rows.old }
    ensures rows { SameSizes rows.old rows.new }
    ensures buffer { length buffer.new ≡ length buffer.old }
    ensures reads { ReadsIndex index.now leaf result
        (at R.state vault.old (S.state store.old)) (at R.state vault.new (S.state store.new)) }
    ensures opens { OnOk result ((slots : Slots) × IsOpen index.now remap slots buffer.new rows.new
        × OpensIndex index.now leaf slots
        (at R.state vault.old (S.state store.old)) (at R.state vault.new (S.state store.new))) }
{
    match read_walk(store, vault, index, remap, stash_walk(index), buffer, rows) {
        Ok(()) => {}
        Err(e) => return Err(e),
    }
    read_walk(
        store,
        vault,
        index,
        remap,
        path_walk(index, leaf),
        buffer,
        rows,
    )
}

// Writes the path of a leaf from the root down, and then the stash.
fn write_index<S: BlockStore, R: Revisions>(
    store: &mut S,
    vault: &mut Vault<R>,
    index: &Index,
    leaf: u32,
    rows: &[ClearRow],
) -> Result<(), OramErr>
    requires asks { MayAsk (index.now.slots + path_blocks index.now.height)
        (at R.state vault.old (S.state store.old)) }
    requires stored { IsStored index.now (at R.state vault.old (S.state store.old)) }
    requires leaf { leaf < 2 ^ index.now.height }
    requires count { length rows.now ≡ rows_open index.now.height index.now.slots }
    requires spells { AreSlots index.now.schema rows.now }
    ensures writes { WritesIndex index.now leaf rows.now result
        (at R.state vault.old (S.state store.old)) (at R.state vault.new (S.state store.new)) }
{
    match write_walk(store, vault, index, path_walk(index, leaf), rows) {
        Ok(()) => {}
        Err(e) => return Err(e),
    }
    write_walk(store, vault, index, stash_walk(index), rows)
}

// The same access, by way of these rows and a buffer of as many, which are empty. It leaves the index's leaves to
// its caller.
fn access_open<S: BlockStore, R: Revisions>(
    store: &mut S,
    vault: &mut Vault<R>,
    index: &Index,
    op: &Op<'_>,
    draw: u64,
    buffer: &mut [Option<Held>],
    rows: &mut [ClearRow],
) -> Result<Got, OramErr>
    requires starts { MayStart (script_length index.now)
        (at R.state vault.old (S.state store.old)) }
    requires stored { IsStored index.now (at R.state vault.old (S.state store.old)) }
    requires op { FitsOp index.now.schema index.now.key op.now }
    requires wide { Wide (width index.now.schema) rows.old }
    requires even { (each : ℕ) × IsBuffer each rows.old }
    requires open { IsOpen index.now (remap_of index.now op.now draw)
        (empty_slots (rows_open index.now.height index.now.slots)) buffer.old rows.old }
    ensures rows { SameSizes rows.old rows.new }
    ensures buffer { length buffer.new ≡ length buffer.old }
    ensures accesses { (left : AnIndex) → LeftBy result index.now op.now draw left
        → Accesses index.now left op.now draw result
        (at R.state vault.old (S.state store.old)) (at R.state vault.new (S.state store.new)) }
{
    let remap = remap_for(index, op, draw);
    let leaf = leaf_before(index, remap);
    match read_index(store, vault, index, remap, leaf, buffer, rows) {
        Ok(()) => {}
        Err(e) => return Err(e),
    }
    let got = serve(index, op, remap, buffer, rows);
    let slots = rows.len() - 1;
    if !place(buffer, rows, slots, index.height, leaf) {
        return Err(OramErr::StashFull);
    }
    match write_index(store, vault, index, leaf, rows) {
        Ok(()) => Ok(got),
        Err(e) => Err(e),
    }
}

/// Reads the stash and the path of a key from the root down, does the operation among the rows that lie there,
/// gives the key the leaf of the draw, and writes the path and the stash again: each bucket of the path, from the
/// leaf up, takes up to 4 of the rows left that may lie in it, least keys first, and the stash the others. A key
/// that is none of the index reads the leaf of the draw. It takes no memory.
///
/// `Failed` where the store failed, `Tampered` with a block that is not what was written there last or that has a
/// malformed row, and `StashFull`, before any write, where more rows are left than the stash has slots. An error
/// leaves the leaves of the keys, and before the first write all that lies in the store, but the index has ended, and may
/// not be accessed again: the path of the key's leaf was read, and would be read once more.
pub fn access<S: BlockStore, R: Revisions>(
    store: &mut S,
    vault: &mut Vault<R>,
    room: &mut RowBuffer,
    index: &mut Index,
    op: &Op<'_>,
    draw: u64,
) -> Result<Got, OramErr>
    requires starts { MayStart (script_length index.old)
        (at R.state vault.old (S.state store.old)) }
    requires index { IsIndex index.old (at R.state vault.old (S.state store.old)) }
    requires op { FitsOp index.old.schema index.old.key op.now }
    requires room { IsIdle (width index.old.schema) room.old }
    requires rows { rows_open index.old.height index.old.slots ≤ room.old.rows }
    ensures room { room.new ≡ record room.old {
      high = max room.old.high (rows_open index.old.height index.old.slots);
    } }
    ensures accesses { Accesses index.old index.new op.now draw result
        (at R.state vault.old (S.state store.old)) (at R.state vault.new (S.state store.new)) }
{
    let remap = remap_for(index, op, draw);
    let alloc = *index.buffer.allocator();
    let mut buffer = mem::replace(&mut index.buffer, Vec::new(alloc));
    let slots = buffer.as_mut_slice();
    empty(slots);
    let _ = room.rows();
    let rows = room.open(slots.len() as u32);
    let result = access_open(store, vault, index, op, draw, slots, rows);
    room.clear_shelf();
    match result {
        Ok(got) => {
            index.buffer = buffer;
            set_leaf(index, remap);
            Ok(got)
        }
        Err(e) => Err(e),
    }
}
