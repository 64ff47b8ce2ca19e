//! An index, made with all its keys.
ghost use Rattle.std.specs.Prelude.{◌≡◌, ◌≤◌, ◌<◌, ◌+◌, ◌*◌, ℕ, Option, None, max, length, replicate, IfOk, IfErr, IfSome, map};
ghost use Rattle.std.specs.List.{position};
ghost use Rattle.ob_base.specs.declared.schema.Column.{Column as TableColumn};
ghost use Rattle.ob_base.specs.Numbers.{blocks_for};
ghost use Rattle.ob_base.specs.Schemas.{width};
ghost use Rattle.ob_vault.specs.Places.{at};
ghost use Rattle.ob_vault.specs.Words.{MayAsk, MayStart};
ghost use Rattle.ob_blocks.specs.Blocks.{none_of};
ghost use Rattle.ob_blocks.specs.Idle.{IsIdle};
ghost use Rattle.ob_flat.specs.Slots.{Spelt};
ghost use Rattle.ob_flat.specs.declared.fault.OpErr.TheVariants.{NoMemory};
ghost use Rattle.ob_flat.specs.Flats.{IsSized, FitsRegion, table_region};
ghost use Rattle.ob_flat.specs.Words.{FitBlock};
ghost use Rattle.ob_flat.specs.Creates.{CreatesRegion, table_of};
ghost use Rattle.ob_base.specs.Indexes.{IsHeight, leaf_of_draw, rows_open, tree_blocks};
ghost use Rattle.ob_oram.specs.Keys.{IsIntKey};
ghost use Rattle.ob_oram.specs.Creating.{CreatesIndex, CreatesRegions, MadeRegions, new_tree, new_stash};

use crate::held::Held;
use crate::index::Index;
use ob_base::{Column, Schema, tree_height};
use ob_flat::{OpErr, fill_blocks, make_table};
use ob_room::{ClearRow, RowBuffer};
use ob_row::width;
use ob_store::BlockStore;
use ob_vault::{Order, Region, Revisions, Vault};
use std::alloc::Global;

// The leaves of some draws.
fn leaves_for(alloc: Global, draws: &[u64], height: u32) -> Result<Vec<u32>, OpErr>
    requires { height ≤ 24 }
    ensures never { IfErr result (λ e. e ≡ NoMemory) }
    ensures leaves { IfOk result (λ leaves. leaves.items ≡ map (leaf_of_draw height) draws.now) }
{
    let leaf_count: u64 = 1 << height;
    match draws
        .iter()
        .map(|draw| (*draw % leaf_count) as u32)
        .collect(alloc)
    {
        Ok(leaves) => Ok(leaves),
        Err(_) => Err(OpErr::NoMemory),
    }
}

// A list of rows that lie open, of which none does.
fn empty_buffer(alloc: Global, height: u32, slots: u32) -> Result<Vec<Option<Held>>, OpErr>
    requires { (height ≤ 24) × (slots ≤ 1024) }
    ensures never { IfErr result (λ e. e ≡ NoMemory) }
    ensures buffer { IfOk result
        (λ buffer. buffer.items ≡ replicate (rows_open height slots) None) }
{
    match Vec::from_elem(alloc, None, (slots + 4 * (height + 1) + 1) as usize) {
        Ok(buffer) => Ok(buffer),
        Err(_) => Err(OpErr::NoMemory),
    }
}

// The place of the primary key, which is an INT.
fn key_place(schema: &Schema) -> u8
    requires { (place : ℕ) × IsIntKey schema.now place }
    ensures { IsIntKey schema.now result }
{
    match key_index(schema.as_slice()) {
        Some(place) => place as u8,
        None => unreachable!(),
    }
}

fn key_index(columns: &[Column]) -> Option<usize>
    requires { length columns.now ≤ 32 }
    ensures value { result ≡ position (λ (c : TableColumn). c.key) columns.now }
    ensures few { IfSome result (λ place. place < 32) }
{
    columns.iter().position(|column| column.key)
}

// The region of so many slots, one in each block.
fn region_of_slots(schema: &Schema, slots: u32, order: Order) -> Region
    ensures { result ≡ table_region order 1 schema.now slots }
{
    Region {
        blocks: slots,
        width: width(schema),
        order,
    }
}

// Makes a region of one slot a block and writes this row, which is a dummy, to each of its places.
fn create_region<S: BlockStore, R: Revisions>(
    store: &mut S,
    vault: &mut Vault<R>,
    rows: &[ClearRow],
    schema: &Schema,
    slots: u32,
    order: Order,
) -> Result<u64, OpErr>
    requires asks { MayAsk (1 + blocks_for 1 slots) (at R.state vault.old (S.state store.old)) }
    requires size { FitsRegion 1 schema.now slots }
    requires one { length rows.now ≡ 1 }
    requires fit { FitBlock schema.now rows.now }
    requires dummies { Spelt schema.now (none_of 1) rows.now }
    ensures creates { CreatesRegion order 1 (table_of schema.now slots vault.old.next) result
        (at R.state vault.old (S.state store.old)) (at R.state vault.new (S.state store.new)) }
{
    let region = make_table(store, vault, schema, slots, 1, order)?;
    match fill_blocks(
        store,
        vault,
        rows,
        region,
        region_of_slots(schema, slots, order),
    ) {
        Ok(()) => Ok(region),
        Err(e) => {
            vault.forget(region);
            Err(OpErr::from(e))
        }
    }
}

// The blocks of a tree.
fn tree_size(height: u32) -> u32
    requires { height ≤ 24 }
    ensures { result ≡ tree_blocks height }
{
    4 * ((2 << height) - 1)
}

// Makes the regions of a tree and of a stash, and fills them with dummies.
fn create_regions<S: BlockStore, R: Revisions>(
    store: &mut S,
    vault: &mut Vault<R>,
    rows: &[ClearRow],
    schema: &Schema,
    height: u32,
    slots: u32,
) -> Result<(u64, u64), OpErr>
    requires starts { MayStart (2 + tree_blocks height + slots)
        (at R.state vault.old (S.state store.old)) }
    requires size { FitsRegion 1 schema.now (tree_blocks height) }
    requires height { height ≤ 24 }
    requires slots { (1 ≤ slots) × (slots ≤ 1024) }
    requires one { length rows.now ≡ 1 }
    requires fit { FitBlock schema.now rows.now }
    requires dummies { Spelt schema.now (none_of 1) rows.now }
    ensures creates { CreatesRegions (new_tree schema.now height vault.old.next)
        (new_stash schema.now slots vault.old.next) result
        (at R.state vault.old (S.state store.old)) (at R.state vault.new (S.state store.new)) }
    ensures made { IfOk result (λ made. MadeRegions (new_tree schema.now height vault.old.next)
        (new_stash schema.now slots vault.old.next) made
        (at R.state vault.old (S.state store.old))
        (at R.state vault.new (S.state store.new))) }
{
    let blocks = tree_size(height);
    let first = create_region(store, vault, rows, schema, blocks, Order::Any);
    match first {
        Ok(tree) => {
            let second = create_region(store, vault, rows, schema, slots, Order::Round);
            match second {
                Ok(stash) => Ok((tree, stash)),
                Err(e) => {
                    vault.forget(tree);
                    Err(e)
                }
            }
        }
        Err(e) => Err(e),
    }
}

// The same index, by way of this row, which is a dummy.
fn create_index<S: BlockStore, R: Revisions>(
    alloc: Global,
    store: &mut S,
    vault: &mut Vault<R>,
    rows: &[ClearRow],
    schema: &Schema,
    capacity: u32,
    stash: u32,
    draws: &[u64],
) -> Result<Index, OpErr>
    requires starts { (height : ℕ) → IsHeight capacity height
        → MayStart (2 + tree_blocks height + stash) (at R.state vault.old (S.state store.old)) }
    requires size { IsSized schema.now capacity }
    requires key { (place : ℕ) × IsIntKey schema.now place }
    requires stash { (1 ≤ stash) × (stash ≤ 1024) }
    requires draws { length draws.now ≡ capacity }
    requires one { length rows.now ≡ 1 }
    requires fit { FitBlock schema.now rows.now }
    requires dummies { Spelt schema.now (none_of 1) rows.now }
    ensures creates { CreatesIndex schema.now capacity stash draws.now result
        (at R.state vault.old (S.state store.old)) (at R.state vault.new (S.state store.new)) }
{
    let height = tree_height(capacity);
    let leaves = match leaves_for(alloc, draws, height) {
        Ok(leaves) => leaves,
        Err(e) => return Err(e),
    };
    let buffer = match empty_buffer(alloc, height, stash) {
        Ok(buffer) => buffer,
        Err(e) => return Err(e),
    };
    let made = create_regions(store, vault, rows, schema, height, stash);
    match made {
        Ok(regions) => Ok(Index {
            schema: schema.copied(),
            capacity,
            key: key_place(schema),
            slots: stash,
            height,
            tree: regions.0,
            stash: regions.1,
            leaves,
            buffer,
        }),
        Err(e) => Err(e),
    }
}

/// Makes an index with no row for the keys from 0 to `capacity - 1`, each with the leaf of its draw and a stash of
/// `stash` slots: the region of the tree and a dummy at each of its places, in order, and the same for the stash.
/// `Failed` where the store failed, or `NoMemory` before the first access or from one of the two that make a
/// region; both regions are forgotten then.
pub fn create<S: BlockStore, R: Revisions>(
    alloc: Global,
    store: &mut S,
    vault: &mut Vault<R>,
    room: &mut RowBuffer,
    schema: &Schema,
    capacity: u32,
    stash: u32,
    draws: &[u64],
) -> Result<Index, OpErr>
    requires starts { (height : ℕ) → IsHeight capacity height
        → MayStart (2 + tree_blocks height + stash) (at R.state vault.old (S.state store.old)) }
    requires size { IsSized schema.now capacity }
    requires key { (place : ℕ) × IsIntKey schema.now place }
    requires stash { (1 ≤ stash) × (stash ≤ 1024) }
    requires draws { length draws.now ≡ capacity }
    requires room { IsIdle (width schema.now) room.old }
    ensures room { room.new ≡ record room.old { high = max room.old.high 1 } }
    ensures creates { CreatesIndex schema.now capacity stash draws.now result
        (at R.state vault.old (S.state store.old)) (at R.state vault.new (S.state store.new)) }
{
    let _ = room.rows();
    let rows = room.open(1);
    let result = create_index(alloc, store, vault, rows, schema, capacity, stash, draws);
    room.clear_shelf();
    result
}
