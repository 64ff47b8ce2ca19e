//! Regions of tables, made and filled.
ghost use Rattle.std.specs.Prelude.{◌≡◌, ◌≤◌, ◌<◌, ◌+◌, ◌/◌, ◌^◌, max, length};
ghost use Rattle.ob_base.specs.Numbers.{blocks_for};
ghost use Rattle.ob_base.specs.Schemas.{width};
ghost use Rattle.ob_vault.specs.declared.region.Order.TheVariants.{Round};
ghost use Rattle.ob_vault.specs.Tied.{IsOwn, Lives, OnTurn};
ghost use Rattle.ob_vault.specs.Numbers.{spent};
ghost use Rattle.ob_vault.specs.Places.{at, RowsFit};
ghost use Rattle.ob_vault.specs.Rows.{joined};
ghost use Rattle.ob_vault.specs.Words.{MayAsk, MayStart};
ghost use Rattle.ob_blocks.specs.Blocks.{none_of};
ghost use Rattle.ob_blocks.specs.Idle.{IsIdle};
ghost use Rattle.ob_flat.specs.Slots.{Spelt};
ghost use Rattle.ob_flat.specs.Flats.{IsSized, FitsRegion, table_region};
ghost use Rattle.ob_flat.specs.Words.{HasSpare, FitBlock};
ghost use Rattle.ob_flat.specs.Creates.{MakesTable, FillsRegion, CreatesRegion, Creates, table_of};

use crate::fault::OpErr;
use crate::flat::Flat;
use ob_base::Schema;
use ob_room::{ClearRow, RowBuffer};
use ob_row::width;
use ob_store::BlockStore;
use ob_vault::{Order, Region, Revisions, Vault, VaultErr};

// The region of a table.
fn region_of_table(schema: &Schema, capacity: u32, pack: u32, order: Order) -> Region
    requires size { FitsRegion pack schema.now capacity }
    requires pack { (1 ≤ pack) × (pack ≤ 16) }
    ensures { result ≡ table_region order pack schema.now capacity }
{
    Region {
        blocks: capacity.div_ceil(pack),
        width: pack * width(schema),
        order,
    }
}

/// Makes the region of a table whose blocks have `pack` slots: as many blocks as hold `capacity` slots,
/// which will be written in this order. Nothing is written to it yet. `Failed` where the store failed,
/// or `NoMemory`.
pub fn make_table<S: BlockStore, R: Revisions>(
    store: &mut S,
    vault: &mut Vault<R>,
    schema: &Schema,
    capacity: u32,
    pack: u32,
    order: Order,
) -> Result<u64, OpErr>
    requires spare { HasSpare 1 (at R.state vault.old (S.state store.old)) }
    requires few { spent (at R.state vault.old (S.state store.old)) < 2 ^ 63 + 2 ^ 60 }
    requires size { FitsRegion pack schema.now capacity }
    requires pack { (1 ≤ pack) × (pack ≤ 16) }
    ensures spent { (S.state store.old).spare ≤ (S.state store.new).spare + 1 }
    ensures makes { MakesTable order pack (table_of schema.now capacity vault.old.next)
        result (at R.state vault.old (S.state store.old))
        (at R.state vault.new (S.state store.new)) }
{
    let shape = region_of_table(schema, capacity, pack, order);
    let region = vault.make(store, shape.blocks, shape.width, shape.order)?;
    Ok(region)
}

/// Writes the same rows to each place of a region that this run made, in order, as a block has rows.
/// `Failed` where the store failed.
pub fn fill_blocks<S: BlockStore, R: Revisions>(
    store: &mut S,
    vault: &mut Vault<R>,
    rows: &[ClearRow],
    region: u64,
    shape: Region,
) -> Result<(), VaultErr>
    requires asks { MayAsk shape.blocks (at R.state vault.old (S.state store.old)) }
    requires own { IsOwn region (at R.state vault.old (S.state store.old)) }
    requires lives { Lives region shape (at R.state vault.old (S.state store.old)) }
    requires turn { OnTurn region shape 0 (at R.state vault.old (S.state store.old)) }
    requires fit { RowsFit rows.now shape.width }
    ensures fills { FillsRegion region shape
        (joined (shape.width / length rows.now) rows.now) result
        (at R.state vault.old (S.state store.old)) (at R.state vault.new (S.state store.new)) }
{
    for u in 0..shape.blocks {
        vault.put(store, region, u, rows)?;
    }
    Ok(())
}

/// Makes the region of a table that is written in this order, and writes these rows, which are dummies
/// and as many as a block has, to each of its places, in order. `Failed` where the store failed, or
/// `NoMemory` before anything is written; the region is forgotten then.
pub fn create_blocks<S: BlockStore, R: Revisions>(
    store: &mut S,
    vault: &mut Vault<R>,
    rows: &[ClearRow],
    schema: &Schema,
    capacity: u32,
    order: Order,
) -> Result<u64, OpErr>
    requires starts { MayStart (1 + blocks_for (length rows.now) capacity)
        (at R.state vault.old (S.state store.old)) }
    requires size { FitsRegion (length rows.now) schema.now capacity }
    requires pack { (1 ≤ length rows.now) × (length rows.now ≤ 16) }
    requires fit { FitBlock schema.now rows.now }
    requires dummies { Spelt schema.now (none_of (length rows.now)) rows.now }
    ensures creates { CreatesRegion order (length rows.now)
        (table_of schema.now capacity vault.old.next) result
        (at R.state vault.old (S.state store.old)) (at R.state vault.new (S.state store.new)) }
{
    let pack = rows.len() as u32;
    let region = make_table(store, vault, schema, capacity, pack, order)?;
    match fill_blocks(
        store,
        vault,
        rows,
        region,
        region_of_table(schema, capacity, pack, order),
    ) {
        Ok(()) => Ok(region),
        Err(e) => {
            vault.forget(region);
            Err(OpErr::from(e))
        }
    }
}

/// Makes a table of `capacity` empty slots: a region, and a block of dummies at each of its places, in
/// order. `Failed` where the store failed, or `NoMemory` before anything is written; the region is
/// forgotten then.
pub fn create<S: BlockStore, R: Revisions>(
    store: &mut S,
    vault: &mut Vault<R>,
    room: &mut RowBuffer,
    schema: &Schema,
    capacity: u32,
) -> Result<Flat, OpErr>
    requires starts { MayStart (1 + blocks_for room.old.pack capacity)
        (at R.state vault.old (S.state store.old)) }
    requires size { IsSized schema.now capacity }
    requires room { IsIdle (width schema.now) room.old }
    ensures room { room.new ≡ record room.old { high = max room.old.high room.old.pack } }
    ensures creates { Creates Round room.old.pack (table_of schema.now capacity vault.old.next)
        result (at R.state vault.old (S.state store.old))
        (at R.state vault.new (S.state store.new)) }
{
    let pack = room.pack();
    let rows = room.open(pack);
    let result = create_blocks(store, vault, rows, schema, capacity, Order::Round);
    room.clear_shelf();
    match result {
        Ok(region) => Ok(Flat {
            schema: schema.copied(),
            capacity,
            region,
        }),
        Err(e) => Err(e),
    }
}
