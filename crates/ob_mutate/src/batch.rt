//! Rows that are inserted in one reading and one writing pass.
ghost use Rattle.std.specs.Prelude.{◌≡◌, ◌≢◌, ◌≤◌, ◌<◌, ◌+◌, ◌*◌, ◌^◌, [], max, length, IfSome};
ghost use Rattle.ob_base.specs.Schemas.{key_place, width};
ghost use Rattle.ob_vault.specs.Places.{at};
ghost use Rattle.ob_vault.specs.Rows.{SameSizes, Wide};
ghost use Rattle.ob_vault.specs.Words.{MayAsk, MayStart};
ghost use Rattle.ob_blocks.specs.Idle.{IsIdle};
ghost use Rattle.ob_flat.specs.Flats.{IsSized, IsMade, IsFlat};
ghost use Rattle.ob_flat.specs.Words.{IsTable, FitBlock, blocks_of, moved};
ghost use Rattle.ob_mutate.specs.Batches.{AreFit, AreKept, AreListed, answered, MayKeep, insert_answers, inserted_all, start_notes};
ghost use Rattle.ob_mutate.specs.Mutating.{FillsFresh, InsertsAll, place_script};

use crate::admitting::admit_rows;
use crate::inserting::Inserted;
use crate::noting::{Notes, Noting};
use crate::putting::Puts;
use crate::searching::key_place;
use crate::settling::{Former, move_table};
use ob_base::{Items, NoMemory, Schema};
use ob_flat::{Flat, OpErr, make_table, scan_blocks, swap_blocks};
use ob_order::Order;
use ob_room::{ClearRow, RowBuffer};
use ob_row::{Cell, encode, kind_at, offset};
use ob_store::BlockStore;
use ob_vault::{Order as Turns, Revisions, Vault};
use std::alloc::Global;

// Writes the rows of a batch over those that keep them.
fn keep_rows(schema: &Schema, batch: &[Items<Cell>], kept: &mut [ClearRow])
    requires wide { Wide (width schema.now) kept.old }
    requires count { length kept.old ≡ length batch.now }
    requires fit { AreFit schema.now batch.now }
    ensures sizes { SameSizes kept.old kept.new }
    ensures kept { AreKept schema.now batch.now kept.new }
{
    for j in 0..batch.len() {
        encode(schema, batch[j].as_slice(), &mut kept[j]);
    }
}

// Lists the rows that are kept by their primary key, if there is one.
fn list_rows(key: Option<u8>, schema: &Schema, order: &mut Order, kept: &[ClearRow])
    requires within { IfSome key (λ place. place < length schema.now) }
    requires room { length kept.now ≤ order.old.most }
    requires few { length kept.now < 2 ^ 32 }
    ensures listed { AreListed schema.now key kept.now order.new }
    ensures most { order.new.most ≡ order.old.most }
{
    if let Some(place) = key {
        let len = kind_at(schema, place).width() as usize;
        order.list(kept, offset(schema, place), len);
    }
}

// Reads the whole table, and then writes it to the fresh region, with the rows that are taken in their
// slots.
fn insert_blocks<S: BlockStore, R: Revisions>(
    store: &mut S,
    vault: &mut Vault<R>,
    rows: &mut [ClearRow],
    flat: &Flat,
    fresh: u64,
    order: &Order,
    kept: &[ClearRow],
    batch: &[Items<Cell>],
    notes: Notes,
    out: &mut [Inserted],
) -> Result<(), OpErr>
    requires asks { MayAsk (3 * blocks_of (length rows.old) flat.now)
        (at R.state vault.old (S.state store.old)) }
    requires table { IsTable (length rows.old) flat.now (at R.state vault.old (S.state store.old)) }
    requires made { IsMade (length rows.old) (moved flat.now fresh)
        (at R.state vault.old (S.state store.old)) }
    requires apart { flat.now.region ≢ fresh }
    requires fit { FitBlock flat.now.schema rows.old }
    requires batch { AreFit flat.now.schema batch.now }
    requires kept { AreKept flat.now.schema batch.now kept.now }
    requires few { length kept.now < 2 ^ 32 }
    requires listed { AreListed flat.now.schema (key_place flat.now.schema) kept.now order.now }
    requires notes { notes ≡ start_notes (length kept.now) }
    requires out { length out.old ≡ length kept.now }
    ensures rows { SameSizes rows.old rows.new }
    ensures out { length out.new ≡ length out.old }
    ensures fills { FillsFresh (length rows.old) flat.now fresh
        (place_script (length rows.old) flat.now fresh)
        (insert_answers flat.now.schema batch.now) (inserted_all flat.now.schema batch.now)
        (answered out.new result)
        (at R.state vault.old (S.state store.old)) (at R.state vault.new (S.state store.new)) }
{
    let mut noting = Noting {
        key: key_place(&flat.schema),
        order,
        batch,
        kept,
        notes,
    };
    scan_blocks(store, vault, rows, flat, &mut noting)?;
    let Noting {
        key,
        order,
        batch,
        kept,
        mut notes,
    } = noting;
    admit_rows(&mut notes, key, &flat.schema, order, kept, out);
    let puts = Puts {
        batch,
        free: notes.free(),
        taken: notes.taken(),
    };
    swap_blocks(store, vault, rows, flat, fresh, &puts)?;
    Ok(())
}

// The same, where the rows of the batch are not kept yet.
fn fill_fresh<S: BlockStore, R: Revisions>(
    store: &mut S,
    vault: &mut Vault<R>,
    rows: &mut [ClearRow],
    kept: &mut [ClearRow],
    order: &mut Order,
    flat: &Flat,
    fresh: u64,
    batch: &[Items<Cell>],
    notes: Notes,
    out: &mut [Inserted],
) -> Result<(), OpErr>
    requires asks { MayAsk (3 * blocks_of (length rows.old) flat.now)
        (at R.state vault.old (S.state store.old)) }
    requires table { IsTable (length rows.old) flat.now (at R.state vault.old (S.state store.old)) }
    requires made { IsMade (length rows.old) (moved flat.now fresh)
        (at R.state vault.old (S.state store.old)) }
    requires apart { flat.now.region ≢ fresh }
    requires fit { FitBlock flat.now.schema rows.old }
    requires batch { MayKeep flat.now.schema batch.now kept.old order.old }
    requires notes { notes ≡ start_notes (length batch.now) }
    requires out { length out.old ≡ length batch.now }
    ensures rows { SameSizes rows.old rows.new }
    ensures kept { SameSizes kept.old kept.new }
    ensures most { order.new.most ≡ order.old.most }
    ensures out { length out.new ≡ length out.old }
    ensures fills { FillsFresh (length rows.old) flat.now fresh
        (place_script (length rows.old) flat.now fresh)
        (insert_answers flat.now.schema batch.now) (inserted_all flat.now.schema batch.now)
        (answered out.new result)
        (at R.state vault.old (S.state store.old)) (at R.state vault.new (S.state store.new)) }
{
    keep_rows(&flat.schema, batch, kept);
    list_rows(key_place(&flat.schema), &flat.schema, order, kept);
    insert_blocks(
        store, vault, rows, flat, fresh, order, kept, batch, notes, out,
    )
}

// The whole pass over these rows, as many as a block has, and those that keep the batch.
fn insert_rows<S: BlockStore, R: Revisions>(
    store: &mut S,
    vault: &mut Vault<R>,
    rows: &mut [ClearRow],
    kept: &mut [ClearRow],
    alloc: Global,
    order: &mut Order,
    flat: &mut Flat,
    batch: &[Items<Cell>],
    out: &mut [Inserted],
    former: Former,
) -> Result<(), OpErr>
    requires starts { MayStart (3 * blocks_of (length rows.old) flat.old + 2)
        (at R.state vault.old (S.state store.old)) }
    requires table { IsTable (length rows.old) flat.old (at R.state vault.old (S.state store.old)) }
    requires fit { FitBlock flat.old.schema rows.old }
    requires batch { MayKeep flat.old.schema batch.now kept.old order.old }
    requires out { length out.old ≡ length batch.now }
    ensures rows { SameSizes rows.old rows.new }
    ensures kept { SameSizes kept.old kept.new }
    ensures most { order.new.most ≡ order.old.most }
    ensures out { length out.new ≡ length out.old }
    ensures inserts { InsertsAll former (length rows.old) flat.old flat.new batch.now out.new result
        (at R.state vault.old (S.state store.old)) (at R.state vault.new (S.state store.new)) }
{
    let pack = rows.len() as u32;
    let fresh = make_table(
        store,
        vault,
        &flat.schema,
        flat.capacity,
        pack,
        Turns::Round,
    )?;
    match Notes::new(alloc, batch.len()) {
        Ok(notes) => {
            match fill_fresh(
                store, vault, rows, kept, order, flat, fresh, batch, notes, out,
            ) {
                Ok(()) => {
                    move_table(store, vault, flat, fresh, former);
                    Ok(())
                }
                Err(e) => {
                    vault.forget(fresh);
                    Err(e)
                }
            }
        }
        Err(NoMemory) => {
            vault.forget(fresh);
            Err(OpErr::NoMemory)
        }
    }
}

/// Inserts rows one after the other, as `insert` inserts each, in one pass. A fresh region is made; each
/// block of the table is read, in order; then each is read again and written to the fresh region, with
/// the rows that are taken in its first empty slots; the table has the fresh region, and of its old one
/// becomes what `former` says. So the accesses are those of one INSERT, whatever the
/// number of rows.
///
/// On `Ok` each row's answer stands at its place in `out`. `order` has room for a place of each row; the
/// rows are kept in as many rows of the room, beside those of a block; and `alloc` gives 9 bytes for each.
///
/// `Failed` where the store failed, `Tampered` with the place of a block that is not what was written
/// there last, or that has a malformed row, and `NoMemory` before anything is written. After an error
/// the table is as before, the fresh region is forgotten, and what stands in `out` has no meaning.
pub fn insert_all<S: BlockStore, R: Revisions>(
    store: &mut S,
    vault: &mut Vault<R>,
    room: &mut RowBuffer,
    alloc: Global,
    order: &mut Order,
    flat: &mut Flat,
    batch: &[Items<Cell>],
    out: &mut [Inserted],
    former: Former,
) -> Result<(), OpErr>
    requires starts { MayStart (3 * blocks_of room.old.pack flat.old + 2)
        (at R.state vault.old (S.state store.old)) }
    requires flat { IsFlat room.old.pack flat.old (at R.state vault.old (S.state store.old)) }
    requires size { IsSized flat.old.schema flat.old.capacity }
    requires room { IsIdle (width flat.old.schema) room.old }
    requires batch { AreFit flat.old.schema batch.now }
    requires few { room.old.pack + length batch.now ≤ room.old.rows }
    requires places { length batch.now ≤ order.old.most }
    requires out { length out.old ≡ length batch.now }
    ensures most { order.new.most ≡ order.old.most }
    ensures out { length out.new ≡ length out.old }
    ensures room { room.new ≡ record room.old {
      high = max room.old.high (room.old.pack + length batch.now);
    } }
    ensures inserts { InsertsAll former room.old.pack flat.old flat.new batch.now out.new result
        (at R.state vault.old (S.state store.old)) (at R.state vault.new (S.state store.new)) }
{
    let pack = room.pack();
    let _ = room.rows();
    let open = room.open(pack + batch.len() as u32);
    let (rows, kept) = open.split_at_mut(pack as usize);
    let result = insert_rows(
        store, vault, rows, kept, alloc, order, flat, batch, out, former,
    );
    room.clear_shelf();
    result
}
