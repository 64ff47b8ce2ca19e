//! The operator Hash: each row in one of its two buckets.
ghost use Rattle.std.specs.Prelude.{◌≡◌, ◌*◌, max, length};
ghost use Rattle.ob_base.specs.Schemas.{width};
ghost use Rattle.ob_vault.specs.Places.{at};
ghost use Rattle.ob_vault.specs.Rows.{SameSizes};
ghost use Rattle.ob_vault.specs.Words.{MayStart};
ghost use Rattle.ob_row.specs.Truth.{is_true};
ghost use Rattle.ob_blocks.specs.Blocks.{none_of};
ghost use Rattle.ob_blocks.specs.Idle.{IsIdle};
ghost use Rattle.ob_flat.specs.Slots.{Spelt};
ghost use Rattle.ob_flat.specs.Flats.{IsSized, IsFlat};
ghost use Rattle.ob_flat.specs.Words.{IsTable};
ghost use Rattle.ob_hash.specs.Hashing.{FitsBuckets, AreBuffers, layout_at, select_length};
ghost use Rattle.ob_hash.specs.Selecting.{Selects};

use crate::buckets::Hashed;
use crate::hashing::hash_blocks;
use ob_flat::{Flat, OpErr, create_blocks};
use ob_room::{ClearRow, RowBuffer};
use ob_row::Pred;
use ob_store::BlockStore;
use ob_vault::{Order, Revisions, Vault};

/// What the operator answers: each selected row is in the result; or one at least found both its buckets
/// full, and is not in it. The first such row is that of the slot that is given.
#[derive(Drop)]
pub enum Placed {
    Done(Flat),
    Overflow(Flat, u32),
}

// The whole operator over these rows, as many as a block has, and the rows of a block of dummies.
fn select_rows<S: BlockStore, R: Revisions>(
    store: &mut S,
    vault: &mut Vault<R>,
    rows: &mut [ClearRow],
    block: &mut [ClearRow],
    flat: &Flat,
    pred: &Pred,
    k: u32,
    depth: u32,
) -> Result<Placed, OpErr>
    requires starts { MayStart
        (select_length (layout_at (length rows.old) flat.now k depth vault.old.next) flat.now)
        (at R.state vault.old (S.state store.old)) }
    requires table { IsTable (length rows.old) flat.now (at R.state vault.old (S.state store.old)) }
    requires sizes { FitsBuckets k depth flat.now }
    requires buffers { AreBuffers
        (layout_at (length rows.old) flat.now k depth vault.old.next) rows.old block.old }
    requires dummies { Spelt flat.now.schema (none_of (length block.old)) block.old }
    ensures rows { SameSizes rows.old rows.new }
    ensures block { SameSizes block.old block.new }
    ensures selects { Selects (layout_at (length rows.old) flat.now k depth vault.old.next)
        flat.now (is_true pred.now) result
        (at R.state vault.old (S.state store.old)) (at R.state vault.new (S.state store.new)) }
{
    let capacity = k * depth * rows.len() as u32;
    let region = create_blocks(store, vault, block, &flat.schema, capacity, Order::Any)?;
    let fresh = Flat {
        schema: flat.schema.copied(),
        capacity,
        region,
    };
    let hashed = Hashed {
        flat: &fresh,
        k,
        depth,
    };
    match hash_blocks(store, vault, rows, block, &hashed, flat, pred) {
        Ok(None) => Ok(Placed::Done(fresh)),
        Ok(Some(i)) => Ok(Placed::Overflow(fresh, i)),
        Err(e) => {
            vault.forget(region);
            Err(e)
        }
    }
}

/// Selects the rows of a table that make the condition true into a fresh region of `k` buckets, each of
/// `depth` blocks, so of `depth` times as many slots as a block has. The region is filled with dummies;
/// then each block of the table is read, in order, and for each of its slots below the capacity every
/// block of the slot's first bucket is read and written, in order, and then every block of its second. A
/// selected row goes into the first dummy that is met.
///
/// Both buckets follow from the slot's index and from `k` alone, and so do the accesses, which are the
/// same where a row finds no dummy. `k` is the number of selected rows or any other number up to the
/// capacity. `Failed` where the store failed, `Tampered` with the region and the place of a block that is
/// not what was written there last, or that has a malformed row, and `NoMemory` before anything is
/// written. After an error the fresh region is forgotten.
pub fn select<S: BlockStore, R: Revisions>(
    store: &mut S,
    vault: &mut Vault<R>,
    room: &mut RowBuffer,
    flat: &Flat,
    pred: &Pred,
    k: u32,
    depth: u8,
) -> Result<Placed, OpErr>
    requires starts { MayStart
        (select_length (layout_at room.old.pack flat.now k depth vault.old.next) flat.now)
        (at R.state vault.old (S.state store.old)) }
    requires flat { IsFlat room.old.pack flat.now (at R.state vault.old (S.state store.old)) }
    requires size { IsSized flat.now.schema flat.now.capacity }
    requires sizes { FitsBuckets k depth flat.now }
    requires room { IsIdle (width flat.now.schema) room.old }
    ensures room { room.new ≡ record room.old { high = max room.old.high (2 * room.old.pack) } }
    ensures selects { Selects (layout_at room.old.pack flat.now k depth vault.old.next)
        flat.now (is_true pred.now) result
        (at R.state vault.old (S.state store.old)) (at R.state vault.new (S.state store.new)) }
{
    let pack = room.pack();
    let open = room.open(2 * pack);
    let (rows, block) = open.split_at_mut(pack as usize);
    let depth = u32::from(depth);
    let result = select_rows(store, vault, rows, block, flat, pred, k, depth);
    room.clear_shelf();
    result
}
