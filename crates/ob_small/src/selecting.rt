//! The operator Small: as many passes as the kept rows take.
ghost use Rattle.std.specs.Prelude.{◌≡◌, ◌≤◌, ◌+◌, ◌*◌, max, length};
ghost use Rattle.ob_base.specs.Limits.{buffered_blocks};
ghost use Rattle.ob_base.specs.Schemas.{width};
ghost use Rattle.ob_vault.specs.Places.{at};
ghost use Rattle.ob_vault.specs.Rows.{SameSizes};
ghost use Rattle.ob_vault.specs.Words.{MayStart};
ghost use Rattle.ob_blocks.specs.Idle.{IsIdle};
ghost use Rattle.ob_flat.specs.Flats.{IsSized, IsFlat};
ghost use Rattle.ob_flat.specs.Words.{IsTable, FitBlock};
ghost use Rattle.ob_small.specs.Selection.{AreBuffers, Selects, select_of, select_in, fill_length};

use crate::filling::fill_result;
use ob_flat::{Flat, OpErr, make_table};
use ob_room::{ClearRow, RowBuffer};
use ob_row::Pred;
use ob_store::BlockStore;
use ob_vault::{Order, Revisions, Vault};

// The whole operator over these rows, as many as a block has, and those that are kept, so many blocks.
fn select_rows<S: BlockStore, R: Revisions>(
    store: &mut S,
    vault: &mut Vault<R>,
    rows: &mut [ClearRow],
    kept: &mut [ClearRow],
    buffered: u32,
    flat: &Flat,
    pred: &Pred,
    k: u32,
) -> Result<Flat, OpErr>
    requires starts { MayStart
        (1 + fill_length (select_of (length rows.old) buffered flat.now pred.now k))
        (at R.state vault.old (S.state store.old)) }
    requires table { IsTable (length rows.old) flat.now (at R.state vault.old (S.state store.old)) }
    requires number { (1 ≤ k) × (k ≤ flat.now.capacity) }
    requires fit { FitBlock flat.now.schema rows.old }
    requires buffers { AreBuffers
        (select_of (length rows.old) buffered flat.now pred.now k) kept.old }
    ensures rows { SameSizes rows.old rows.new }
    ensures kept { SameSizes kept.old kept.new }
    ensures selects { Selects (select_of (length rows.old) buffered flat.now pred.now k) result
        (at R.state vault.old (S.state store.old)) (at R.state vault.new (S.state store.new)) }
{
    let pack = rows.len() as u32;
    let region = make_table(store, vault, &flat.schema, k, pack, Order::Round)?;
    let fresh = Flat {
        schema: flat.schema.copied(),
        capacity: k,
        region,
    };
    match fill_result(store, vault, rows, kept, buffered, flat, pred, &fresh) {
        Ok(()) => Ok(fresh),
        Err(e) => {
            vault.forget(region);
            Err(e)
        }
    }
}

/// Selects the rows of a table that make the condition true, `k` of them, into a fresh region of `k`
/// slots, in order of their slots. `S` rows are kept at once: as many as fill the blocks that may be open
/// beside two. In pass `j`, of as many as `k` rows take, each block of the table is read, in order, and
/// the selected rows from number `j * S` on are kept; then they are written, block by block, the last
/// block filled up with dummies.
///
/// The accesses follow from `k` and not from the rows: where `k` is not their number, the surplus is
/// dropped, and a dummy stands for each that is missing. `Failed` where the store failed, `Tampered` with
/// the place of a block that is not what was written there last, or that has a malformed row, and
/// `NoMemory` before anything is read. After an error the fresh region is forgotten.
pub fn select<S: BlockStore, R: Revisions>(
    store: &mut S,
    vault: &mut Vault<R>,
    room: &mut RowBuffer,
    flat: &Flat,
    pred: &Pred,
    k: u32,
) -> Result<Flat, OpErr>
    requires starts { MayStart (1 + fill_length (select_in room.old flat.now pred.now k))
        (at R.state vault.old (S.state store.old)) }
    requires flat { IsFlat room.old.pack flat.now (at R.state vault.old (S.state store.old)) }
    requires size { IsSized flat.now.schema flat.now.capacity }
    requires room { IsIdle (width flat.now.schema) room.old }
    requires number { (1 ≤ k) × (k ≤ flat.now.capacity) }
    ensures room { room.new ≡ record room.old {
      high = max room.old.high (room.old.pack
          + buffered_blocks room.old.pack room.old.rows * room.old.pack);
    } }
    ensures selects { Selects (select_in room.old flat.now pred.now k) result
        (at R.state vault.old (S.state store.old)) (at R.state vault.new (S.state store.new)) }
{
    let pack = room.pack();
    let buffered = (room.rows() - 2 * pack) / pack;
    let open = room.open(pack + buffered * pack);
    let (rows, kept) = open.split_at_mut(pack as usize);
    let result = select_rows(store, vault, rows, kept, buffered, flat, pred, k);
    room.clear_shelf();
    result
}

/// Selects the first `q` rows of a table that make the condition true into a fresh region of `q` slots, in
/// order of their slots, with empty slots after them where there are fewer: as [`select`] does, except for a
/// `q` that is no number of selected rows, from 1 to that of the table's slots. A result is padded so: what
/// is asked follows from `q` alone, whatever the rows are.
///
/// `Failed`, `Tampered` and `NoMemory` as in [`select`]. After an error the fresh region is forgotten.
pub fn select_padded<S: BlockStore, R: Revisions>(
    store: &mut S,
    vault: &mut Vault<R>,
    room: &mut RowBuffer,
    flat: &Flat,
    pred: &Pred,
    q: u32,
) -> Result<Flat, OpErr>
    requires starts { MayStart (1 + fill_length (select_in room.old flat.now pred.now q))
        (at R.state vault.old (S.state store.old)) }
    requires flat { IsFlat room.old.pack flat.now (at R.state vault.old (S.state store.old)) }
    requires size { IsSized flat.now.schema flat.now.capacity }
    requires room { IsIdle (width flat.now.schema) room.old }
    requires number { (1 ≤ q) × (q ≤ flat.now.capacity) }
    ensures room { room.new ≡ record room.old {
      high = max room.old.high (room.old.pack
          + buffered_blocks room.old.pack room.old.rows * room.old.pack);
    } }
    ensures selects { Selects (select_in room.old flat.now pred.now q) result
        (at R.state vault.old (S.state store.old)) (at R.state vault.new (S.state store.new)) }
{
    select(store, vault, room, flat, pred, q)
}
