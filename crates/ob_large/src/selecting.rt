//! The operator Large: a copy of the table, in which rows are emptied.
ghost use Rattle.std.specs.Prelude.{◌≡◌, ◌+◌, ◌*◌, max, length};
ghost use Rattle.ob_base.specs.Schemas.{width};
ghost use Rattle.ob_vault.specs.Places.{at};
ghost use Rattle.ob_vault.specs.Rows.{SameSizes};
ghost use Rattle.ob_row.specs.Truth.{is_true};
ghost use Rattle.ob_blocks.specs.Idle.{IsIdle};
ghost use Rattle.ob_flat.specs.Flats.{IsSized, IsFlat};
ghost use Rattle.ob_vault.specs.Words.{MayAsk, MayStart};
ghost use Rattle.ob_flat.specs.Words.{IsTable, FitBlock, blocks_of};
ghost use Rattle.ob_large.specs.Selecting.{IsNew, Fills, Selects};

use crate::changing::Unchanged;
use crate::emptying::empty_unselected;
use ob_flat::{Flat, OpErr, make_table, swap_blocks};
use ob_room::{ClearRow, RowBuffer};
use ob_row::Pred;
use ob_store::BlockStore;
use ob_vault::{Order, Revisions, Vault};

// Copies a table to another of its size, and empties the slots there whose row isn't selected.
fn fill_fresh<S: BlockStore, R: Revisions>(
    store: &mut S,
    vault: &mut Vault<R>,
    rows: &mut [ClearRow],
    flat: &Flat,
    pred: &Pred,
    to: &Flat,
) -> Result<(), OpErr>
    requires asks { MayAsk (4 * blocks_of (length rows.old) flat.now)
        (at R.state vault.old (S.state store.old)) }
    requires table { IsTable (length rows.old) flat.now (at R.state vault.old (S.state store.old)) }
    requires new { IsNew (length rows.old) flat.now to.now
        (at R.state vault.old (S.state store.old)) }
    requires fit { FitBlock flat.now.schema rows.old }
    ensures rows { SameSizes rows.old rows.new }
    ensures fills { Fills (length rows.old) flat.now to.now.region (is_true pred.now) result
        (at R.state vault.old (S.state store.old)) (at R.state vault.new (S.state store.new)) }
{
    swap_blocks(store, vault, rows, flat, to.region, &Unchanged)?;
    empty_unselected(store, vault, rows, to, pred)?;
    Ok(())
}

// The whole operator over these rows, as many as a block has.
fn select_rows<S: BlockStore, R: Revisions>(
    store: &mut S,
    vault: &mut Vault<R>,
    rows: &mut [ClearRow],
    flat: &Flat,
    pred: &Pred,
) -> Result<Flat, OpErr>
    requires starts { MayStart (1 + 4 * blocks_of (length rows.old) flat.now)
        (at R.state vault.old (S.state store.old)) }
    requires table { IsTable (length rows.old) flat.now (at R.state vault.old (S.state store.old)) }
    requires fit { FitBlock flat.now.schema rows.old }
    ensures rows { SameSizes rows.old rows.new }
    ensures selects { Selects (length rows.old) flat.now (is_true pred.now) result
        (at R.state vault.old (S.state store.old)) (at R.state vault.new (S.state store.new)) }
{
    let pack = rows.len() as u32;
    let region = make_table(
        store,
        vault,
        &flat.schema,
        flat.capacity,
        pack,
        Order::Round,
    )?;
    let fresh = Flat {
        schema: flat.schema.copied(),
        capacity: flat.capacity,
        region,
    };
    match fill_fresh(store, vault, rows, flat, pred, &fresh) {
        Ok(()) => Ok(fresh),
        Err(e) => {
            vault.forget(region);
            Err(e)
        }
    }
}

/// Selects the rows of a table that make the condition true into a fresh region of its size, each in
/// its slot: in a first pass each block of the table is read, in order, and written to the same place of
/// the fresh region; in a second one each place of that is read and written, with a dummy for each row
/// that isn't selected.
///
/// The accesses follow from the table's size alone, and not from `k`, the number of the selected rows.
/// `Failed` where the store failed, `Tampered` with the place of a block, of the table or of the fresh
/// region, that is not what was written there last, or that has a malformed row, and `NoMemory` before
/// anything is read. After an error the fresh region is forgotten.
pub fn select<S: BlockStore, R: Revisions>(
    store: &mut S,
    vault: &mut Vault<R>,
    room: &mut RowBuffer,
    flat: &Flat,
    pred: &Pred,
    _k: u32,
) -> Result<Flat, OpErr>
    requires starts { MayStart (1 + 4 * blocks_of room.old.pack flat.now)
        (at R.state vault.old (S.state store.old)) }
    requires flat { IsFlat room.old.pack flat.now (at R.state vault.old (S.state store.old)) }
    requires size { IsSized flat.now.schema flat.now.capacity }
    requires room { IsIdle (width flat.now.schema) room.old }
    ensures room { room.new ≡ record room.old { high = max room.old.high room.old.pack } }
    ensures selects { Selects room.old.pack flat.now (is_true pred.now) result
        (at R.state vault.old (S.state store.old)) (at R.state vault.new (S.state store.new)) }
{
    let pack = room.pack();
    let rows = room.open(pack);
    let result = select_rows(store, vault, rows, flat, pred);
    room.clear_shelf();
    result
}
