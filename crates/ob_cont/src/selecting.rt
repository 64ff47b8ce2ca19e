//! The operator Continuous: a result whose rows lie as the selected ones do.
ghost use Rattle.std.specs.Prelude.{◌≡◌, ◌≤◌, ◌*◌, max, length};
ghost use Rattle.ob_base.specs.Schemas.{width};
ghost use Rattle.ob_row.specs.Truth.{is_true};
ghost use Rattle.ob_vault.specs.Places.{at};
ghost use Rattle.ob_vault.specs.Rows.{SameSizes};
ghost use Rattle.ob_vault.specs.Words.{MayStart};
ghost use Rattle.ob_blocks.specs.Blocks.{none_of};
ghost use Rattle.ob_blocks.specs.Idle.{IsIdle};
ghost use Rattle.ob_flat.specs.Slots.{Spelt};
ghost use Rattle.ob_flat.specs.Flats.{IsSized, IsFlat};
ghost use Rattle.ob_flat.specs.Words.{IsTable};
ghost use Rattle.ob_cont.specs.Putting.{order_for};
ghost use Rattle.ob_cont.specs.Selecting.{AreBuffers, Selects, select_length};

use crate::filling::fill_result;
use ob_flat::{Flat, OpErr, create_blocks};
use ob_room::{ClearRow, RowBuffer};
use ob_row::Pred;
use ob_store::BlockStore;
use ob_vault::{Order, Revisions, Vault};

// The order in which the places of a result are written.
fn order_of(pack: u32) -> Order
    ensures { result ≡ order_for pack }
{
    if pack == 1 { Order::Round } else { Order::Any }
}

// The whole operator over these rows, of either as many as a block has; those of the result are dummies.
fn select_rows<S: BlockStore, R: Revisions>(
    store: &mut S,
    vault: &mut Vault<R>,
    rows: &mut [ClearRow],
    held: &mut [ClearRow],
    flat: &Flat,
    pred: &Pred,
    k: u32,
) -> Result<Flat, OpErr>
    requires starts { MayStart (select_length (length held.old) flat.now k)
        (at R.state vault.old (S.state store.old)) }
    requires table { IsTable (length held.old) flat.now (at R.state vault.old (S.state store.old)) }
    requires number { (1 ≤ k) × (k ≤ flat.now.capacity) }
    requires buffers { AreBuffers flat.now rows.old held.old }
    requires dummies { Spelt flat.now.schema (none_of (length held.old)) held.old }
    ensures rows { SameSizes rows.old rows.new }
    ensures held { SameSizes held.old held.new }
    ensures selects { Selects (length held.old) flat.now (is_true pred.now) k result
        (at R.state vault.old (S.state store.old)) (at R.state vault.new (S.state store.new)) }
{
    let order = order_of(held.len() as u32);
    let region = create_blocks(store, vault, held, &flat.schema, k, order)?;
    let fresh = Flat {
        schema: flat.schema.copied(),
        capacity: k,
        region,
    };
    match fill_result(store, vault, rows, held, flat, pred, &fresh) {
        Ok(()) => Ok(fresh),
        Err(e) => {
            vault.forget(region);
            Err(e)
        }
    }
}

/// Selects the rows of a table that make the condition true into a fresh region of `k` slots, slot `i`
/// of the table to place `i mod k`: if `k` rows are selected, and these stand in slots that follow one
/// another, each has a place of its own. The region is filled with dummies. Then each block of the table
/// is read, in order, and for each of its slots the block of its place is read and written: with the
/// slot's row in its place where it is selected, and else as it was.
///
/// The accesses follow from `k` and not from the rows: where two selected rows have one place, the later
/// one stands there, and a dummy where none has. `Failed` where the store failed, `Tampered` with the
/// place of the block that was read last, of the table or of the fresh region, where it is not what was
/// written there last or has a malformed row, and `NoMemory` before anything is written. After an error
/// the fresh region is forgotten.
pub fn select<S: BlockStore, R: Revisions>(
    store: &mut S,
    vault: &mut Vault<R>,
    room: &mut RowBuffer,
    flat: &Flat,
    pred: &Pred,
    k: u32,
) -> Result<Flat, OpErr>
    requires starts { MayStart (select_length room.old.pack flat.now k)
        (at R.state vault.old (S.state store.old)) }
    requires flat { IsFlat room.old.pack flat.now (at R.state vault.old (S.state store.old)) }
    requires size { IsSized flat.now.schema flat.now.capacity }
    requires room { IsIdle (width flat.now.schema) room.old }
    requires number { (1 ≤ k) × (k ≤ flat.now.capacity) }
    ensures room { room.new ≡ record room.old { high = max room.old.high (2 * room.old.pack) } }
    ensures selects { Selects room.old.pack flat.now (is_true pred.now) k result
        (at R.state vault.old (S.state store.old)) (at R.state vault.new (S.state store.new)) }
{
    let pack = room.pack();
    let open = room.open(2 * pack);
    let (rows, held) = open.split_at_mut(pack as usize);
    let result = select_rows(store, vault, rows, held, flat, pred, k);
    room.clear_shelf();
    result
}
