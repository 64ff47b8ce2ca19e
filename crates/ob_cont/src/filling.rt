//! The pass that puts each selected row to its place.
ghost use Rattle.std.specs.Prelude.{◌≡◌, ◌+◌, ◌*◌, length};
ghost use Rattle.ob_script.specs.Parts.{slots_in};
ghost use Rattle.ob_row.specs.Truth.{is_true};
ghost use Rattle.ob_vault.specs.Places.{at};
ghost use Rattle.ob_vault.specs.Rows.{SameSizes};
ghost use Rattle.ob_vault.specs.Words.{MayAsk};
ghost use Rattle.ob_flat.specs.Words.{IsTable, FitBlock};
ghost use Rattle.ob_cont.specs.Selecting.{IsDue, IsTarget, IsBlock, AreBuffers, PutsBlock, Fills, fill_length};

use crate::putting::put_row;
use ob_flat::{Flat, OpErr, check_rows};
use ob_room::ClearRow;
use ob_row::{Malformed, Pred, holds};
use ob_store::BlockStore;
use ob_vault::{Revisions, Vault};

// Turns to the place of each slot of block `u` of a table, whose rows these are, in order. The slots
// behind the capacity have no place.
fn put_block<S: BlockStore, R: Revisions>(
    store: &mut S,
    vault: &mut Vault<R>,
    rows: &[ClearRow],
    held: &mut [ClearRow],
    flat: &Flat,
    pred: &Pred,
    to: &Flat,
    u: u32,
) -> Result<(), OpErr>
    requires asks { MayAsk (2 * slots_in (length held.old) flat.now.capacity u)
        (at R.state vault.old (S.state store.old)) }
    requires due { IsDue (length held.old) to.now (u * length held.old)
        (at R.state vault.old (S.state store.old)) }
    requires schema { to.now.schema ≡ flat.now.schema }
    requires block { IsBlock (length held.old) flat.now u rows.now }
    requires fit { FitBlock to.now.schema held.old }
    ensures held { SameSizes held.old held.new }
    ensures puts { PutsBlock (length held.old) flat.now (is_true pred.now) to.now u rows.now result
        (at R.state vault.old (S.state store.old)) (at R.state vault.new (S.state store.new)) }
{
    let first = u * held.len() as u32;
    for z in 0..rows.len() {
        match holds(pred, &flat.schema, &rows[z]) {
            Ok(selected) => {
                let i = first + z as u32;
                if i < flat.capacity {
                    put_row(store, vault, held, to, &rows[z], selected, i)?;
                }
            }
            Err(Malformed) => unreachable!(),
        }
    }
    Ok(())
}

// Reads each block of a table once, in order, into these rows, as many as a block has, and after each
// turns to the places of its slots in a result whose places were each written. A block with a malformed
// row is refused before any of them.
pub(crate) fn fill_result<S: BlockStore, R: Revisions>(
    store: &mut S,
    vault: &mut Vault<R>,
    rows: &mut [ClearRow],
    held: &mut [ClearRow],
    flat: &Flat,
    pred: &Pred,
    to: &Flat,
) -> Result<(), OpErr>
    requires asks { MayAsk (fill_length (length held.old) flat.now)
        (at R.state vault.old (S.state store.old)) }
    requires table { IsTable (length held.old) flat.now (at R.state vault.old (S.state store.old)) }
    requires target { IsTarget (length held.old) flat.now to.now
        (at R.state vault.old (S.state store.old)) }
    requires buffers { AreBuffers flat.now rows.old held.old }
    ensures rows { SameSizes rows.old rows.new }
    ensures held { SameSizes held.old held.new }
    ensures fills { Fills (length held.old) flat.now (is_true pred.now) to.now result
        (at R.state vault.old (S.state store.old)) (at R.state vault.new (S.state store.new)) }
{
    let pack = held.len() as u32;
    for u in 0..flat.capacity.div_ceil(pack) {
        vault.get(store, flat.region, u, rows)?;
        match check_rows(&flat.schema, rows) {
            Ok(()) => {}
            Err(Malformed) => {
                return Err(OpErr::Tampered {
                    region: flat.region,
                    place: u,
                });
            }
        }
        put_block(store, vault, rows, held, flat, pred, to, u)?;
    }
    Ok(())
}
