//! The second pass of Large.
ghost use Rattle.std.specs.Prelude.{◌*◌, length};
ghost use Rattle.ob_vault.specs.Places.{at};
ghost use Rattle.ob_vault.specs.Tied.{IsOwn};
ghost use Rattle.ob_vault.specs.Rows.{SameSizes};
ghost use Rattle.ob_row.specs.Truth.{is_true};
ghost use Rattle.ob_vault.specs.Words.{MayAsk};
ghost use Rattle.ob_flat.specs.Words.{IsTable, FitBlock, blocks_of};
ghost use Rattle.ob_large.specs.Selecting.{Empties};

use crate::changing::Unselected;
use ob_flat::{Flat, OpErr, rework_block};
use ob_room::ClearRow;
use ob_row::Pred;
use ob_store::BlockStore;
use ob_vault::{Revisions, Vault};

// Reads and writes each block of a table that this run made, in order, and empties each slot whose row doesn't make the
// condition true, through these rows, of which there are as many as a block has.
pub(crate) fn empty_unselected<S: BlockStore, R: Revisions>(
    store: &mut S,
    vault: &mut Vault<R>,
    rows: &mut [ClearRow],
    flat: &Flat,
    pred: &Pred,
) -> Result<(), OpErr>
    requires asks { MayAsk (2 * blocks_of (length rows.old) flat.now)
        (at R.state vault.old (S.state store.old)) }
    requires table { IsTable (length rows.old) flat.now (at R.state vault.old (S.state store.old)) }
    requires own { IsOwn flat.now.region (at R.state vault.old (S.state store.old)) }
    requires fit { FitBlock flat.now.schema rows.old }
    ensures rows { SameSizes rows.old rows.new }
    ensures empties { Empties (length rows.old) flat.now (is_true pred.now) result
        (at R.state vault.old (S.state store.old)) (at R.state vault.new (S.state store.new)) }
{
    let pack = rows.len() as u32;
    let blocks = flat.capacity.div_ceil(pack);
    for u in 0..blocks {
        rework_block(store, vault, rows, flat, u, &mut Unselected { pred })?;
    }
    Ok(())
}
