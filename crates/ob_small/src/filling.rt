//! The result of Small, pass by pass.
ghost use Rattle.std.specs.Prelude.{length};
ghost use Rattle.ob_vault.specs.Places.{at};
ghost use Rattle.ob_vault.specs.Rows.{SameSizes};
ghost use Rattle.ob_vault.specs.Words.{MayAsk};
ghost use Rattle.ob_flat.specs.Words.{IsTable, FitBlock};
ghost use Rattle.ob_small.specs.Selection.{IsNew, AreBuffers, Fills, select_of, fill_length};

use crate::collecting::collect_blocks;
use crate::writing::write_blocks;
use ob_flat::{Flat, OpErr};
use ob_room::ClearRow;
use ob_row::Pred;
use ob_store::BlockStore;
use ob_vault::{Revisions, Vault};

// Fills a result in passes over a table: in each the next selected rows are kept, as many as there is
// space for, which is that of so many blocks, and then written.
pub(crate) fn fill_result<S: BlockStore, R: Revisions>(
    store: &mut S,
    vault: &mut Vault<R>,
    rows: &mut [ClearRow],
    kept: &mut [ClearRow],
    buffered: u32,
    flat: &Flat,
    pred: &Pred,
    to: &Flat,
) -> Result<(), OpErr>
    requires asks { MayAsk
        (fill_length (select_of (length rows.old) buffered flat.now pred.now to.now.capacity))
        (at R.state vault.old (S.state store.old)) }
    requires table { IsTable (length rows.old) flat.now (at R.state vault.old (S.state store.old)) }
    requires new { IsNew (select_of (length rows.old) buffered flat.now pred.now to.now.capacity)
        to.now (at R.state vault.old (S.state store.old)) }
    requires fit { FitBlock flat.now.schema rows.old }
    requires buffers { AreBuffers
        (select_of (length rows.old) buffered flat.now pred.now to.now.capacity) kept.old }
    ensures rows { SameSizes rows.old rows.new }
    ensures kept { SameSizes kept.old kept.new }
    ensures fills { Fills (select_of (length rows.old) buffered flat.now pred.now to.now.capacity)
        to.now.region result
        (at R.state vault.old (S.state store.old)) (at R.state vault.new (S.state store.new)) }
{
    let pack = rows.len() as u32;
    let results = to.capacity.div_ceil(pack);
    for j in 0..results.div_ceil(buffered) {
        let first = j * buffered;
        let n = buffered.min(results - first);
        collect_blocks(
            store,
            vault,
            rows,
            kept,
            flat,
            pred,
            first * pack,
            to.capacity,
        )?;
        write_blocks(store, vault, kept, pack, to, first, n)?;
    }
    Ok(())
}
