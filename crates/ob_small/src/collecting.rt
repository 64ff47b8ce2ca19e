//! The pass of Small that keeps the next selected rows.
ghost use Rattle.std.specs.Prelude.{◌<◌, ◌≤◌, ◌+◌, ◌*◌, length};
ghost use Rattle.ob_base.specs.Schemas.{width};
ghost use Rattle.ob_vault.specs.Places.{at};
ghost use Rattle.ob_vault.specs.Rows.{SameSizes, Wide};
ghost use Rattle.ob_row.specs.Truth.{is_true};
ghost use Rattle.ob_flat.specs.Scans.{MayScan};
ghost use Rattle.ob_flat.specs.Words.{HasSpare, IsTable, FitBlock, blocks_of};
ghost use Rattle.ob_small.specs.Selection.{Collects};
ghost use Rattle.ob_small.specs.Steps.{CollectsBlock};

use crate::keeping::keep_rows;
use ob_flat::{Flat, OpErr, clear_rows};
use ob_room::ClearRow;
use ob_row::{Malformed, Pred};
use ob_store::BlockStore;
use ob_vault::{Revisions, Vault};

/// Reads one block of a table into these rows, as many as a block has, and keeps those of its selected rows
/// that have a number from `from` on and below `k`, as many as there is space for: `seen` selected rows come
/// before it. Answers how many there are with its own. Before the first block the kept rows are dummies, and
/// so are those after the last one that is kept.
///
/// `Failed` where the store failed, and `Tampered` where the block is not what was written there last, or
/// has a malformed row.
pub fn collect_block<S: BlockStore, R: Revisions>(
    store: &mut S,
    vault: &mut Vault<R>,
    rows: &mut [ClearRow],
    kept: &mut [ClearRow],
    flat: &Flat,
    pred: &Pred,
    place: u32,
    seen: u32,
    from: u32,
    k: u32,
) -> Result<u32, OpErr>
    requires spare { HasSpare 1 (at R.state vault.old (S.state store.old)) }
    requires table { MayScan (length rows.old) flat.now
        (at R.state vault.old (S.state store.old)) }
    requires within { place < blocks_of (length rows.old) flat.now }
    requires fit { FitBlock flat.now.schema rows.old }
    requires wide { Wide (width flat.now.schema) kept.old }
    requires few { seen ≤ place * length rows.old }
    ensures spent { (S.state store.old).spare ≤ (S.state store.new).spare + 1 }
    ensures rows { SameSizes rows.old rows.new }
    ensures kept { SameSizes kept.old kept.new }
    ensures collects { CollectsBlock (length rows.old) flat.now (is_true pred.now) place seen from k
        kept.old kept.new result
        (at R.state vault.old (S.state store.old)) (at R.state vault.new (S.state store.new)) }
{
    vault.get(store, flat.region, place, rows)?;
    match keep_rows(pred, &flat.schema, rows, seen, from, k, kept) {
        Ok(n) => Ok(n),
        Err(Malformed) => Err(OpErr::Tampered {
            region: flat.region,
            place,
        }),
    }
}

// Reads each block of a table once, in order, into these rows, as many as a block has, and keeps those
// of its selected rows that have a number from `from` on and below `k`, as many as there is space for.
// The other kept rows are dummies.
pub(crate) fn collect_blocks<S: BlockStore, R: Revisions>(
    store: &mut S,
    vault: &mut Vault<R>,
    rows: &mut [ClearRow],
    kept: &mut [ClearRow],
    flat: &Flat,
    pred: &Pred,
    from: u32,
    k: u32,
) -> Result<(), OpErr>
    requires spare { HasSpare (blocks_of (length rows.old) flat.now)
        (at R.state vault.old (S.state store.old)) }
    requires table { IsTable (length rows.old) flat.now (at R.state vault.old (S.state store.old)) }
    requires fit { FitBlock flat.now.schema rows.old }
    requires wide { Wide (width flat.now.schema) kept.old }
    ensures rows { SameSizes rows.old rows.new }
    ensures kept { SameSizes kept.old kept.new }
    ensures collects { Collects (length rows.old) flat.now (is_true pred.now) from k kept.new result
        (at R.state vault.old (S.state store.old)) (at R.state vault.new (S.state store.new)) }
{
    clear_rows(kept);
    let pack = rows.len() as u32;
    let blocks = flat.capacity.div_ceil(pack);
    let mut seen = 0;
    for u in 0..blocks {
        seen = collect_block(store, vault, rows, kept, flat, pred, u, seen, from, k)?;
    }
    Ok(())
}
