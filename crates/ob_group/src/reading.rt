//! The pass of GROUP BY.
ghost use Rattle.std.specs.Prelude.{◌≡◌, ◌≤◌, ◌<◌, ◌+◌, length};
ghost use Rattle.ob_vault.specs.Places.{at};
ghost use Rattle.ob_vault.specs.Rows.{SameSizes};
ghost use Rattle.ob_row.specs.Spelling.{kind_at};
ghost use Rattle.ob_row.specs.Truth.{is_true};
ghost use Rattle.ob_flat.specs.Scans.{MayScan};
ghost use Rattle.ob_flat.specs.Words.{HasSpare, IsTable, FitBlock, blocks_of};
ghost use Rattle.ob_group.specs.Held.{KeepsGroups, MayGrow};
ghost use Rattle.ob_group.specs.Passes.{AreItems, AreGroupRows, Gathers};
ghost use Rattle.ob_group.specs.Steps.{GathersAt};

use crate::keeping::group_rows;
use ob_flat::{Flat, OpErr};
use ob_order::Buckets;
use ob_room::ClearRow;
use ob_row::{Item, Malformed, Pred};
use ob_store::BlockStore;
use ob_vault::{Revisions, Vault};

/// Reads one block of a table into these rows, of which there are as many as a block has, puts the
/// selected rows to their groups, of which there were `n` before, and answers how many groups there are:
/// one more than there are rows for them, where there are more.
///
/// `Failed` where the store failed, and `Tampered` where the block is not what was written there last, or
/// has a malformed row. It takes no memory.
pub fn group_block<S: BlockStore, R: Revisions>(
    store: &mut S,
    vault: &mut Vault<R>,
    buckets: &mut Buckets,
    rows: &mut [ClearRow],
    groups: &mut [ClearRow],
    flat: &Flat,
    pred: &Pred,
    key: u8,
    items: &[Item],
    place: u32,
    n: usize,
) -> Result<usize, OpErr>
    requires spare { HasSpare 1 (at R.state vault.old (S.state store.old)) }
    requires table { MayScan (length rows.old) flat.now (at R.state vault.old (S.state store.old)) }
    requires within { place < blocks_of (length rows.old) flat.now }
    requires fit { FitBlock flat.now.schema rows.old }
    requires items { AreItems flat.now.schema key items.now }
    requires places { AreGroupRows groups.old }
    requires held { MayGrow (kind_at flat.now.schema key) (length items.now) n (length rows.old)
        groups.old }
    requires kept { KeepsGroups (kind_at flat.now.schema key) n groups.old buckets.old }
    requires most { length groups.old ≤ buckets.old.most }
    ensures most { buckets.new.most ≡ buckets.old.most }
    ensures rows { SameSizes rows.old rows.new }
    ensures spent { (S.state store.old).spare ≤ (S.state store.new).spare + 1 }
    ensures gathers { GathersAt (length rows.old) flat.now (is_true pred.now) key items.now place n
        result groups.old groups.new buckets.new
        (at R.state vault.old (S.state store.old)) (at R.state vault.new (S.state store.new)) }
{
    vault.get(store, flat.region, place, rows)?;
    match group_rows(pred, &flat.schema, rows, key, items, buckets, groups, n) {
        Ok(more) => Ok(more),
        Err(Malformed) => Err(OpErr::Tampered {
            region: flat.region,
            place,
        }),
    }
}

// Reads each block of a table once, in order, into these rows, as many as a block has, puts the selected
// rows to their groups, and answers how many groups there are: one more than there are rows for them,
// where there are more.
pub(crate) fn group_blocks<S: BlockStore, R: Revisions>(
    store: &mut S,
    vault: &mut Vault<R>,
    buckets: &mut Buckets,
    rows: &mut [ClearRow],
    groups: &mut [ClearRow],
    flat: &Flat,
    pred: &Pred,
    key: u8,
    items: &[Item],
) -> Result<usize, OpErr>
    requires spare { HasSpare (blocks_of (length rows.old) flat.now)
        (at R.state vault.old (S.state store.old)) }
    requires table { IsTable (length rows.old) flat.now (at R.state vault.old (S.state store.old)) }
    requires fit { FitBlock flat.now.schema rows.old }
    requires items { AreItems flat.now.schema key items.now }
    requires places { AreGroupRows groups.old }
    requires most { length groups.old ≤ buckets.old.most }
    ensures most { buckets.new.most ≡ buckets.old.most }
    ensures rows { SameSizes rows.old rows.new }
    ensures groups { SameSizes groups.old groups.new }
    ensures gathers { Gathers (length rows.old) flat.now (is_true pred.now) key items.now groups.new
        result
        (at R.state vault.old (S.state store.old)) (at R.state vault.new (S.state store.new)) }
{
    let pack = rows.len() as u32;
    let blocks = flat.capacity.div_ceil(pack);
    buckets.clear();
    let mut n = 0;
    for u in 0..blocks {
        match group_block(
            store, vault, buckets, rows, groups, flat, pred, key, items, u, n,
        ) {
            Ok(more) => n = more,
            Err(e) => return Err(e),
        }
    }
    Ok(n)
}
