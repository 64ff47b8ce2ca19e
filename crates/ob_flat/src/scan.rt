//! The loop of passes that read a table.
ghost use Rattle.std.specs.Prelude.{◌≤◌, ◌<◌, ◌+◌, ◌*◌, length};
ghost use Rattle.ob_vault.specs.Places.{at};
ghost use Rattle.ob_vault.specs.Rows.{SameSizes};
ghost use Rattle.ob_flat.specs.Words.{HasSpare, FitBlock, blocks_of};
ghost use Rattle.ob_flat.specs.Scans.{MayScan, ScansBlock, Scans};

use crate::fault::OpErr;
use crate::flat::Flat;
use crate::visit::{Visit, visit_rows};
use ob_room::ClearRow;
use ob_row::Malformed;
use ob_store::BlockStore;
use ob_vault::{Revisions, Vault};

/// Reads one block of a table into these rows, of which there are as many as a block has, and shows each
/// slot to the visitor, those behind the capacity too. `Failed` where the store failed, and `Tampered`
/// where the block is not what was written there last, or has a malformed row.
pub fn scan_block<S: BlockStore, R: Revisions, V: Visit>(
    store: &mut S,
    vault: &mut Vault<R>,
    rows: &mut [ClearRow],
    flat: &Flat,
    place: u32,
    visit: &mut V,
) -> Result<(), OpErr>
    requires spare { HasSpare 1 (at R.state vault.old (S.state store.old)) }
    requires table { MayScan (length rows.old) flat.now
        (at R.state vault.old (S.state store.old)) }
    requires within { place < blocks_of (length rows.old) flat.now }
    requires fit { FitBlock flat.now.schema rows.old }
    requires suits { V.Suits flat.now visit.old (place * length rows.old) }
    ensures rows { SameSizes rows.old rows.new }
    ensures spent { (S.state store.old).spare ≤ (S.state store.new).spare + 1 }
    ensures scans { ScansBlock (length rows.old) flat.now place (V.after flat.now)
        (V.Suits flat.now) result visit.old visit.new
        (at R.state vault.old (S.state store.old)) (at R.state vault.new (S.state store.new)) }
{
    let first = place * rows.len() as u32;
    vault.get(store, flat.region, place, rows)?;
    match visit_rows(visit, first, flat, rows) {
        Ok(()) => Ok(()),
        Err(Malformed) => Err(OpErr::Tampered {
            region: flat.region,
            place,
        }),
    }
}

/// Reads each block of a table once, in order, into these rows, of which there are as many as a block
/// has, and shows each slot to the visitor, those behind the capacity too. `Failed` where the store
/// failed, and `Tampered` with the place of a block that is not what was written there last, or that
/// has a malformed row.
pub fn scan_blocks<S: BlockStore, R: Revisions, V: Visit>(
    store: &mut S,
    vault: &mut Vault<R>,
    rows: &mut [ClearRow],
    flat: &Flat,
    visit: &mut V,
) -> Result<(), OpErr>
    requires spare { HasSpare (blocks_of (length rows.old) flat.now)
        (at R.state vault.old (S.state store.old)) }
    requires table { MayScan (length rows.old) flat.now
        (at R.state vault.old (S.state store.old)) }
    requires fit { FitBlock flat.now.schema rows.old }
    requires suits { V.Suits flat.now visit.old 0 }
    ensures rows { SameSizes rows.old rows.new }
    ensures scans { Scans (length rows.old) flat.now (V.after flat.now) (V.Suits flat.now)
        result visit.old visit.new
        (at R.state vault.old (S.state store.old)) (at R.state vault.new (S.state store.new)) }
{
    let pack = rows.len() as u32;
    let blocks = flat.capacity.div_ceil(pack);
    for u in 0..blocks {
        scan_block(store, vault, rows, flat, u, visit)?;
    }
    Ok(())
}
