//! The blocks of an index, read into the rows of a buffer.
ghost use Rattle.std.specs.Prelude.{◌≡◌, ◌≤◌, ◌<◌, OnOk, length};
ghost use Rattle.ob_base.specs.Schemas.{width};
ghost use Rattle.ob_vault.specs.Places.{at};
ghost use Rattle.ob_vault.specs.Rows.{SameSizes, Wide};
ghost use Rattle.ob_row.specs.Slots.{Slots};
ghost use Rattle.ob_flat.specs.Flats.{IsWritten};
ghost use Rattle.ob_flat.specs.Words.{HasSpare};
ghost use Rattle.ob_base.specs.Indexes.{rows_open};
ghost use Rattle.ob_oram.specs.Walks.{blocks_in};
ghost use Rattle.ob_oram.specs.Indexes.{IsShaped};
ghost use Rattle.ob_oram.specs.Opens.{IsOpen};
ghost use Rattle.ob_oram.specs.Walking.{IsWalkOf, OpensWalk, ReadsRow, ReadsWalk, region_in, table_in};

use crate::fault::OramErr;
use crate::held::{Held, Remap};
use crate::index::Index;
use crate::opening::hold;
use crate::walk::Walk;
use ob_room::ClearRow;
use ob_row::Malformed;
use ob_store::BlockStore;
use ob_vault::{Revisions, Vault, VaultErr};
use std::slice::from_mut;

// The region that a walk goes through.
pub(crate) fn region_of(index: &Index, walk: Walk) -> u64
    ensures { result ≡ region_in index.now walk }
{
    match walk {
        Walk::Stash { .. } => index.stash,
        Walk::Path { .. } => index.tree,
    }
}

// Reads block `c` of a walk into a row, and says what the buffer has of it.
fn read_row<S: BlockStore, R: Revisions>(
    store: &mut S,
    vault: &mut Vault<R>,
    index: &Index,
    remap: Remap,
    walk: Walk,
    c: u32,
    row: &mut ClearRow,
) -> Result<Option<Held>, OramErr>
    requires spare { HasSpare 1 (at R.state vault.old (S.state store.old)) }
    requires shaped { IsShaped index.now }
    requires walk { IsWalkOf index.now walk }
    requires within { c < blocks_in walk }
    requires written { IsWritten 1 (table_in index.now walk)
        (at R.state vault.old (S.state store.old)) }
    requires wide { width index.now.schema ≤ length row.old }
    ensures size { length row.new ≡ length row.old }
    ensures reads { ReadsRow index.now remap walk c result row.new
        (at R.state vault.old (S.state store.old)) (at R.state vault.new (S.state store.new)) }
{
    let region = region_of(index, walk);
    let place = walk.place(c);
    match vault.get(store, region, place, from_mut(row)) {
        Ok(()) => {}
        Err(VaultErr::Tampered { .. }) => return Err(OramErr::Tampered { region, place }),
        Err(_) => return Err(OramErr::Failed),
    }
    match hold(index, remap, row) {
        Ok(held) => Ok(held),
        Err(Malformed) => Err(OramErr::Tampered { region, place }),
    }
}

// Reads each block of a walk into its row of the buffer. `Failed` where the store failed, and `Tampered` with the
// place of a block that is not what was written there last, or that has a malformed row.
pub(crate) fn read_walk<S: BlockStore, R: Revisions>(
    store: &mut S,
    vault: &mut Vault<R>,
    index: &Index,
    remap: Remap,
    walk: Walk,
    buffer: &mut [Option<Held>],
    rows: &mut [ClearRow],
) -> Result<(), OramErr>
    requires spare { HasSpare (blocks_in walk) (at R.state vault.old (S.state store.old)) }
    requires shaped { IsShaped index.now }
    requires walk { IsWalkOf index.now walk }
    requires written { IsWritten 1 (table_in index.now walk)
        (at R.state vault.old (S.state store.old)) }
    requires buffer { length buffer.old ≡ rows_open index.now.height index.now.slots }
    requires count { length rows.old ≡ rows_open index.now.height index.now.slots }
    requires wide { Wide (width index.now.schema) rows.old }
    ensures rows { SameSizes rows.old rows.new }
    ensures buffer { length buffer.new ≡ length buffer.old }
    ensures reads { ReadsWalk index.now walk result
        (at R.state vault.old (S.state store.old)) (at R.state vault.new (S.state store.new)) }
    ensures opens { OnOk result ((slots : Slots) → IsOpen index.now remap slots buffer.old rows.old
        → (after : Slots) × IsOpen index.now remap after buffer.new rows.new
        × OpensWalk index.now walk (blocks_in walk) slots after
        (at R.state vault.old (S.state store.old)) (at R.state vault.new (S.state store.new))) }
{
    for c in 0..walk.blocks() {
        let slot = walk.slot(c);
        match read_row(store, vault, index, remap, walk, c, &mut rows[slot]) {
            Ok(held) => buffer[slot] = held,
            Err(e) => return Err(e),
        }
    }
    Ok(())
}
