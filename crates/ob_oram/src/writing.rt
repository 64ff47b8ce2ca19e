//! The blocks of an index, written from the rows of a buffer.
ghost use Rattle.std.specs.Prelude.{◌≡◌, ◌<◌, Option, length};
ghost use Rattle.ob_vault.specs.Places.{at};
ghost use Rattle.ob_vault.specs.Words.{MayAsk};
ghost use Rattle.ob_row.specs.Rows.{Row};
ghost use Rattle.ob_row.specs.Spelling.{Begins};
ghost use Rattle.ob_flat.specs.Flats.{IsInTurn};
ghost use Rattle.ob_flat.specs.Slots.{AreSlots};
ghost use Rattle.ob_base.specs.Indexes.{rows_open};
ghost use Rattle.ob_oram.specs.Walks.{blocks_in, place_in};
ghost use Rattle.ob_oram.specs.Indexes.{IsShaped};
ghost use Rattle.ob_oram.specs.Walking.{IsWalkOf, WritesRow, WritesWalk, order_in, table_in};

use crate::fault::OramErr;
use crate::index::Index;
use crate::reading::region_of;
use crate::walk::Walk;
use ob_room::ClearRow;
use ob_store::BlockStore;
use ob_vault::{Revisions, Vault};
use std::slice::from_ref;

// Writes a row to block `c` of a walk.
fn write_row<S: BlockStore, R: Revisions>(
    store: &mut S,
    vault: &mut Vault<R>,
    index: &Index,
    walk: Walk,
    c: u32,
    row: &ClearRow,
) -> Result<(), OramErr>
    requires asks { MayAsk 1 (at R.state vault.old (S.state store.old)) }
    requires shaped { IsShaped index.now }
    requires walk { IsWalkOf index.now walk }
    requires within { c < blocks_in walk }
    requires turn { IsInTurn (order_in walk) 1 (table_in index.now walk) (place_in walk c)
        (at R.state vault.old (S.state store.old)) }
    requires spells { (slot : Option Row) × Begins index.now.schema slot row.now }
    ensures writes { WritesRow index.now walk c row.now result
        (at R.state vault.old (S.state store.old)) (at R.state vault.new (S.state store.new)) }
{
    let place = walk.place(c);
    match vault.put(store, region_of(index, walk), place, from_ref(row)) {
        Ok(()) => Ok(()),
        Err(_) => Err(OramErr::Failed),
    }
}

// Writes each block of a walk from its row of the buffer. `Failed` where the store failed.
pub(crate) fn write_walk<S: BlockStore, R: Revisions>(
    store: &mut S,
    vault: &mut Vault<R>,
    index: &Index,
    walk: Walk,
    rows: &[ClearRow],
) -> Result<(), OramErr>
    requires asks { MayAsk (blocks_in walk) (at R.state vault.old (S.state store.old)) }
    requires shaped { IsShaped index.now }
    requires walk { IsWalkOf index.now walk }
    requires turn { IsInTurn (order_in walk) 1 (table_in index.now walk) 0
        (at R.state vault.old (S.state store.old)) }
    requires count { length rows.now ≡ rows_open index.now.height index.now.slots }
    requires spells { AreSlots index.now.schema rows.now }
    ensures writes { WritesWalk index.now walk rows.now result
        (at R.state vault.old (S.state store.old)) (at R.state vault.new (S.state store.new)) }
{
    for c in 0..walk.blocks() {
        match write_row(store, vault, index, walk, c, &rows[walk.slot(c)]) {
            Ok(()) => {}
            Err(e) => return Err(e),
        }
    }
    Ok(())
}
