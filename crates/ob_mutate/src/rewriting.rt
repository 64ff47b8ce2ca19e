//! The pass that moves a table to a fresh region.
ghost use Rattle.std.specs.Prelude.{◌≡◌, ◌≤◌, ◌+◌, ◌*◌, max, ℕ, None, length, count_by};
ghost use Rattle.ob_base.specs.Schemas.{width};
ghost use Rattle.ob_vault.specs.Places.{at};
ghost use Rattle.ob_vault.specs.Rows.{SameSizes};
ghost use Rattle.ob_vault.specs.Words.{MayStart};
ghost use Rattle.ob_blocks.specs.Blocks.{map_at};
ghost use Rattle.ob_blocks.specs.Idle.{IsIdle};
ghost use Rattle.ob_flat.specs.Flats.{IsSized, IsFlat};
ghost use Rattle.ob_flat.specs.Words.{IsTable, FitBlock, blocks_of};
ghost use Rattle.ob_mutate.specs.Mutating.{Rewrites};

use crate::settling::{Former, move_table};
use ob_flat::{Change, Flat, OpErr, make_table, swap_blocks};
use ob_room::{ClearRow, RowBuffer};
use ob_store::BlockStore;
use ob_vault::{Order, Revisions, Vault};

// The whole pass over these rows, as many as a block has.
fn rewrite_rows<S: BlockStore, R: Revisions, C: Change>(
    store: &mut S,
    vault: &mut Vault<R>,
    rows: &mut [ClearRow],
    flat: &mut Flat,
    change: &C,
    former: Former,
) -> Result<u64, OpErr>
    requires starts { MayStart (2 * blocks_of (length rows.old) flat.old + 2)
        (at R.state vault.old (S.state store.old)) }
    requires table { IsTable (length rows.old) flat.old (at R.state vault.old (S.state store.old)) }
    requires fit { FitBlock flat.old.schema rows.old }
    requires suits { C.Suits change.now flat.old.schema }
    requires past { (i : ℕ) → flat.old.capacity ≤ i → C.to change.now i None ≡ None }
    ensures rows { SameSizes rows.old rows.new }
    ensures rewrites { Rewrites former (length rows.old) flat.old flat.new
        (count_by (C.picks change.now)) (map_at (C.to change.now) 0) result
        (at R.state vault.old (S.state store.old)) (at R.state vault.new (S.state store.new)) }
{
    let pack = rows.len() as u32;
    let fresh = make_table(
        store,
        vault,
        &flat.schema,
        flat.capacity,
        pack,
        Order::Round,
    )?;
    match swap_blocks(store, vault, rows, flat, fresh, change) {
        Ok(k) => {
            move_table(store, vault, flat, fresh, former);
            Ok(u64::from(k))
        }
        Err(e) => {
            vault.forget(fresh);
            Err(e)
        }
    }
}

// Changes each slot of a table: a fresh region is made; each block of the table is read, in order, and
// written to the fresh region, changed or not; the table has the fresh region, and of its old one
// becomes what `former` says. Answers how many slots were counted.
pub(crate) fn rewrite<S: BlockStore, R: Revisions, C: Change>(
    store: &mut S,
    vault: &mut Vault<R>,
    room: &mut RowBuffer,
    flat: &mut Flat,
    change: &C,
    former: Former,
) -> Result<u64, OpErr>
    requires starts { MayStart (2 * blocks_of room.old.pack flat.old + 2)
        (at R.state vault.old (S.state store.old)) }
    requires flat { IsFlat room.old.pack flat.old (at R.state vault.old (S.state store.old)) }
    requires size { IsSized flat.old.schema flat.old.capacity }
    requires room { IsIdle (width flat.old.schema) room.old }
    requires suits { C.Suits change.now flat.old.schema }
    requires past { (i : ℕ) → flat.old.capacity ≤ i → C.to change.now i None ≡ None }
    ensures room { room.new ≡ record room.old { high = max room.old.high room.old.pack } }
    ensures rewrites { Rewrites former room.old.pack flat.old flat.new
        (count_by (C.picks change.now)) (map_at (C.to change.now) 0) result
        (at R.state vault.old (S.state store.old)) (at R.state vault.new (S.state store.new)) }
{
    let pack = room.pack();
    let rows = room.open(pack);
    let result = rewrite_rows(store, vault, rows, flat, change, former);
    room.clear_shelf();
    result
}
