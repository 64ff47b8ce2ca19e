//! The right table, read once for a chunk.
ghost use Rattle.std.specs.Prelude.{◌≤◌, ◌+◌, ◌*◌, length};
ghost use Rattle.ob_vault.specs.Places.{at};
ghost use Rattle.ob_vault.specs.Rows.{SameSizes};
ghost use Rattle.ob_vault.specs.Words.{MayAsk};
ghost use Rattle.ob_flat.specs.Words.{IsTable, blocks_of};
ghost use Rattle.ob_join.specs.Filling.{IsFilling};
ghost use Rattle.ob_join.specs.Joining.{HasColumns, ListsBy};
ghost use Rattle.ob_join.specs.Join.{IsResult, AreBuffers, IsChunk, PairsUp, join_of, rights};

use crate::joining::join_rows;
use crate::sides::Sides;
use ob_flat::{Flat, OpErr};
use ob_order::Order;
use ob_room::ClearRow;
use ob_row::Malformed;
use ob_store::BlockStore;
use ob_vault::{Revisions, Vault};

// Reads each block of the right table, in order, joins its rows with the kept left rows of this chunk,
// and writes what comes of it to the next place of the result.
pub(crate) fn pair_blocks<S: BlockStore, R: Revisions>(
    store: &mut S,
    vault: &mut Vault<R>,
    order: &Order,
    kept: &[ClearRow],
    sides: &Sides<'_>,
    rows: &mut [ClearRow],
    out: &mut [ClearRow],
    to: &Flat,
    chunk: u32,
) -> Result<(), OpErr>
    requires asks { MayAsk (2 * rights (join_of (length rows.old) sides.now))
        (at R.state vault.old (S.state store.old)) }
    requires right { IsTable (length rows.old) sides.now.right.now
        (at R.state vault.old (S.state store.old)) }
    requires columns { HasColumns sides.now }
    requires filling { IsFilling (length rows.old) to.now
        (chunk * rights (join_of (length rows.old) sides.now))
        (at R.state vault.old (S.state store.old)) }
    requires target { IsResult (join_of (length rows.old) sides.now) to.now }
    requires within { let rights = rights (join_of (length rows.old) sides.now) in
        chunk * rights + rights ≤ blocks_of (length rows.old) to.now }
    requires buffers { AreBuffers (join_of (length rows.old) sides.now) rows.old out.old }
    requires listed { ListsBy sides.now.left.now.schema sides.now.lcol kept.now order.now.places }
    requires kept { IsChunk (join_of (length rows.old) sides.now) kept.now }
    ensures rows { SameSizes rows.old rows.new }
    ensures out { SameSizes out.old out.new }
    ensures pairs { PairsUp (join_of (length rows.old) sides.now) kept.now to.now chunk result
        (at R.state vault.old (S.state store.old)) (at R.state vault.new (S.state store.new)) }
{
    let pack = rows.len() as u32;
    let right = sides.right;
    let blocks = right.capacity.div_ceil(pack);
    let first = chunk * blocks;
    for v in 0..blocks {
        vault.get(store, right.region, v, rows)?;
        match join_rows(sides, order, kept, v * pack, rows, out) {
            Ok(()) => {}
            Err(Malformed) => {
                return Err(OpErr::Tampered {
                    region: right.region,
                    place: v,
                });
            }
        }
        vault.put(store, to.region, first + v, out)?;
    }
    Ok(())
}
