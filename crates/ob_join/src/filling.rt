//! The result of a join, chunk by chunk.
ghost use Rattle.std.specs.Prelude.{◌≡◌, ◌≤◌, ◌<◌, ◌^◌, length};
ghost use Rattle.ob_vault.specs.Places.{at};
ghost use Rattle.ob_vault.specs.Rows.{SameSizes};
ghost use Rattle.ob_vault.specs.Words.{MayAsk};
ghost use Rattle.ob_join.specs.Join.{MayJoin, IsNew, AreBuffers, AreKept, Fills, join_of, fill_length};

use crate::collecting::collect_chunk;
use crate::pairing::pair_blocks;
use crate::sides::Sides;
use ob_flat::{Flat, OpErr};
use ob_order::Order;
use ob_room::ClearRow;
use ob_row::{kind_at, offset};
use ob_store::BlockStore;
use ob_vault::{Revisions, Vault};

// Fills a result chunk by chunk: the next left blocks, as many as may be buffered, are read and kept,
// and then each right block is joined with them.
pub(crate) fn fill_result<S: BlockStore, R: Revisions>(
    store: &mut S,
    vault: &mut Vault<R>,
    order: &mut Order,
    kept: &mut [ClearRow],
    sides: &Sides<'_>,
    rows: &mut [ClearRow],
    out: &mut [ClearRow],
    to: &Flat,
) -> Result<(), OpErr>
    requires asks { MayAsk (fill_length (join_of (length rows.old) sides.now))
        (at R.state vault.old (S.state store.old)) }
    requires tables { MayJoin (join_of (length rows.old) sides.now)
        (at R.state vault.old (S.state store.old)) }
    requires new { IsNew (join_of (length rows.old) sides.now) to.now
        (at R.state vault.old (S.state store.old)) }
    requires buffers { AreBuffers (join_of (length rows.old) sides.now) rows.old out.old }
    requires kept { AreKept (join_of (length rows.old) sides.now) kept.old }
    requires places { length kept.old ≤ order.old.most }
    requires few { length kept.old < 2 ^ 32 }
    ensures most { order.new.most ≡ order.old.most }
    ensures kept { SameSizes kept.old kept.new }
    ensures rows { SameSizes rows.old rows.new }
    ensures out { SameSizes out.old out.new }
    ensures fills { Fills (join_of (length rows.old) sides.now) to.now.region result
        (at R.state vault.old (S.state store.old)) (at R.state vault.new (S.state store.new)) }
{
    let pack = rows.len() as u32;
    let buffered = sides.buffered;
    let lefts = sides.left.capacity.div_ceil(pack);
    let at = offset(&sides.left.schema, sides.lcol);
    let len = kind_at(&sides.left.schema, sides.lcol).width() as usize;
    for chunk in 0..lefts.div_ceil(buffered) {
        let first = chunk * buffered;
        let n = buffered.min(lefts - first);
        let own = &mut kept[..(n * pack) as usize];
        collect_chunk(store, vault, own, pack, sides.left, first, n)?;
        order.list(own, at, len);
        pair_blocks(store, vault, order, own, sides, rows, out, to, chunk)?;
    }
    Ok(())
}
