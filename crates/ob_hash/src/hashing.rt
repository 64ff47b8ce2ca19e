//! The pass of Hash over a table.
ghost use Rattle.std.specs.Prelude.{length};
ghost use Rattle.ob_vault.specs.Places.{at};
ghost use Rattle.ob_vault.specs.Rows.{SameSizes};
ghost use Rattle.ob_vault.specs.Words.{MayAsk};
ghost use Rattle.ob_row.specs.Truth.{is_true};
ghost use Rattle.ob_flat.specs.Words.{IsTable};
ghost use Rattle.ob_hash.specs.Hashing.{IsHashed, IsOpen, IsSource, AreBuffers, layout_of, table_length};
ghost use Rattle.ob_hash.specs.Selecting.{Hashes};

use crate::buckets::Hashed;
use crate::placing::place_rows;
use ob_flat::{Flat, OpErr, check_rows};
use ob_room::ClearRow;
use ob_row::{Malformed, Pred};
use ob_store::BlockStore;
use ob_vault::{Revisions, Vault};

// Reads each block of a table, in order, into these rows, as many as a block has, refuses it where one
// is malformed, and else shows each row below the capacity to its two buckets, through the rows of
// `block`. Answers the first slot whose row found none, where all buckets were empty before.
pub(crate) fn hash_blocks<S: BlockStore, R: Revisions>(
    store: &mut S,
    vault: &mut Vault<R>,
    rows: &mut [ClearRow],
    block: &mut [ClearRow],
    hashed: &Hashed<'_>,
    flat: &Flat,
    pred: &Pred,
) -> Result<Option<u32>, OpErr>
    requires asks { MayAsk (table_length (layout_of (length rows.old) hashed.now) flat.now)
        (at R.state vault.old (S.state store.old)) }
    requires table { IsTable (length rows.old) flat.now (at R.state vault.old (S.state store.old)) }
    requires hashed { IsHashed (layout_of (length rows.old) hashed.now) }
    requires live { IsOpen (layout_of (length rows.old) hashed.now)
        (at R.state vault.old (S.state store.old)) }
    requires source { IsSource (layout_of (length rows.old) hashed.now) flat.now }
    requires buffers { AreBuffers (layout_of (length rows.old) hashed.now) rows.old block.old }
    ensures rows { SameSizes rows.old rows.new }
    ensures block { SameSizes block.old block.new }
    ensures hashes { Hashes (layout_of (length rows.old) hashed.now) flat.now (is_true pred.now)
        result (at R.state vault.old (S.state store.old))
        (at R.state vault.new (S.state store.new)) }
{
    let pack = rows.len() as u32;
    let mut unplaced = None;
    for u in 0..flat.capacity.div_ceil(pack) {
        vault.get(store, flat.region, u, rows)?;
        match check_rows(&flat.schema, rows) {
            Ok(()) => {}
            Err(Malformed) => {
                return Err(OpErr::Tampered {
                    region: flat.region,
                    place: u,
                });
            }
        }
        unplaced = place_rows(store, vault, rows, block, hashed, flat, pred, u, unplaced)?;
    }
    Ok(unplaced)
}
