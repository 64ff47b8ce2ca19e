//! The two buckets of a row, read and written.
ghost use Rattle.std.specs.Prelude.{◌<◌, ◌*◌, length};
ghost use Rattle.ob_vault.specs.Places.{at};
ghost use Rattle.ob_vault.specs.Rows.{SameSizes};
ghost use Rattle.ob_vault.specs.Words.{MayAsk};
ghost use Rattle.ob_flat.specs.Words.{FitBlock};
ghost use Rattle.ob_hash.specs.Filling.{IsRow};
ghost use Rattle.ob_hash.specs.Hashing.{IsHashed, IsOpen, layout_of};
ghost use Rattle.ob_hash.specs.Selecting.{FillsBucket, FillsBuckets};

use crate::filling::Filling;
use ob_flat::{Flat, OpErr, rework_block};
use ob_room::ClearRow;
use ob_script::{first_bucket, second_bucket};
use ob_store::BlockStore;
use ob_vault::{Revisions, Vault};

// A result of `k` buckets, each of `depth` blocks, one after the other.
#[derive(Drop)]
pub(crate) struct Hashed<'a> {
    pub(crate) flat: &'a Flat,
    pub(crate) k: u32,
    pub(crate) depth: u32,
}

// Reads and writes each block of a bucket, in order, through the rows of `block`. A row that waits goes
// into the first empty slot. Answers whether it waits still.
pub(crate) fn fill_bucket<S: BlockStore, R: Revisions>(
    store: &mut S,
    vault: &mut Vault<R>,
    block: &mut [ClearRow],
    hashed: &Hashed<'_>,
    bucket: u32,
    row: &ClearRow,
    waits: bool,
) -> Result<bool, OpErr>
    requires asks { MayAsk (2 * hashed.now.depth)
        (at R.state vault.old (S.state store.old)) }
    requires hashed { IsHashed (layout_of (length block.old) hashed.now) }
    requires live { IsOpen (layout_of (length block.old) hashed.now)
        (at R.state vault.old (S.state store.old)) }
    requires bucket { bucket < hashed.now.k }
    requires fit { FitBlock hashed.now.flat.now.schema block.old }
    requires row { IsRow hashed.now.flat.now.schema row.now }
    ensures block { SameSizes block.old block.new }
    ensures fills { FillsBucket (layout_of (length block.old) hashed.now) bucket row.now waits
        result (at R.state vault.old (S.state store.old))
        (at R.state vault.new (S.state store.new)) }
{
    let mut filling = Filling { row, waits };
    for y in 0..hashed.depth {
        let place = bucket * hashed.depth + y;
        rework_block(store, vault, block, hashed.flat, place, &mut filling)?;
    }
    Ok(filling.waits)
}

// Does so with both buckets of the row in slot `i` of a table, the first and then the second.
pub(crate) fn fill_buckets<S: BlockStore, R: Revisions>(
    store: &mut S,
    vault: &mut Vault<R>,
    block: &mut [ClearRow],
    hashed: &Hashed<'_>,
    i: u32,
    row: &ClearRow,
    waits: bool,
) -> Result<bool, OpErr>
    requires asks { MayAsk (4 * hashed.now.depth)
        (at R.state vault.old (S.state store.old)) }
    requires hashed { IsHashed (layout_of (length block.old) hashed.now) }
    requires live { IsOpen (layout_of (length block.old) hashed.now)
        (at R.state vault.old (S.state store.old)) }
    requires fit { FitBlock hashed.now.flat.now.schema block.old }
    requires row { IsRow hashed.now.flat.now.schema row.now }
    ensures block { SameSizes block.old block.new }
    ensures fills { FillsBuckets (layout_of (length block.old) hashed.now) i row.now waits
        result (at R.state vault.old (S.state store.old))
        (at R.state vault.new (S.state store.new)) }
{
    let first = first_bucket(hashed.k, i);
    let still = fill_bucket(store, vault, block, hashed, first, row, waits)?;
    let second = second_bucket(hashed.k, i);
    fill_bucket(store, vault, block, hashed, second, row, still)
}
