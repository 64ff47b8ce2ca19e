//! A block's rows, shown to their buckets.
ghost use Rattle.std.specs.Prelude.{◌≡◌, length};
ghost use Rattle.ob_vault.specs.Places.{at};
ghost use Rattle.ob_vault.specs.Rows.{SameSizes};
ghost use Rattle.ob_vault.specs.Words.{MayAsk};
ghost use Rattle.ob_row.specs.Truth.{is_true};
ghost use Rattle.ob_flat.specs.Words.{FitBlock};
ghost use Rattle.ob_hash.specs.Bucketed.{first_of};
ghost use Rattle.ob_hash.specs.Hashing.{IsHashed, IsOpen, IsBlock, layout_of, block_length};
ghost use Rattle.ob_hash.specs.Selecting.{PlacesRows};

use crate::buckets::{Hashed, fill_buckets};
use ob_flat::{Flat, OpErr};
use ob_room::ClearRow;
use ob_row::{Malformed, Pred, holds};
use ob_store::BlockStore;
use ob_vault::{Revisions, Vault};

// The first slot whose row found no bucket, where the one of index `i`, after them, may be another.
fn first_of(unplaced: Option<u32>, waits: bool, i: u32) -> Option<u32>
    ensures { result ≡ first_of unplaced waits i }
{
    match unplaced {
        Some(_) => unplaced,
        None if waits => Some(i),
        None => None,
    }
}

// Shows each row below the capacity of block `u` of a table, in order, to its two buckets, through the
// rows of `block`. A selected row waits, and goes into the first empty slot that is met. Answers the
// first slot whose row found none, where that of the blocks before is given.
pub(crate) fn place_rows<S: BlockStore, R: Revisions>(
    store: &mut S,
    vault: &mut Vault<R>,
    rows: &[ClearRow],
    block: &mut [ClearRow],
    hashed: &Hashed<'_>,
    flat: &Flat,
    pred: &Pred,
    u: u32,
    before: Option<u32>,
) -> Result<Option<u32>, OpErr>
    requires asks { MayAsk (block_length (layout_of (length block.old) hashed.now) flat.now u)
        (at R.state vault.old (S.state store.old)) }
    requires hashed { IsHashed (layout_of (length block.old) hashed.now) }
    requires live { IsOpen (layout_of (length block.old) hashed.now)
        (at R.state vault.old (S.state store.old)) }
    requires rows { IsBlock (layout_of (length block.old) hashed.now) flat.now u rows.now }
    requires fit { FitBlock flat.now.schema block.old }
    ensures block { SameSizes block.old block.new }
    ensures places { PlacesRows (layout_of (length block.old) hashed.now) flat.now
        (is_true pred.now) u rows.now before result
        (at R.state vault.old (S.state store.old)) (at R.state vault.new (S.state store.new)) }
{
    let pack = rows.len() as u32;
    let first = u * pack;
    let mut unplaced = before;
    for j in 0..pack.min(flat.capacity - first) {
        let row = &rows[j as usize];
        let selected = match holds(pred, &flat.schema, row) {
            Ok(selected) => selected,
            Err(Malformed) => unreachable!(),
        };
        let i = first + j;
        let waits = fill_buckets(store, vault, block, hashed, i, row, selected)?;
        unplaced = first_of(unplaced, waits, i);
    }
    Ok(unplaced)
}
