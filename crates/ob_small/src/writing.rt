//! Kept rows, written.
ghost use Rattle.std.specs.Prelude.{◌≤◌, ◌+◌, length};
ghost use Rattle.ob_vault.specs.Places.{at};
ghost use Rattle.ob_vault.specs.Words.{MayAsk};
ghost use Rattle.ob_flat.specs.Flats.{IsSized};
ghost use Rattle.ob_flat.specs.Words.{blocks_of};
ghost use Rattle.ob_small.specs.Selection.{AreBlocks, IsNext, Writes};
ghost use Rattle.ob_small.specs.Steps.{IsBlock, MayWrite, WritesBlock};

use ob_flat::{Flat, OpErr};
use ob_room::ClearRow;
use ob_store::BlockStore;
use ob_vault::{Revisions, Vault};

/// Writes the rows of one block to a place of a table of this run, where a write there is in turn: in a
/// region without order that is any place, whatever was written before. `Failed` where the store failed.
pub fn write_block<S: BlockStore, R: Revisions>(
    store: &mut S,
    vault: &mut Vault<R>,
    block: &[ClearRow],
    to: &Flat,
    place: u32,
) -> Result<(), OpErr>
    requires asks { MayAsk 1 (at R.state vault.old (S.state store.old)) }
    requires may { MayWrite (length block.now) to.now place
        (at R.state vault.old (S.state store.old)) }
    requires block { IsBlock to.now.schema block.now }
    ensures spent { (S.state store.old).spare ≤ (S.state store.new).spare + 1 }
    ensures writes { WritesBlock (length block.now) to.now place block.now result
        (at R.state vault.old (S.state store.old)) (at R.state vault.new (S.state store.new)) }
{
    vault.put(store, to.region, place, block)?;
    Ok(())
}

// Writes the first `n` blocks of the kept rows to the places of a region from `first` on, in order.
pub(crate) fn write_blocks<S: BlockStore, R: Revisions>(
    store: &mut S,
    vault: &mut Vault<R>,
    kept: &[ClearRow],
    pack: u32,
    to: &Flat,
    first: u32,
    n: u32,
) -> Result<(), OpErr>
    requires asks { MayAsk n (at R.state vault.old (S.state store.old)) }
    requires size { IsSized to.now.schema to.now.capacity }
    requires some { 1 ≤ pack }
    requires most { pack ≤ 16 }
    requires next { IsNext pack to.now first (at R.state vault.old (S.state store.old)) }
    requires within { first + n ≤ blocks_of pack to.now }
    requires kept { AreBlocks to.now.schema pack n kept.now }
    ensures writes { Writes pack to.now first n kept.now result
        (at R.state vault.old (S.state store.old)) (at R.state vault.new (S.state store.new)) }
{
    for x in 0..n {
        let row = (x * pack) as usize;
        write_block(store, vault, &kept[row..row + pack as usize], to, first + x)?;
    }
    Ok(())
}
