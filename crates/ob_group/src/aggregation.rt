//! Sums that are kept while a table is read, a block at a time.
ghost use Rattle.std.specs.Prelude.{◌≡◌, ◌≤◌, ◌<◌, ◌+◌, ◌*◌, max, map, take, length};
ghost use Rattle.ob_base.specs.Schemas.{width};
ghost use Rattle.ob_vault.specs.Places.{at};
ghost use Rattle.ob_vault.specs.Rows.{SameSizes};
ghost use Rattle.ob_blocks.specs.Idle.{IsIdle};
ghost use Rattle.ob_row.specs.Truth.{is_true};
ghost use Rattle.ob_flat.specs.Flats.{IsSized, IsFlat};
ghost use Rattle.ob_flat.specs.Scans.{MayScan};
ghost use Rattle.ob_flat.specs.Words.{HasSpare, IsTable, FitBlock, blocks_of};
ghost use Rattle.ob_group.specs.Passes.{AreAggs, Aggregates};
ghost use Rattle.ob_group.specs.Running.{AreUpTo, starts, total_shown};
ghost use Rattle.ob_group.specs.Steps.{AggregatesAt};

use crate::accs::Accs;
use crate::totals::{add_row, starts};
use ob_flat::{Flat, OpErr, Visit, scan_block, scan_blocks};
use ob_room::{ClearRow, RowBuffer};
use ob_row::{Agg, Malformed, Pred, holds};
use ob_store::BlockStore;
use ob_vault::{Revisions, Vault};
use std::marker::Model;

/// The totals of some aggregates, at most 32, over the rows so far.
#[derive(Drop)]
pub struct Sums {
    totals: [Option<i128>; 32],
}

impl Model for Sums {
    ghost use Rattle.std.specs.Prelude.{◌≡◌, ℤ, List, Option, length};

    ghost Value = { List (Option ℤ) };

    ghost view = { λ s. s.totals };

    ghost invariant = { λ s. length s.totals ≡ 32 };
}

impl Sums {
    /// Those of no rows.
    pub fn start(aggs: &[Agg]) -> Sums
        requires { length aggs.now ≤ 32 }
        ensures few { AreUpTo 0 result }
        ensures value { take (length aggs.now) result ≡ starts aggs.now }
    {
        Sums {
            totals: starts(aggs),
        }
    }

    // The first of them, as they are printed.
    pub(crate) fn cells(&self, n: usize) -> Accs
        requires { n ≤ 32 }
        ensures size { length result ≡ n }
        ensures value { result ≡ map total_shown (take n self.now) }
    {
        Accs::of_totals(&self.totals[..n])
    }
}

// Adds up the rows that make the condition true.
#[derive(Drop)]
pub(crate) struct Adding<'a> {
    pub(crate) pred: &'a Pred,
    pub(crate) aggs: &'a [Agg],
    pub(crate) totals: [Option<i128>; 32],
}

impl<'a> Visit for Adding<'a> {
    ghost use Rattle.std.specs.Prelude.{◌≡◌, length};
    ghost use Rattle.ob_row.specs.Truth.{is_true};
    ghost use Rattle.ob_group.specs.Running.{AreWithin, AreUpTo, seen_slot};

    ghost after = { λ flat s i slot. record s {
      totals = seen_slot (is_true s.pred.now) s.aggs.now s.totals slot;
    } };

    ghost Suits = { λ flat s i. AreWithin (length flat.schema) s.aggs.now
        × (length s.totals ≡ 32) × AreUpTo i s.totals };

    fn visit(&mut self, _i: u32, flat: &Flat, row: &ClearRow) -> Result<(), Malformed> {
        if holds(self.pred, &flat.schema, row)? {
            add_row(&flat.schema, row, self.aggs, &mut self.totals);
        }
        Ok(())
    }
}

/// Reads one block of a table into these rows, of which there are as many as a block has, and adds those
/// that make the condition true to the sums, which are those of the blocks before it. On an error the sums
/// stay as they were.
///
/// `Failed` where the store failed, and `Tampered` where the block is not what was written there last, or
/// has a malformed row. It takes no memory.
pub fn aggregate_block<S: BlockStore, R: Revisions>(
    store: &mut S,
    vault: &mut Vault<R>,
    rows: &mut [ClearRow],
    flat: &Flat,
    pred: &Pred,
    aggs: &[Agg],
    place: u32,
    sums: &mut Sums,
) -> Result<(), OpErr>
    requires spare { HasSpare 1 (at R.state vault.old (S.state store.old)) }
    requires table { MayScan (length rows.old) flat.now (at R.state vault.old (S.state store.old)) }
    requires within { place < blocks_of (length rows.old) flat.now }
    requires fit { FitBlock flat.now.schema rows.old }
    requires aggs { AreAggs flat.now.schema aggs.now }
    requires sums { AreUpTo (place * length rows.old) sums.old }
    ensures rows { SameSizes rows.old rows.new }
    ensures spent { (S.state store.old).spare ≤ (S.state store.new).spare + 1 }
    ensures aggregates { AggregatesAt (length rows.old) flat.now (is_true pred.now) aggs.now place
        result sums.old sums.new
        (at R.state vault.old (S.state store.old)) (at R.state vault.new (S.state store.new)) }
{
    let mut adding = Adding {
        pred,
        aggs,
        totals: sums.totals,
    };
    match scan_block(store, vault, rows, flat, place, &mut adding) {
        Ok(()) => {
            sums.totals = adding.totals;
            Ok(())
        }
        Err(e) => Err(e),
    }
}

fn aggregate_blocks<S: BlockStore, R: Revisions>(
    store: &mut S,
    vault: &mut Vault<R>,
    rows: &mut [ClearRow],
    flat: &Flat,
    pred: &Pred,
    aggs: &[Agg],
) -> Result<Accs, OpErr>
    requires spare { HasSpare (blocks_of (length rows.old) flat.now)
        (at R.state vault.old (S.state store.old)) }
    requires table { IsTable (length rows.old) flat.now (at R.state vault.old (S.state store.old)) }
    requires fit { FitBlock flat.now.schema rows.old }
    requires aggs { AreAggs flat.now.schema aggs.now }
    ensures rows { SameSizes rows.old rows.new }
    ensures aggregates { Aggregates (length rows.old) flat.now (is_true pred.now) aggs.now result
        (at R.state vault.old (S.state store.old)) (at R.state vault.new (S.state store.new)) }
{
    let mut adding = Adding {
        pred,
        aggs,
        totals: starts(aggs),
    };
    scan_blocks(store, vault, rows, flat, &mut adding)?;
    Ok(Accs::of_totals(&adding.totals[..aggs.len()]))
}

/// The aggregates of the rows of a table that make the condition true, one cell for each: reads each
/// block once, in order. As in ISO/IEC 9075:1992, COUNT is the number of the rows, of none too; SUM,
/// MIN and MAX are those of the integers of a column, and NULL where there are none. Sums don't
/// overflow, since they have 128 bits.
///
/// `Failed` where the store failed, and `Tampered` with the place of a block that is not what was
/// written there last, or that has a malformed row. It takes no memory.
pub fn aggregate<S: BlockStore, R: Revisions>(
    store: &mut S,
    vault: &mut Vault<R>,
    room: &mut RowBuffer,
    flat: &Flat,
    pred: &Pred,
    aggs: &[Agg],
) -> Result<Accs, OpErr>
    requires spare { HasSpare (blocks_of room.old.pack flat.now)
        (at R.state vault.old (S.state store.old)) }
    requires flat { IsFlat room.old.pack flat.now (at R.state vault.old (S.state store.old)) }
    requires size { IsSized flat.now.schema flat.now.capacity }
    requires room { IsIdle (width flat.now.schema) room.old }
    requires aggs { AreAggs flat.now.schema aggs.now }
    ensures room { room.new ≡ record room.old { high = max room.old.high room.old.pack } }
    ensures aggregates { Aggregates room.old.pack flat.now (is_true pred.now) aggs.now result
        (at R.state vault.old (S.state store.old)) (at R.state vault.new (S.state store.new)) }
{
    let pack = room.pack();
    let rows = room.open(pack);
    let result = aggregate_blocks(store, vault, rows, flat, pred, aggs);
    room.clear_shelf();
    result
}
