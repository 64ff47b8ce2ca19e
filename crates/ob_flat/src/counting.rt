//! The pass that counts selected slots.
ghost use Rattle.std.specs.Prelude.{◌≡◌, max, length};
ghost use Rattle.ob_base.specs.Schemas.{width};
ghost use Rattle.ob_vault.specs.Places.{at};
ghost use Rattle.ob_vault.specs.Rows.{SameSizes};
ghost use Rattle.ob_blocks.specs.Idle.{IsIdle};
ghost use Rattle.ob_row.specs.Truth.{is_true};
ghost use Rattle.ob_flat.specs.Flats.{IsSized, IsFlat};
ghost use Rattle.ob_flat.specs.Words.{HasSpare, IsTable, FitBlock, blocks_of};
ghost use Rattle.ob_flat.specs.Counted.{CountsRows};

use crate::fault::OpErr;
use crate::flat::Flat;
use crate::scan::scan_blocks;
use crate::visit::Visit;
use ob_room::{ClearRow, RowBuffer};
use ob_row::{Malformed, Pred, holds};
use ob_store::BlockStore;
use ob_vault::{Revisions, Vault};

/// What a counting pass answers: `k` slots are selected, and `consecutive` tells whether their indices
/// follow each other without a gap, as those of no slot and of one do.
#[derive(Clone, Copy, Debug, PartialEq, Eq)]
pub struct Counted {
    pub k: u32,
    pub consecutive: bool,
}

// The selected slots so far: their number, the index after the last, and whether they are consecutive.
#[derive(Clone, Copy, Debug, PartialEq, Eq)]
pub(crate) struct Tally {
    k: u32,
    end: u32,
    consecutive: bool,
}

// Counts the slots below the capacity whose row makes the condition true.
#[derive(Drop)]
pub(crate) struct Counting<'a> {
    pred: &'a Pred,
    tally: Tally,
}

impl<'a> Visit for Counting<'a> {
    ghost use Rattle.std.specs.Prelude.{◌≤◌, ◌&&◌, nat_lt};
    ghost use Rattle.ob_row.specs.Slots.{is_selected};
    ghost use Rattle.ob_row.specs.Truth.{is_true};
    ghost use Rattle.ob_flat.specs.Counts.{tallied};

    ghost after = { λ flat c i slot. record c {
      tally = tallied (is_selected (is_true c.pred.now) slot && nat_lt i flat.capacity) i c.tally;
    } };

    ghost Suits = { λ flat c i. (c.tally.k ≤ i) × (c.tally.k ≤ flat.capacity) };

    fn visit(&mut self, i: u32, flat: &Flat, row: &ClearRow) -> Result<(), Malformed> {
        if holds(self.pred, &flat.schema, row)? && i < flat.capacity {
            self.tally = Tally {
                k: self.tally.k + 1,
                end: i + 1,
                consecutive: self.tally.consecutive && (self.tally.k == 0 || i == self.tally.end),
            };
        }
        Ok(())
    }
}

fn count_blocks<S: BlockStore, R: Revisions>(
    store: &mut S,
    vault: &mut Vault<R>,
    rows: &mut [ClearRow],
    flat: &Flat,
    pred: &Pred,
) -> Result<Counted, OpErr>
    requires spare { HasSpare (blocks_of (length rows.old) flat.now)
        (at R.state vault.old (S.state store.old)) }
    requires table { IsTable (length rows.old) flat.now (at R.state vault.old (S.state store.old)) }
    requires fit { FitBlock flat.now.schema rows.old }
    ensures rows { SameSizes rows.old rows.new }
    ensures counts { CountsRows (length rows.old) flat.now (is_true pred.now) result
        (at R.state vault.old (S.state store.old)) (at R.state vault.new (S.state store.new)) }
{
    let mut counting = Counting {
        pred,
        tally: Tally {
            k: 0,
            end: 0,
            consecutive: true,
        },
    };
    scan_blocks(store, vault, rows, flat, &mut counting)?;
    Ok(Counted {
        k: counting.tally.k,
        consecutive: counting.tally.consecutive,
    })
}

/// Counts the slots of a table whose row makes the condition true: reads each block once, in order.
/// `Failed` where the store failed, and `Tampered` with the place of a block that is not what was
/// written there last, or that has a malformed row. It takes no memory.
pub fn count<S: BlockStore, R: Revisions>(
    store: &mut S,
    vault: &mut Vault<R>,
    room: &mut RowBuffer,
    flat: &Flat,
    pred: &Pred,
) -> Result<Counted, OpErr>
    requires spare { HasSpare (blocks_of room.old.pack flat.now)
        (at R.state vault.old (S.state store.old)) }
    requires flat { IsFlat room.old.pack flat.now (at R.state vault.old (S.state store.old)) }
    requires size { IsSized flat.now.schema flat.now.capacity }
    requires room { IsIdle (width flat.now.schema) room.old }
    ensures room { room.new ≡ record room.old { high = max room.old.high room.old.pack } }
    ensures counts { CountsRows room.old.pack flat.now (is_true pred.now) result
        (at R.state vault.old (S.state store.old)) (at R.state vault.new (S.state store.new)) }
{
    let pack = room.pack();
    let rows = room.open(pack);
    let result = count_blocks(store, vault, rows, flat, pred);
    room.clear_shelf();
    result
}
