//! A SELECT of a table's rows in flight.
ghost use Rattle.std.specs.Prelude.{◌≡◌, ◌≤◌};
ghost use Rattle.ob_stages.specs.RowsStates.{IsFlown, IsOf, boarded_rows, rows_at, rows_progress, rows_skeleton, selection_by};
ghost use Rattle.ob_stages.specs.RowsHolds.{BoardsRows, RowsHold};

use crate::rows_emits::answer;
use arrayvec::ArrayVec;
use ob_base::{Emit, EmitErr, End, Public, Seen};
use ob_flat::{Flat, OpErr};
use ob_inflight::Flyer;
use ob_room::ClearRow;
use ob_row::Pred;
use ob_sql::SelectRows;
use ob_store::BlockStore;
use ob_vault::{Revisions, Vault};
use ob_verdict::Outcome;

/// How far a SELECT of rows is.
#[derive(Clone, Copy, Debug, PartialEq, Eq)]
pub(crate) enum Stage {
    // The rows of its table were counted up to this block.
    Count(u32),
    // They all were; its result has no region yet.
    Make,
    // In this pass the table was read up to a block, and so many selected rows were seen.
    Read { pass: u32, place: u32, seen: u32 },
    // In this pass the table was read, and so many blocks of what is kept of it were written.
    Write { pass: u32, place: u32 },
    // So many blocks of the result were read back.
    Emit(u32),
    // All were; its region is still there.
    Discard,
    // Nothing is left to ask.
    Over,
}

/// A SELECT of a table's rows in flight: the rows are counted, put into a region by passes that keep as many of them as its
/// share has space for, read back and emitted.
#[derive(Drop)]
pub struct RowsFlight<'a> {
    pub(crate) public: &'a Public,
    pub(crate) flown: u32,
    pub(crate) select: &'a SelectRows,
    pub(crate) flat: Flat,
    pub(crate) pred: Pred,
    pub(crate) cols: ArrayVec<u8, 32>,
    pub(crate) stage: Stage,
    // how many rows are selected, in the blocks that were counted, and how many were emitted
    pub(crate) k: u32,
    pub(crate) shown: u32,
    pub(crate) asked: u64,
    pub(crate) booked: u64,
    pub(crate) region: Option<u64>,
    pub(crate) seen: Seen,
    pub(crate) failed: bool,
    pub(crate) outcome: Option<Outcome>,
}

impl<'a> RowsFlight<'a> {
    /// A SELECT of a table's rows as one of `flown` that fly: of this table, of the rows that make this true, the columns at
    /// these places. Nothing is asked yet.
    pub fn new(
        public: &'a Public,
        flown: u32,
        select: &'a SelectRows,
        flat: Flat,
        pred: Pred,
        cols: ArrayVec<u8, 32>,
    ) -> RowsFlight<'a>
        requires several { 1 ≤ flown }
        requires flown { IsFlown (selection_by flown public.now flat pred cols.items)
            (rows_skeleton select.now) }
        requires own { IsOf (selection_by flown public.now flat pred cols.items) select.now }
        ensures is { rows_at result
            ≡ boarded_rows (selection_by flown public.now flat pred cols.items) flown select.now }
        ensures holds { BoardsRows (selection_by flown public.now flat pred cols.items)
            (RowsHold result) }
    {
        let mut flight = RowsFlight {
            public,
            flown,
            select,
            flat,
            pred,
            cols,
            stage: Stage::Count(0),
            k: 0,
            shown: 0,
            asked: 0,
            booked: 0,
            region: None,
            seen: Seen {
                k: None,
                plan: None,
                then: None,
                leaf: None,
                end: End::Whole,
            },
            failed: false,
            outcome: None,
        };
        flight.booked = flight.known();
        flight
    }

    /// What is seen of it so far: where the store failed it, that it was cut off there.
    pub fn seen(&self) -> Seen
        ensures { result ≡ (rows_progress self.now).served.seen }
    {
        self.seen
    }
}

impl<'a> Flyer for RowsFlight<'a> {
    ghost use Rattle.ob_stages.specs.RowsStates.{MayRows, rows_progress};
    ghost use Rattle.ob_stages.specs.RowsHolds.{RowsFits, RowsHalt, RowsNeeds};
    ghost use Rattle.ob_stages.specs.RowsActs.{rows_acts};
    ghost use Rattle.ob_stages.specs.RowsLaws.{rows_below, rows_frames, rows_refits, rows_served};

    ghost progress = { rows_progress };

    ghost May = { MayRows };

    ghost Needs = { RowsNeeds };

    ghost Fits = { RowsFits };

    ghost Holds = { RowsHold };

    ghost Halts = { RowsHalt };

    ghost served = { rows_served };

    ghost acts = { rows_acts };

    ghost frames = { rows_frames };

    ghost below = { rows_below };

    ghost refits = { rows_refits };

    fn is_over(&self) -> bool {
        match self.stage {
            Stage::Over => true,
            Stage::Count(_)
            | Stage::Make
            | Stage::Read { .. }
            | Stage::Write { .. }
            | Stage::Emit(_)
            | Stage::Discard => false,
        }
    }

    fn prints(&self) -> bool {
        match self.stage {
            Stage::Emit(_) | Stage::Over => true,
            Stage::Count(_)
            | Stage::Make
            | Stage::Read { .. }
            | Stage::Write { .. }
            | Stage::Discard => false,
        }
    }

    fn booked(&self) -> u64 {
        self.booked
    }

    fn step<S: BlockStore, R: Revisions, E: Emit>(
        &mut self,
        store: &mut S,
        vault: &mut Vault<R>,
        rows: &mut [ClearRow],
        kept: &mut [ClearRow],
        others: u64,
        out: &mut E,
    ) -> Result<(), OpErr> {
        match self.stage {
            Stage::Count(place) => self.count(store, vault, rows, others, place),
            Stage::Make => self.make(store, vault, kept, others),
            Stage::Read { pass, place, seen } => {
                self.read(store, vault, rows, kept, others, pass, place, seen)
            }
            Stage::Write { pass, place } => self.write(store, vault, kept, others, pass, place),
            Stage::Emit(place) => self.emit(store, vault, rows, others, place, out),
            Stage::Discard => self.discard(store, vault, others),
            Stage::Over => unreachable!(),
        }
    }

    fn finish<E: Emit>(&mut self, _kept: &[ClearRow], out: &mut E) -> Result<Outcome, EmitErr> {
        match answer(self, out) {
            Ok(outcome) => {
                self.outcome = Some(outcome);
                Ok(outcome)
            }
            Err(error) => Err(error),
        }
    }
}
