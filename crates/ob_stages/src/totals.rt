//! A SELECT of aggregates in flight.
ghost use Rattle.std.specs.Prelude.{◌≡◌, ◌≤◌, None, length};
ghost use Rattle.ob_group.specs.Steps.{EmitsAll};
ghost use Rattle.ob_stages.specs.Reading.{MayBoard, reading_progress};
ghost use Rattle.ob_stages.specs.Totals.{StartsTotals, row_events};

use crate::faults::is_fault;
use crate::listing::aggs_at;
use crate::reading::Reading;
use ob_base::{Emit, EmitErr, Public, Refusal, Seen};
use ob_flat::{Flat, OpErr};
use ob_group::{Sums, aggregate_block, emit_totals};
use ob_inflight::Flyer;
use ob_room::ClearRow;
use ob_row::{Agg, Pred};
use ob_sql::SelectTotals;
use ob_store::BlockStore;
use ob_vault::{Revisions, Vault};
use ob_verdict::Outcome;

/// A SELECT of aggregates in flight, without GROUP BY: it reads its table block by block, and then emits the one row of
/// its answer.
#[derive(Drop)]
pub struct TotalsFlight<'a> {
    reading: Reading<'a>,
    // its aggregates, in the first places, and their totals over what was read
    aggs: [Agg; 32],
    sums: Sums,
}

impl<'a> TotalsFlight<'a> {
    /// One that is yet to read this table, by its own condition, among so many that fly.
    pub fn new(
        public: &'a Public,
        flown: u32,
        select: &'a SelectTotals,
        flat: Flat,
        pred: Pred,
    ) -> TotalsFlight<'a>
        requires board { MayBoard public.now flown select.now flat pred }
        requires ungrouped { select.now.group ≡ None }
        ensures { StartsTotals public.now flown select.now flat pred result }
    {
        let items = select.items.as_slice();
        let aggs = aggs_at(items, flat.schema.as_slice());
        let sums = Sums::start(&aggs[..items.len()]);
        TotalsFlight {
            reading: Reading::new(public, flown, select, flat, pred),
            aggs,
            sums,
        }
    }

    // Emits its answer, once all was read.
    fn emit<E: Emit>(&self, out: &mut E) -> Result<(), EmitErr>
        requires { length self.now.reading.select.now.items ≤ 32 }
        ensures { EmitsAll E.grew E.cut E.faults (row_events self.now) result out.old out.new }
    {
        let n = self.reading.select.items.as_slice().len();
        match emit_totals(out, &self.reading.flat.schema, &self.aggs[..n], &self.sums) {
            Ok(()) => out.close(1),
            Err(e) => Err(e),
        }
    }

    /// What is seen of it so far: where the store failed it, that it was cut off there.
    pub fn seen(&self) -> Seen
        ensures { result ≡ (reading_progress self.now.reading).served.seen }
    {
        self.reading.seen()
    }
}

impl<'a> Flyer for TotalsFlight<'a> {
    ghost use Rattle.ob_stages.specs.Reading.{FitsTable, HaltsTotals, MayRead, NeedsTable, reading_progress};
    ghost use Rattle.ob_stages.specs.ReadingLaws.{reading_acts, reading_below, reading_served, table_refits};
    ghost use Rattle.ob_stages.specs.Totals.{IsTotalling, totals_frames};

    ghost progress = { λ f. reading_progress f.reading };

    ghost May = { λ f x. MayRead f.reading x };

    ghost Needs = { λ f q. NeedsTable f.reading q };

    ghost Fits = { λ f rows kept. FitsTable f.reading rows };

    ghost Holds = { λ f kept events w. IsTotalling f events w };

    ghost Halts = { λ f events part e old new. HaltsTotals f.reading events part e old new };

    fn is_over(&self) -> bool {
        self.reading.is_over()
    }

    fn prints(&self) -> bool {
        self.reading.is_over()
    }

    fn booked(&self) -> u64 {
        u64::from(self.reading.left())
    }

    fn step<S: BlockStore, R: Revisions, E: Emit>(
        &mut self,
        store: &mut S,
        vault: &mut Vault<R>,
        rows: &mut [ClearRow],
        _kept: &mut [ClearRow],
        _others: u64,
        _out: &mut E,
    ) -> Result<(), OpErr> {
        let reading = &self.reading;
        let n = reading.select.items.as_slice().len();
        match aggregate_block(
            store,
            vault,
            rows,
            &reading.flat,
            &reading.pred,
            &self.aggs[..n],
            reading.asked,
            &mut self.sums,
        ) {
            Ok(()) => {
                self.reading.read_on();
                Ok(())
            }
            Err(e) => {
                if is_fault(e) {
                    self.reading.fail();
                    Ok(())
                } else {
                    Err(e)
                }
            }
        }
    }

    fn finish<E: Emit>(&mut self, _kept: &[ClearRow], out: &mut E) -> Result<Outcome, EmitErr> {
        if self.reading.failed {
            return Ok(self.reading.end(Outcome::Refused(Refusal::StoreFault)));
        }
        match self.emit(out) {
            Ok(()) => Ok(self.reading.end(Outcome::Rows(1))),
            Err(e) => Err(e),
        }
    }

    ghost served = { λ f kept events w is. reading_served f.reading events w is.reading };

    ghost acts = { λ f x n may. reading_acts f.reading x n may };

    ghost frames = { λ f kept events w v leaves is. totals_frames f events w v leaves is };

    ghost below = { λ f kept events w q is need. reading_below f.reading events w q is.reading need };

    ghost refits = { λ f rows kept more own same as_many fits. table_refits f.reading rows more same fits };
}
