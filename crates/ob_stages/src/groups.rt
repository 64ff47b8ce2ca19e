//! A SELECT with GROUP BY in flight.
ghost use Rattle.std.specs.Prelude.{◌≡◌, ◌≤◌, Some};
ghost use Rattle.ob_base.specs.Limits.{buffered};
ghost use Rattle.ob_script.specs.Flights.{flight_public};
ghost use Rattle.ob_stages.specs.Reading.{MayBoard, reading_progress};
ghost use Rattle.ob_stages.specs.Groups.{StartsGroups};

use crate::faults::is_fault;
use crate::listing::items_at;
use crate::reading::Reading;
use ob_base::{ColumnName, Emit, EmitErr, Public, Refusal, Seen};
use ob_flat::{Flat, OpErr};
use ob_group::{emit_groups, group_block};
use ob_inflight::Flyer;
use ob_names::place_of;
use ob_order::Buckets;
use ob_room::ClearRow;
use ob_row::{Item, Pred};
use ob_sql::SelectTotals;
use ob_store::BlockStore;
use ob_vault::{Revisions, Vault};
use ob_verdict::Outcome;

/// A SELECT with GROUP BY in flight: it reads its table block by block, with a row of its share for each group, and then
/// emits a row for each. Where there are more groups than rows of the share it is refused, and emits nothing.
#[derive(Drop)]
pub struct GroupsFlight<'a> {
    reading: Reading<'a>,
    // the place of the column by which it groups, and the items of a group's row, in the first places
    key: u8,
    items: [Item; 32],
    // in which the groups are found, and how many there are so far
    buckets: Buckets,
    n: usize,
}

impl<'a> GroupsFlight<'a> {
    /// One that is yet to read this table, by its own condition, among so many that fly; the buckets have a place for
    /// each row of its share.
    pub fn new(
        public: &'a Public,
        flown: u32,
        select: &'a SelectTotals,
        flat: Flat,
        pred: Pred,
        key: &ColumnName,
        buckets: Buckets,
    ) -> GroupsFlight<'a>
        requires board { MayBoard public.now flown select.now flat pred }
        requires grouped { select.now.group ≡ Some key.now }
        requires places { let p = flight_public flown public.now in
            buffered p.pack p.buffer ≤ buckets.most }
        ensures { StartsGroups public.now flown select.now flat pred result }
    {
        let items = items_at(select.items.as_slice(), flat.schema.as_slice());
        let place = place_of(key, flat.schema.as_slice(), &[]) as u8;
        let mut buckets = buckets;
        buckets.clear();
        GroupsFlight {
            reading: Reading::new(public, flown, select, flat, pred),
            key: place,
            items,
            buckets,
            n: 0,
        }
    }

    /// What is seen of it so far: where the store failed it, that it was cut off there.
    pub fn seen(&self) -> Seen
        ensures { result ≡ (reading_progress self.now.reading).served.seen }
    {
        self.reading.seen()
    }
}

impl<'a> Flyer for GroupsFlight<'a> {
    ghost use Rattle.ob_stages.specs.Reading.{HaltsTotals, MayRead, NeedsTable, reading_progress};
    ghost use Rattle.ob_stages.specs.ReadingLaws.{reading_acts, reading_below, reading_served};
    ghost use Rattle.ob_stages.specs.Groups.{FitsGroups, IsGrouping, groups_frames, groups_refits};

    ghost progress = { λ f. reading_progress f.reading };

    ghost May = { λ f x. MayRead f.reading x };

    ghost Needs = { λ f q. NeedsTable f.reading q };

    ghost Fits = { λ f rows kept. FitsGroups f rows kept };

    ghost Holds = { λ f kept events w. IsGrouping f kept events w };

    ghost Halts = { λ f events part e old new. HaltsTotals f.reading events part e old new };

    fn is_over(&self) -> bool {
        self.reading.is_over()
    }

    fn prints(&self) -> bool {
        self.reading.is_over()
    }

    fn booked(&self) -> u64 {
        u64::from(self.reading.left())
    }

    fn step<S: BlockStore, R: Revisions, E: Emit>(
        &mut self,
        store: &mut S,
        vault: &mut Vault<R>,
        rows: &mut [ClearRow],
        kept: &mut [ClearRow],
        _others: u64,
        _out: &mut E,
    ) -> Result<(), OpErr> {
        let reading = &self.reading;
        let count = reading.select.items.as_slice().len();
        match group_block(
            store,
            vault,
            &mut self.buckets,
            rows,
            kept,
            &reading.flat,
            &reading.pred,
            self.key,
            &self.items[..count],
            reading.asked,
            self.n,
        ) {
            Ok(groups) => {
                self.n = groups;
                self.reading.read_on();
                Ok(())
            }
            Err(e) => {
                if is_fault(e) {
                    self.reading.fail();
                    Ok(())
                } else {
                    Err(e)
                }
            }
        }
    }

    fn finish<E: Emit>(&mut self, kept: &[ClearRow], out: &mut E) -> Result<Outcome, EmitErr> {
        if self.reading.failed {
            return Ok(self.reading.end(Outcome::Refused(Refusal::StoreFault)));
        }
        if self.n > kept.len() {
            return Ok(self.reading.end(Outcome::Refused(Refusal::TooManyGroups)));
        }
        let count = self.reading.select.items.as_slice().len();
        let schema = &self.reading.flat.schema;
        match emit_groups(out, schema, self.key, &self.items[..count], kept, self.n) {
            Ok(()) => match out.close(self.n as u64) {
                Ok(()) => Ok(self.reading.end(Outcome::Rows(self.n as u64))),
                Err(e) => Err(e),
            },
            Err(e) => Err(e),
        }
    }

    ghost served = { λ f kept events w is. reading_served f.reading events w is.reading };

    ghost acts = { λ f x n may. reading_acts f.reading x n may };

    ghost frames = { λ f kept events w v leaves is. groups_frames f kept events w v leaves is };

    ghost below = { λ f kept events w q is need. reading_below f.reading events w q is.reading need };

    ghost refits = { λ f rows kept more own same as_many fits. groups_refits f rows kept more own same as_many fits };
}
