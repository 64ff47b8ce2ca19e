//! The steps of a SELECT of rows in flight that emit nothing.
ghost use Rattle.std.specs.Prelude.{◌≡◌, ◌≤◌, ◌<◌, ◌+◌, ◌-◌, ◌*◌, ◌^◌, ℕ, List, true, take, drop};
ghost use Rattle.ob_base.specs.declared.seen.End.TheVariants.{Cut};
ghost use Rattle.ob_store.specs.State.{StoreState};
ghost use Rattle.ob_vault.specs.Places.{at};
ghost use Rattle.ob_vault.specs.Rows.{SameSizes};
ghost use Rattle.ob_vault.specs.Words.{MayAsk};
ghost use Rattle.ob_inflight.specs.Answers.{IsHeld};
ghost use Rattle.ob_small.specs.Steps.{MayWrite, WritesBlock};
ghost use Rattle.ob_stages.specs.RowsStates.{IsSizedAt, known_by, rows_at, rows_selection, table_blocks, whole_length};
ghost use Rattle.ob_stages.specs.RowsHolds.{FitRows, FitsBlock, FitsShare, Holds};
ghost use Rattle.ob_stages.specs.RowsSteps.{Clears, ForgetsOwn, HasPart, IsHeldIn, QuietStep, StepsAt, TakesRoom, counted_to};

use crate::faults::is_fault;
use crate::rows::{RowsFlight, Stage};
use ob_base::{End, NoMemory, Plan};
use ob_flat::{Flat, OpErr, clear_rows, discard, make_table};
use ob_room::ClearRow;
use ob_small::{collect_block, write_block};
use ob_store::BlockStore;
use ob_vault::{Order, Revisions, Vault};

// Takes a region out of the vault, if there is one.
fn forget<R: Revisions>(region: Option<u64>, vault: &mut Vault<R>)
    ensures { (s : StoreState)
        → ForgetsOwn region (at R.state vault.old s) (at R.state vault.new s) }
{
    match region {
        None => {}
        Some(region) => vault.forget(region),
    }
}

// Makes the kept rows dummies before a pass.
fn clear_for(stage: Stage, kept: &mut [ClearRow])
    ensures size { SameSizes kept.old kept.new }
    ensures clears { Clears stage kept.old kept.new }
{
    match stage {
        Stage::Read { .. } => clear_rows(kept),
        Stage::Count(_)
        | Stage::Make
        | Stage::Write { .. }
        | Stage::Emit(_)
        | Stage::Discard
        | Stage::Over => {}
    }
}

// Writes the rows of the x-th block that is kept to a place of a result.
fn write_part<S: BlockStore, R: Revisions>(
    store: &mut S,
    vault: &mut Vault<R>,
    kept: &[ClearRow],
    pack: u32,
    x: u32,
    to: &Flat,
    place: u32,
) -> Result<(), OpErr>
    requires asks { MayAsk 1 (at R.state vault.old (S.state store.old)) }
    requires may { MayWrite pack to.now place (at R.state vault.old (S.state store.old)) }
    requires part { HasPart to.now.schema pack x kept.now }
    ensures spent { (S.state store.old).spare ≤ (S.state store.new).spare + 1 }
    ensures writes { WritesBlock pack to.now place (take pack (drop (x * pack) kept.now)) result
        (at R.state vault.old (S.state store.old)) (at R.state vault.new (S.state store.new)) }
{
    let row = (x * pack) as usize;
    write_block(store, vault, &kept[row..row + pack as usize], to, place)
}

impl<'a> RowsFlight<'a> {
    // One access more was asked, after which it is at this stage.
    pub(crate) fn go(&mut self, stage: Stage)
        requires few { self.old.asked < 2 ^ 56 }
        requires some { 1 ≤ self.old.booked }
        ensures { self.new ≡ record self.old {
          stage = stage;
          asked = self.old.asked + 1;
          booked = self.old.booked - 1;
        } }
    {
        self.stage = stage;
        self.asked += 1;
        self.booked -= 1;
    }

    // The store failed its next access: it has nothing left to ask, and its region is forgotten.
    pub(crate) fn fail<R: Revisions>(&mut self, vault: &mut Vault<R>)
        requires few { self.old.asked < 2 ^ 56 }
        ensures is { self.new ≡ record self.old {
          stage = Stage.Over;
          asked = self.old.asked + 1;
          booked = 0;
          seen = record self.old.seen { end = Cut (self.old.asked + 1) };
          failed = true;
        } }
        ensures forgets { (s : StoreState)
            → ForgetsOwn self.old.region (at R.state vault.old s) (at R.state vault.new s) }
    {
        forget(self.region, vault);
        self.asked += 1;
        self.booked = 0;
        self.seen.end = End::Cut(self.asked);
        self.failed = true;
        self.stage = Stage::Over;
    }

    // After a block that was counted, so many rows are selected by now.
    fn counted(&mut self, place: u32, n: u32)
        requires sized { IsSizedAt (rows_at self.old) }
        requires few { self.old.asked < 2 ^ 56 }
        requires some { 1 ≤ self.old.booked }
        requires below { place < table_blocks (rows_selection self.old) }
        ensures { rows_at self.new ≡ counted_to place n (rows_at self.old) }
    {
        if place + 1 < self.blocks() {
            self.k = n;
            self.go(Stage::Count(place + 1));
            return;
        }
        let k = n.min(self.flat.capacity);
        self.k = k;
        if self.public.pad.is_some() {
            self.go(Stage::Make);
            return;
        }
        self.seen.k = Some(u64::from(k));
        if k == 0 {
            self.go(Stage::Over);
        } else {
            self.seen.plan = Some(Plan::Small);
            self.go(Stage::Make);
        }
    }

    // Reads a block of its table, and counts its selected rows: none is kept.
    pub(crate) fn count<S: BlockStore, R: Revisions>(
        &mut self,
        store: &mut S,
        vault: &mut Vault<R>,
        rows: &mut [ClearRow],
        others: u64,
        place: u32,
    ) -> Result<(), OpErr>
        requires steps { StepsAt (rows_at self.old) (Stage.Count place) others
            (at R.state vault.old (S.state store.old)) }
        requires fit { FitsBlock (rows_selection self.old) rows.old }
        requires held { IsHeldIn (rows_at self.old) (at R.state vault.old (S.state store.old)) }
        ensures rows { SameSizes rows.old rows.new }
        ensures quiet { (kept : List (List ℕ)) → QuietStep (rows_at self.old) (rows_at self.new)
            others kept kept result (at R.state vault.old (S.state store.old))
            (at R.state vault.new (S.state store.new)) }
    {
        let n = self.k;
        let picked = collect_block(
            store,
            vault,
            rows,
            &mut [],
            &self.flat,
            &self.pred,
            place,
            n,
            0,
            0,
        );
        match picked {
            Ok(n) => {
                self.counted(place, n);
                Ok(())
            }
            Err(error) => {
                if is_fault(error) {
                    self.fail(vault);
                    Ok(())
                } else {
                    Err(error)
                }
            }
        }
    }

    // Takes room for all that follows a count, where that wasn't known before.
    fn take_room<S: BlockStore>(&self, store: &mut S, others: u64) -> Result<u64, NoMemory>
        requires sized { IsSizedAt (rows_at self.now) }
        requires few { self.now.k ≤ self.now.flat.capacity }
        requires asked { self.now.asked ≡ table_blocks (rows_selection self.now) }
        requires others { others ≤ 2 ^ 62 }
        requires booked { self.now.booked ≡ known_by (rows_selection self.now).public.pad
            (table_blocks (rows_selection self.now))
            (whole_length (rows_selection self.now) self.now.k) - self.now.asked }
        requires spare { others + self.now.booked ≤ (S.state store.old).spare }
        ensures { TakesRoom (rows_at self.now) others result (S.state store.old)
            (S.state store.new) }
    {
        if self.public.pad.is_some() {
            return Ok(self.booked);
        }
        let rest = self.length() - self.asked;
        store.reserve(others + rest)?;
        Ok(rest)
    }

    // Makes the region of its result, and begins the first pass.
    pub(crate) fn make<S: BlockStore, R: Revisions>(
        &mut self,
        store: &mut S,
        vault: &mut Vault<R>,
        kept: &mut [ClearRow],
        others: u64,
    ) -> Result<(), OpErr>
        requires steps { StepsAt (rows_at self.old) Stage.Make others
            (at R.state vault.old (S.state store.old)) }
        requires fit { FitsShare (rows_selection self.old) kept.old }
        requires held { IsHeld (Holds (rows_at self.old) kept.old)
            (at R.state vault.old (S.state store.old)) }
        ensures kept { SameSizes kept.old kept.new }
        ensures quiet { QuietStep (rows_at self.old) (rows_at self.new) others kept.old kept.new
            result (at R.state vault.old (S.state store.old))
            (at R.state vault.new (S.state store.new)) }
    {
        let Ok(booked) = self.take_room(store, others) else {
            return Err(OpErr::NoMemory);
        };
        let region = vault.next_region();
        let (capacity, pack) = (self.taken(), self.pack());
        match make_table(store, vault, &self.flat.schema, capacity, pack, Order::Any) {
            Ok(_) => {
                clear_rows(kept);
                self.region = Some(region);
                self.booked = booked;
                self.go(Stage::Read {
                    pass: 0,
                    place: 0,
                    seen: 0,
                });
                Ok(())
            }
            Err(error) => {
                if is_fault(error) {
                    self.region = Some(region);
                    self.fail(vault);
                    Ok(())
                } else {
                    Err(error)
                }
            }
        }
    }

    // Reads a block of its table in a pass, and keeps those of its selected rows that the pass writes.
    pub(crate) fn read<S: BlockStore, R: Revisions>(
        &mut self,
        store: &mut S,
        vault: &mut Vault<R>,
        rows: &mut [ClearRow],
        kept: &mut [ClearRow],
        others: u64,
        pass: u32,
        place: u32,
        seen: u32,
    ) -> Result<(), OpErr>
        requires steps { StepsAt (rows_at self.old) (Stage.Read pass place seen) others
            (at R.state vault.old (S.state store.old)) }
        requires fit { FitRows (rows_selection self.old) rows.old kept.old }
        requires held { IsHeld (Holds (rows_at self.old) kept.old)
            (at R.state vault.old (S.state store.old)) }
        ensures rows { SameSizes rows.old rows.new }
        ensures kept { SameSizes kept.old kept.new }
        ensures quiet { QuietStep (rows_at self.old) (rows_at self.new) others kept.old kept.new
            result (at R.state vault.old (S.state store.old))
            (at R.state vault.new (S.state store.new)) }
    {
        let from = pass * self.buffered() * self.pack();
        let k = self.taken();
        let picked = collect_block(
            store, vault, rows, kept, &self.flat, &self.pred, place, seen, from, k,
        );
        match picked {
            Ok(n) => {
                let stage = self.after_read(pass, place, n);
                self.go(stage);
                Ok(())
            }
            Err(error) => {
                if is_fault(error) {
                    self.fail(vault);
                    Ok(())
                } else {
                    Err(error)
                }
            }
        }
    }

    // Writes a block of what a pass has kept.
    pub(crate) fn write<S: BlockStore, R: Revisions>(
        &mut self,
        store: &mut S,
        vault: &mut Vault<R>,
        kept: &mut [ClearRow],
        others: u64,
        pass: u32,
        place: u32,
    ) -> Result<(), OpErr>
        requires steps { StepsAt (rows_at self.old) (Stage.Write pass place) others
            (at R.state vault.old (S.state store.old)) }
        requires fit { FitsShare (rows_selection self.old) kept.old }
        requires held { IsHeld (Holds (rows_at self.old) kept.old)
            (at R.state vault.old (S.state store.old)) }
        ensures kept { SameSizes kept.old kept.new }
        ensures quiet { QuietStep (rows_at self.old) (rows_at self.new) others kept.old kept.new
            result (at R.state vault.old (S.state store.old))
            (at R.state vault.new (S.state store.new)) }
    {
        let Some(region) = self.region else {
            unreachable!()
        };
        let to = self.result(region);
        let there = pass * self.buffered() + place;
        match write_part(store, vault, kept, self.pack(), place, &to, there) {
            Ok(()) => {
                let stage = self.after_write(pass, place);
                clear_for(stage, kept);
                self.go(stage);
                Ok(())
            }
            Err(error) => {
                if is_fault(error) {
                    self.fail(vault);
                    Ok(())
                } else {
                    Err(error)
                }
            }
        }
    }

    // Discards its result, whatever the store answers.
    pub(crate) fn discard<S: BlockStore, R: Revisions>(
        &mut self,
        store: &mut S,
        vault: &mut Vault<R>,
        others: u64,
    ) -> Result<(), OpErr>
        requires steps { StepsAt (rows_at self.old) Stage.Discard others
            (at R.state vault.old (S.state store.old)) }
        requires held { IsHeldIn (rows_at self.old) (at R.state vault.old (S.state store.old)) }
        ensures quiet { (kept : List (List ℕ)) → QuietStep (rows_at self.old) (rows_at self.new)
            others kept kept result (at R.state vault.old (S.state store.old))
            (at R.state vault.new (S.state store.new)) }
    {
        let Some(region) = self.region else {
            unreachable!()
        };
        let _ = discard(store, vault, self.result(region));
        self.go(Stage::Over);
        Ok(())
    }
}
