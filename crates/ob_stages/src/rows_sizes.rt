//! The sizes of a SELECT of rows in flight.
ghost use Rattle.std.specs.Prelude.{◌≡◌, ◌≤◌, ◌<◌, ◌^◌};
ghost use Rattle.ob_small.specs.Selection.{passes, results};
ghost use Rattle.ob_stages.specs.RowsStates.{IsSizedAt, after_emit, after_read, after_write, kept_blocks, known_by, part_blocks, passes_pad, result_in, rows_at, rows_selection, small, table_blocks, taken, whole_length};

use crate::rows::{RowsFlight, Stage};
use ob_flat::Flat;

impl<'a> RowsFlight<'a> {
    // How many slots a block has.
    pub(crate) fn pack(&self) -> u32
        ensures { result ≡ (rows_selection self.now).public.pack }
    {
        u32::from(self.public.pack)
    }

    // How many blocks its table has.
    pub(crate) fn blocks(&self) -> u32
        requires { IsSizedAt (rows_at self.now) }
        ensures value { result ≡ table_blocks (rows_selection self.now) }
        ensures few { result ≤ 16777216 }
    {
        self.flat.capacity.div_ceil(self.pack())
    }

    // How many blocks its share has space for.
    pub(crate) fn buffered(&self) -> u32
        requires { IsSizedAt (rows_at self.now) }
        ensures value { result ≡ kept_blocks (rows_selection self.now) }
        ensures some { 1 ≤ result }
        ensures few { result ≤ 65536 }
    {
        let pack = self.pack();
        (self.public.buffer / self.flown - 2 * pack) / pack
    }

    // How many slots its result has.
    pub(crate) fn taken(&self) -> u32
        ensures { result ≡ taken (rows_selection self.now) self.now.k }
    {
        match self.public.pad {
            None => self.k,
            Some(pad) => pad.min(self.flat.capacity),
        }
    }

    // How many blocks it has.
    pub(crate) fn results(&self) -> u32
        requires sized { IsSizedAt (rows_at self.now) }
        requires few { self.now.k ≤ self.now.flat.capacity }
        ensures value { result ≡ results (small (rows_selection self.now) self.now.k) }
        ensures few { result ≤ 16777216 }
    {
        self.taken().div_ceil(self.pack())
    }

    // How many passes fill it.
    pub(crate) fn passes(&self) -> u32
        requires sized { IsSizedAt (rows_at self.now) }
        requires few { self.now.k ≤ self.now.flat.capacity }
        ensures value { result ≡ passes (small (rows_selection self.now) self.now.k) }
        ensures few { result ≤ 16777216 }
    {
        self.results().div_ceil(self.buffered())
    }

    // How many blocks of it are written in a pass.
    pub(crate) fn part(&self, pass: u32) -> u32
        requires sized { IsSizedAt (rows_at self.now) }
        requires few { self.now.k ≤ self.now.flat.capacity }
        requires within { pass < passes (small (rows_selection self.now) self.now.k) }
        ensures { result ≡ part_blocks (rows_selection self.now) self.now.k pass }
    {
        let buffered = self.buffered();
        buffered.min(self.results() - pass * buffered)
    }

    // How many accesses it asks in all, where its result isn't empty.
    pub(crate) fn length(&self) -> u64
        requires sized { IsSizedAt (rows_at self.now) }
        requires few { self.now.k ≤ self.now.flat.capacity }
        ensures value { result ≡ whole_length (rows_selection self.now) self.now.k }
        ensures few { result ≤ 2 ^ 50 }
    {
        let blocks = u64::from(self.blocks());
        let results = u64::from(self.results());
        blocks + 1 + (u64::from(self.passes()) * blocks + results) + results + 1
    }

    // For how many of them room is taken before it has counted.
    pub(crate) fn known(&self) -> u64
        requires sized { IsSizedAt (rows_at self.now) }
        requires few { self.now.k ≤ self.now.flat.capacity }
        ensures { result ≡ known_by (rows_selection self.now).public.pad
            (table_blocks (rows_selection self.now))
            (whole_length (rows_selection self.now) self.now.k) }
    {
        match self.public.pad {
            None => u64::from(self.blocks()),
            Some(_) => self.length(),
        }
    }

    // Whether more rows are selected than results are padded to.
    pub(crate) fn passes_pad(&self) -> bool
        ensures { result ≡ passes_pad (rows_at self.now) }
    {
        match self.public.pad {
            None => false,
            Some(pad) => pad < self.k,
        }
    }

    // Its result, in this region.
    pub(crate) fn result(&self, region: u64) -> Flat
        ensures { result ≡ result_in (rows_selection self.now) self.now.k region }
    {
        Flat {
            schema: self.flat.schema.copied(),
            capacity: self.taken(),
            region,
        }
    }

    // ---- the next stage
    // After a block of the table that was read in a pass, by which so many selected rows were seen.
    pub(crate) fn after_read(&self, pass: u32, place: u32, seen: u32) -> Stage
        requires sized { IsSizedAt (rows_at self.now) }
        requires below { place < table_blocks (rows_selection self.now) }
        ensures { result ≡ after_read (rows_at self.now) pass place seen }
    {
        if place + 1 < self.blocks() {
            Stage::Read {
                pass,
                place: place + 1,
                seen,
            }
        } else {
            Stage::Write { pass, place: 0 }
        }
    }

    // After a block that was written.
    pub(crate) fn after_write(&self, pass: u32, place: u32) -> Stage
        requires sized { IsSizedAt (rows_at self.now) }
        requires few { self.now.k ≤ self.now.flat.capacity }
        requires within { pass < passes (small (rows_selection self.now) self.now.k) }
        requires below { place < part_blocks (rows_selection self.now) self.now.k pass }
        ensures { result ≡ after_write (rows_at self.now) pass place }
    {
        if place + 1 < self.part(pass) {
            return Stage::Write {
                pass,
                place: place + 1,
            };
        }
        if pass + 1 < self.passes() {
            Stage::Read {
                pass: pass + 1,
                place: 0,
                seen: 0,
            }
        } else {
            Stage::Emit(0)
        }
    }

    // After a block of its result that was read back.
    pub(crate) fn after_emit(&self, place: u32) -> Stage
        requires sized { IsSizedAt (rows_at self.now) }
        requires few { self.now.k ≤ self.now.flat.capacity }
        requires below { place < results (small (rows_selection self.now) self.now.k) }
        ensures { result ≡ after_emit (rows_at self.now) place }
    {
        if place + 1 < self.results() {
            Stage::Emit(place + 1)
        } else {
            Stage::Discard
        }
    }
}
