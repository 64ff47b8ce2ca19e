//! A SELECT of totals in flight, while it reads.
ghost use Rattle.std.specs.Prelude.{◌≡◌, ◌≤◌, ◌<◌, ◌+◌, true, Some};
ghost use Rattle.ob_stages.specs.Reading.{StartsReading, is_over, reads_left, served_of};

use ob_base::{End, Public, Seen};
use ob_flat::Flat;
use ob_row::Pred;
use ob_sql::SelectTotals;
use ob_verdict::Outcome;

/// A SELECT of totals in flight, which reads its table a block at a time: how far it is.
#[derive(Drop)]
pub struct Reading<'a> {
    // what was public before the flight, and how many fly in it
    pub(crate) public: &'a Public,
    pub(crate) flown: u32,
    pub(crate) select: &'a SelectTotals,
    // its table, and its condition over the table's columns
    pub(crate) flat: Flat,
    pub(crate) pred: Pred,
    // the table's blocks, and how many reads were asked
    pub(crate) blocks: u32,
    pub(crate) asked: u32,
    // whether the store failed the last of them
    pub(crate) failed: bool,
    // its answer, once it has ended
    pub(crate) outcome: Option<Outcome>,
}

impl<'a> Reading<'a> {
    /// One of which nothing was asked.
    pub(crate) fn new(
        public: &'a Public,
        flown: u32,
        select: &'a SelectTotals,
        flat: Flat,
        pred: Pred,
    ) -> Reading<'a>
        requires { 1 ≤ public.now.pack }
        ensures { StartsReading public.now flown select.now flat pred result }
    {
        let blocks = flat.capacity.div_ceil(u32::from(public.pack));
        Reading {
            public,
            flown,
            select,
            flat,
            pred,
            blocks,
            asked: 0,
            failed: false,
            outcome: None,
        }
    }

    pub(crate) fn is_over(&self) -> bool
        ensures { result ≡ is_over self.now }
    {
        self.failed || self.asked == self.blocks
    }

    /// How many reads are left to ask.
    pub(crate) fn left(&self) -> u32
        ensures { result ≡ reads_left self.now.failed self.now.blocks self.now.asked }
    {
        if self.failed {
            0
        } else {
            self.blocks.saturating_sub(self.asked)
        }
    }

    /// What is seen of it so far: where the store failed it, that it was cut off there.
    pub(crate) fn seen(&self) -> Seen
        ensures { result ≡ (served_of self.now).seen }
    {
        let end = if self.failed {
            End::Cut(u64::from(self.asked))
        } else {
            End::Whole
        };
        Seen {
            k: None,
            plan: None,
            then: None,
            leaf: None,
            end,
        }
    }

    /// One more block was read.
    pub(crate) fn read_on(&mut self)
        requires { self.old.asked < self.old.blocks }
        ensures { self.new ≡ record self.old { asked = self.old.asked + 1 } }
    {
        self.asked += 1;
    }

    /// The store failed the next read.
    pub(crate) fn fail(&mut self)
        requires { self.old.asked < self.old.blocks }
        ensures { self.new ≡ record self.old { asked = self.old.asked + 1; failed = true } }
    {
        self.asked += 1;
        self.failed = true;
    }

    /// It was answered.
    pub(crate) fn end(&mut self, outcome: Outcome) -> Outcome
        ensures answer { result ≡ outcome }
        ensures ends { self.new ≡ record self.old { outcome = Some outcome } }
    {
        self.outcome = Some(outcome);
        outcome
    }
}
