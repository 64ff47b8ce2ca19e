//! The list of a store's accesses.
ghost use Rattle.std.specs.Prelude.{◌≡◌, ◌<◌, ◌≤◌, ◌+◌, ◌++◌, ◌∷◌, [], length, slice_get, OnOk, Some};
ghost use Rattle.ob_store.specs.Logs.{asked_of, added};

use crate::past::Past;
use crate::runs::Runs;
use ob_base::{Access, NoMemory};
use std::alloc::Global;
use std::marker::Model;

/// The accesses asked of a store, in order, of which it has those that it hasn't let go of: as runs, of which a pass over
/// a table is one, however large the table. An access takes at most 40 bytes, and none where it goes on a run.
#[derive(Drop)]
pub struct Log {
    past: Past,
    gone: u64,
    runs: Runs,
}

impl Model for Log {
    ghost use Rattle.std.specs.Prelude.{◌+◌, ◌-◌, ◌^◌, length, min};
    ghost use Rattle.ob_store.specs.Logs.{AreCounted, LogState, spelt};

    ghost Value = { LogState };

    ghost view = { λ l. record {
      past = l.past.accesses;
      runs = l.runs.runs;
      spare = min l.runs.spare (2 ^ 64 - 1 - (length l.past.accesses + length (spelt l.runs.runs)));
    } };

    ghost invariant = { λ l. AreCounted l.gone l.past.accesses l.runs.runs };
}

impl Log {
    /// A log of no access, with room for none.
    pub fn new(alloc: Global) -> Log
        ensures asked { asked_of result ≡ [] }
        ensures past { result.past ≡ [] }
        ensures runs { result.runs ≡ [] }
    {
        Log {
            past: Past::new(),
            gone: 0,
            runs: Runs::new(alloc),
        }
    }

    /// Makes room for `n` more accesses, if each begins a run.
    pub fn reserve(&mut self, n: u64) -> Result<(), NoMemory>
        ensures asked { asked_of self.new ≡ asked_of self.old }
        ensures past { self.new.past ≡ self.old.past }
        ensures runs { self.new.runs ≡ self.old.runs }
        ensures kept { self.old.spare ≤ self.new.spare }
        ensures spare { OnOk result (n ≤ self.new.spare) }
    {
        if n > u64::MAX - self.count() {
            return Err(NoMemory);
        }
        self.runs.reserve(n)
    }

    /// Adds an access, in room that was made for it: to the last run if it is that run's next entry; else
    /// to the last two runs, or else three, as one run if they are one Read or Write each and it is the
    /// first of them at the next place; else as a run of its own.
    pub fn push(&mut self, access: Access)
        requires { 1 ≤ self.old.spare }
        ensures past { self.new.past ≡ self.old.past }
        ensures runs { self.new.runs ≡ added access self.old.runs }
        ensures asked { asked_of self.new ≡ asked_of self.old ++ access ∷ [] }
        ensures spare { self.old.spare ≤ self.new.spare + 1 }
    {
        self.runs.push(access);
    }

    /// Lets go of all accesses so far. The room that they took is free for more.
    pub fn let_go(&mut self)
        ensures past { self.new.past ≡ asked_of self.old }
        ensures runs { self.new.runs ≡ [] }
        ensures asked { asked_of self.new ≡ asked_of self.old }
        ensures spare { self.old.spare ≤ self.new.spare }
    {
        self.gone += self.runs.count();
        self.past = Past::joined(&self.past, &self.runs);
        self.runs.clear();
    }

    /// How many runs it has.
    pub fn runs(&self) -> u64
        ensures runs { result ≡ length self.now.runs }
        ensures few { result ≤ length (asked_of self.now) }
    {
        self.runs.runs()
    }

    /// How many accesses there are.
    pub fn count(&self) -> u64
        ensures { result ≡ length (asked_of self.now) }
    {
        self.gone + self.runs.count()
    }

    /// How many of them, from the first on, it has let go of.
    pub fn gone(&self) -> u64
        ensures { result ≡ length self.now.past }
    {
        self.gone
    }

    /// The access at an index, from 0, that it hasn't let go of, found by a binary search over the runs.
    pub fn nth(&self, i: u64) -> Access
        requires has { length self.now.past ≤ i }
        requires within { i < length (asked_of self.now) }
        ensures { slice_get (asked_of self.now) i ≡ Some result }
    {
        self.runs.nth(i - self.gone)
    }
}
