//! Accesses as runs.
ghost use Rattle.std.specs.Prelude.{◌≡◌, ◌+◌, ◌-◌, ◌<◌, ◌≤◌, ◌^◌, ◌==◌, ◌++◌, ◌∷◌, [], length, slice_get, slice_range, OnOk, vec_len, vec_capacity};
ghost use Rattle.ob_store.specs.Logs.{RunsState, spelt, added, raised, entry, is_block, is_raised, is_next, is_turn, comes_round, joins};
ghost use Rattle.ob_store.specs.Kept.{runs_of, place_of, IsLog, start_of};

use ob_base::{Access, NoMemory};
use std::alloc::Global;
use std::marker::Model;

/// Accesses in order, kept as runs.
///
/// A run has a cycle of one to three accesses, and goes through it again and again: its entry `t` is
/// entry `t mod c` of a cycle of `c`, with the place raised by `t div c`. So a pass over a table is one
/// run, however large the table. Make, Discard and Open are runs of one access. An access takes at most 40 bytes,
/// and none where it goes on a run.
#[derive(Drop)]
pub(crate) struct Runs {
    cycles: Vec<Access>,
    starts: Vec<Start>,
    count: u64,
}

// Where a run begins: its first access among all, and its cycle among the cycles.
#[derive(Clone, Copy)]
pub(crate) struct Start {
    access: u64,
    cycle: u64,
}

impl Model for Runs {
    ghost use Rattle.std.specs.Prelude.{◌-◌, ◌^◌, length, min, vec_len, vec_capacity};
    ghost use Rattle.ob_store.specs.Logs.{RunsState};

    ghost Value = { RunsState };

    ghost use Rattle.ob_store.specs.Kept.{runs_of, IsLog};

    ghost view = { λ l. record {
      runs = runs_of l.cycles.items l.starts.items (length l.starts.items) (length l.cycles.items) l.count;
      spare = min (min (vec_capacity l.cycles - vec_len l.cycles) (vec_capacity l.starts - vec_len l.starts)) (2 ^ 64 - 1 - l.count);
    } };

    ghost invariant = { λ l. IsLog l.cycles.items l.starts.items l.count };
}

impl Runs {
    /// No access, with room for none.
    pub fn new(alloc: Global) -> Runs
        ensures { result.runs ≡ [] }
    {
        Runs {
            cycles: Vec::new(alloc),
            starts: Vec::new(alloc),
            count: 0,
        }
    }

    /// Makes room for `n` more accesses, if each begins a run.
    pub fn reserve(&mut self, n: u64) -> Result<(), NoMemory>
        ensures runs { self.new.runs ≡ self.old.runs }
        ensures kept { self.old.spare ≤ self.new.spare }
        ensures spare { OnOk result (n ≤ self.new.spare) }
    {
        if n > u64::MAX - self.count {
            return Err(NoMemory);
        }
        if self.cycles.reserve(n as usize).is_err() || self.starts.reserve(n as usize).is_err() {
            return Err(NoMemory);
        }
        Ok(())
    }

    /// Adds an access, in room that was made for it: to the last run if it is that run's next entry; else
    /// to the last two runs, or else three, as one run if they are one Read or Write each and it is the
    /// first of them at the next place; else as a run of its own.
    pub fn push(&mut self, access: Access)
        requires { 1 ≤ self.old.spare }
        ensures runs { self.new.runs ≡ added access self.old.runs }
        ensures asked { spelt self.new.runs ≡ spelt self.old.runs ++ access ∷ [] }
        ensures spare { self.old.spare ≤ self.new.spare + 1 }
    {
        lengthen(&mut self.cycles, &mut self.starts, self.count, access);
        self.count += 1;
    }

    /// Takes out all of them. Their room stays.
    pub fn clear(&mut self)
        ensures runs { self.new.runs ≡ [] }
        ensures spare { self.old.spare ≤ self.new.spare }
    {
        self.cycles.clear();
        self.starts.clear();
        self.count = 0;
    }

    /// How many runs there are.
    pub fn runs(&self) -> u64
        ensures runs { result ≡ length self.now.runs }
        ensures few { result ≤ length (spelt self.now.runs) }
    {
        self.starts.len() as u64
    }

    /// How many accesses there are.
    pub fn count(&self) -> u64
        ensures { result ≡ length (spelt self.now.runs) }
    {
        self.count
    }

    /// The access at an index, from 0, found by a binary search over the runs.
    pub fn nth(&self, i: u64) -> Access
        requires { i < length (spelt self.now.runs) }
        ensures { slice_get (spelt self.now.runs) i ≡ Some result }
    {
        let starts = self.starts.as_slice();
        let cycles = self.cycles.as_slice();
        let run = run_at(starts, i);
        let start = starts[run];
        let to = cycle_end(starts, run, cycles.len());
        let cycle = part(cycles, start.cycle, to);
        entry_of(cycle, i - start.access)
    }
}

fn part(cycles: &[Access], from: u64, to: usize) -> &[Access]
    requires { (from ≤ to) × (to ≤ length cycles.now) }
    ensures { result.now ≡ slice_range cycles.now from to }
{
    &cycles[from as usize..to]
}

// The last run that begins at or before an access.
fn run_at(starts: &[Start], i: u64) -> usize
    requires some { 0 < length starts.now }
    requires first { (start_of starts.now 0).access ≤ i }
    ensures within { result < length starts.now }
    ensures begins { (start_of starts.now result).access ≤ i }
    ensures last { result + 1 < length starts.now → i < (start_of starts.now (result + 1)).access }
{
    let mut low = 0;
    let mut high = starts.len();
    while high - low > 1 {
        let middle = low + (high - low) / 2;
        if starts[middle].access <= i {
            low = middle;
        } else {
            high = middle;
        }
    }
    low
}

// Where the cycle of a run ends.
fn cycle_end(starts: &[Start], run: usize, all: usize) -> usize
    requires { run < length starts.now }
    ensures next { run + 1 < length starts.now → result ≡ (start_of starts.now (run + 1)).cycle }
    ensures last { run + 1 ≡ length starts.now → result ≡ all }
{
    if run + 1 < starts.len() {
        starts[run + 1].cycle as usize
    } else {
        all
    }
}

// Entry `t` of a run.
fn entry_of(cycle: &[Access], t: u64) -> Access
    requires some { 0 < length cycle.now }
    requires place { place_of (entry cycle.now t) < 2 ^ 32 }
    ensures { result ≡ entry cycle.now t }
{
    let size = cycle.len() as u64;
    raise(cycle[(t % size) as usize], t / size)
}

fn raise(access: Access, by: u64) -> Access
    requires { place_of (raised by access) < 2 ^ 32 }
    ensures { result ≡ raised by access }
{
    match access {
        Access::Read { region, place } => Access::Read {
            region,
            place: place + by as u32,
        },
        Access::Write { region, place } => Access::Write {
            region,
            place: place + by as u32,
        },
        Access::Make { .. } | Access::Discard { .. } | Access::Open { .. } => access,
    }
}

// Adds an access to the runs.
fn lengthen(cycles: &mut Vec<Access>, starts: &mut Vec<Start>, count: u64, access: Access)
    requires log { IsLog cycles.old.items starts.old.items count }
    requires cycles { vec_len cycles.old < vec_capacity cycles.old }
    requires starts { vec_len starts.old < vec_capacity starts.old }
    ensures log { IsLog cycles.new.items starts.new.items (count + 1) }
    ensures runs { runs_of cycles.new.items starts.new.items (length starts.new.items)
        (length cycles.new.items) (count + 1)
        ≡ added access (runs_of cycles.old.items starts.old.items (length starts.old.items)
        (length cycles.old.items) count) }
    ensures cycles { vec_capacity cycles.old - vec_len cycles.old
        ≤ vec_capacity cycles.new - vec_len cycles.new + 1 }
    ensures starts { vec_capacity starts.old - vec_len starts.old
        ≤ vec_capacity starts.new - vec_len starts.new + 1 }
{
    let place = place_of(access);
    prove!(place <= u32::MAX);
    let runs = joined(cycles, starts, count, access);
    if runs == 0 {
        starts.push_reserved(Start {
            access: count,
            cycle: cycles.len() as u64,
        });
        cycles.push_reserved(access);
    } else {
        starts.truncate(starts.len() + 1 - runs);
    }
}

// The place of an access, 0 where it has none.
fn place_of(access: Access) -> u32
    ensures { result ≡ place_of access }
{
    match access {
        Access::Read { place, .. } | Access::Write { place, .. } => place,
        Access::Make { .. } | Access::Discard { .. } | Access::Open { .. } => 0,
    }
}

// How many of the last runs are one run together with an access.
fn joined(cycles: &[Access], starts: &[Start], count: u64, access: Access) -> usize
    requires { IsLog cycles.now starts.now count }
    ensures { result
        ≡ joins access (runs_of cycles.now starts.now
        (length starts.now) (length cycles.now) count) }
{
    if starts.is_empty() {
        return 0;
    }
    let last = starts[starts.len() - 1];
    let cycle = part(cycles, last.cycle, cycles.len());
    if is_next(cycle, count - last.access, access) {
        1
    } else if comes_round(2, cycles, starts, count, access) {
        2
    } else if comes_round(3, cycles, starts, count, access) {
        3
    } else {
        0
    }
}

// Whether the last `size` runs are one Read or Write each, and an access is the first of them at the next
// place.
fn comes_round(size: usize, cycles: &[Access], starts: &[Start], count: u64, access: Access) -> bool
    requires some { 0 < size }
    requires log { IsLog cycles.now starts.now count }
    ensures { result ≡ comes_round size access
        (runs_of cycles.now starts.now (length starts.now) (length cycles.now) count) }
{
    if starts.len() < size {
        return false;
    }
    let first = starts[starts.len() - size].access;
    if count - first != size as u64 {
        return false;
    }
    let cycle = part(cycles, (cycles.len() - size) as u64, cycles.len());
    is_turn(cycle, access)
}

// Whether an access is the next entry of a run.
fn is_next(cycle: &[Access], count: u64, access: Access) -> bool
    requires { 0 < length cycle.now }
    ensures { result ≡ is_next cycle.now count access }
{
    let size = cycle.len() as u64;
    is_raised(cycle[(count % size) as usize], count / size, access)
}

// Whether Reads and Writes and an access are a cycle and the first entry of its next turn.
fn is_turn(cycle: &[Access], access: Access) -> bool
    requires { 0 < length cycle.now }
    ensures { result ≡ is_turn cycle.now access }
{
    cycle.iter().all(|step| is_block(*step)) && is_raised(cycle[0], 1, access)
}

fn is_block(access: Access) -> bool
    ensures { result ≡ is_block access }
{
    matches!(access, Access::Read { .. } | Access::Write { .. })
}

// Whether both are Reads, or both Writes, of one region, the second at a place that is higher by `by`.
fn is_raised(first: Access, by: u64, access: Access) -> bool
    ensures { result ≡ is_raised by first access }
{
    match (first, access) {
        (
            Access::Read { region, place },
            Access::Read {
                region: other,
                place: higher,
            },
        ) => { region == other && is_higher(place, by, higher) }
        (
            Access::Write { region, place },
            Access::Write {
                region: other,
                place: higher,
            },
        ) => { region == other && is_higher(place, by, higher) }
        _ => false,
    }
}

fn is_higher(place: u32, by: u64, higher: u32) -> bool
    ensures { result ≡ (place + by == higher) }
{
    place <= higher && u64::from(higher - place) == by
}
