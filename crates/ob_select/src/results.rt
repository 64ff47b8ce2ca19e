//! The result of a selection by one plan: made, read back and discarded.
ghost use Rattle.std.specs.Prelude.{◌≡◌, ◌≤◌, ◌+◌, ℕ, Some, length};
ghost use Rattle.ob_base.specs.declared.config.Planner.TheVariants.{Forced};
ghost use Rattle.ob_base.specs.Plans.{MayPad};
ghost use Rattle.ob_base.specs.Schemas.{width};
ghost use Rattle.ob_blocks.specs.Idle.{IsIdle};
ghost use Rattle.ob_vault.specs.Places.{at};
ghost use Rattle.ob_flat.specs.Flats.{IsWritten, FitsRegion};
ghost use Rattle.ob_flat.specs.Words.{HasSpare, blocks_of};
ghost use Rattle.ob_emit.specs.Emitting.{AreColumns};
ghost use Rattle.ob_select.specs.Settings.{AreSettings};
ghost use Rattle.ob_select.specs.Selecting.{Selection, padded_after, selection_of};
ghost use Rattle.ob_select.specs.Results.{IsPlanned, KeepsRoom, MakesPadded, MakesResult, EmitsResult, WalksResult, SelectsBy, make_part, padded_to, placed_as, whole_part, planned};

use crate::selecting::{Query, Selected};
use ob_base::{Emit, Plan, Public, Refusal};
use ob_emit::{emit_all, walk};
use ob_flat::{Flat, OpErr, discard};
use ob_hash::Placed;
use ob_plan::padded_plan;
use ob_room::RowBuffer;
use ob_store::BlockStore;
use ob_vault::{Revisions, Vault};

// How many accesses a result of `k` rows of `n` slots takes, until it has been discarded.
fn result_length(public: &Public, n: u32, k: u32, plan: Plan) -> u64
    requires settings { AreSettings public.now }
    requires size { n ≤ 16777216 }
    requires most { k ≤ n }
    ensures few { result ≤ 576460752303423488 }
    ensures length { (q : Selection) → q.public ≡ public.now → q.flat.capacity ≡ n
        → (g : ℕ) → length (whole_part (planned q plan k) g) ≡ result }
{
    let pack = u64::from(public.pack);
    let depth = u64::from(public.depth);
    let n = u64::from(n);
    let k = u64::from(k);
    let blocks = n.div_ceil(pack);
    let results = k.div_ceil(pack);
    match plan {
        Plan::Small => {
            let buffered = (u64::from(public.buffer) - 2 * pack) / pack;
            results.div_ceil(buffered) * blocks + 2 * results + 2
        }
        Plan::Large => 5 * blocks + 2,
        Plan::Continuous => blocks + 2 * n + 2 * results + 2,
        Plan::Hash => blocks + 4 * depth * n + 2 * k * depth + 2,
    }
}

/// How many accesses the padded result of a selection from `n` slots takes, from its make until it has been
/// discarded, which is known before its rows are counted; 0 where results aren't padded. It never fails.
pub fn padded_length(public: &Public, n: u32) -> u64
    requires settings { AreSettings public.now }
    requires size { n ≤ 16777216 }
    ensures few { result ≤ 576460752303423488 }
    ensures length { (q : Selection) → q.public ≡ public.now → q.flat.capacity ≡ n
        → padded_after q.public.pad q ≡ result }
{
    let Some(pad) = public.pad else {
        return 0;
    };
    let rows = pad.min(n);
    result_length(public, n, rows, padded_plan(n, rows, public))
}

// A result that has each row.
fn placed(made: Result<Flat, OpErr>) -> Result<Placed, OpErr>
    ensures { result ≡ placed_as made }
{
    match made {
        Ok(fresh) => Ok(Placed::Done(fresh)),
        Err(error) => Err(error),
    }
}

// Selects by a plan into a fresh region.
fn make_result<S: BlockStore, R: Revisions>(
    store: &mut S,
    vault: &mut Vault<R>,
    room: &mut RowBuffer,
    public: &Public,
    query: &Query<'_>,
    k: u32,
    plan: Plan,
) -> Result<Placed, OpErr>
    requires may { IsPlanned (planned (selection_of public.now query.now) plan k) room.old
        (at R.state vault.old (S.state store.old)) }
    requires spare { length (make_part (planned (selection_of public.now query.now) plan k)
        vault.old.next) ≤ (S.state store.old).spare }
    ensures room { KeepsRoom room.old room.new }
    ensures makes { MakesResult (planned (selection_of public.now query.now) plan k) result
        (at R.state vault.old (S.state store.old)) (at R.state vault.new (S.state store.new)) }
{
    let flat = query.flat;
    let pred = query.pred;
    match plan {
        Plan::Small => placed(ob_small::select(store, vault, room, flat, pred, k)),
        Plan::Large => placed(ob_large::select(store, vault, room, flat, pred, k)),
        Plan::Continuous => placed(ob_cont::select(store, vault, room, flat, pred, k)),
        Plan::Hash => ob_hash::select(store, vault, room, flat, pred, k, public.depth),
    }
}

// Selects the first rows, as many as a padded result takes, into a fresh region.
fn make_padded<S: BlockStore, R: Revisions>(
    store: &mut S,
    vault: &mut Vault<R>,
    room: &mut RowBuffer,
    _public: &Public,
    query: &Query<'_>,
    rows: u32,
    plan: Plan,
) -> Result<Flat, OpErr>
    requires may { IsPlanned (planned (selection_of _public.now query.now) plan rows) room.old
        (at R.state vault.old (S.state store.old)) }
    requires plan { MayPad (Forced plan) }
    requires spare { length (make_part (planned (selection_of _public.now query.now) plan rows)
        vault.old.next) ≤ (S.state store.old).spare }
    ensures room { KeepsRoom room.old room.new }
    ensures makes { MakesPadded (selection_of _public.now query.now) plan rows result
        (at R.state vault.old (S.state store.old)) (at R.state vault.new (S.state store.new)) }
{
    match plan {
        Plan::Large => ob_large::select(store, vault, room, query.flat, query.pred, rows),
        Plan::Small | Plan::Continuous | Plan::Hash => {
            ob_small::select_padded(store, vault, room, query.flat, query.pred, rows)
        }
    }
}

// Emits a result, and discards it.
fn emit_result<S: BlockStore, R: Revisions, E: Emit>(
    store: &mut S,
    vault: &mut Vault<R>,
    room: &mut RowBuffer,
    fresh: Flat,
    cols: &[u8],
    out: &mut E,
) -> Result<u32, OpErr>
    requires spare { HasSpare (blocks_of room.old.pack fresh + 1)
        (at R.state vault.old (S.state store.old)) }
    requires written { IsWritten room.old.pack fresh (at R.state vault.old (S.state store.old)) }
    requires size { FitsRegion room.old.pack fresh.schema fresh.capacity }
    requires room { IsIdle (width fresh.schema) room.old }
    requires columns { AreColumns fresh.schema cols.now }
    ensures room { KeepsRoom room.old room.new }
    ensures emits { EmitsResult E.grew E.cut E.faults room.old.pack fresh cols.now result
        (at R.state vault.old (S.state store.old)) (at R.state vault.new (S.state store.new))
        out.old out.new }
{
    match emit_all(store, vault, room, &fresh, cols, out) {
        Ok(n) => {
            let _ = discard(store, vault, fresh);
            Ok(n as u32)
        }
        Err(error) => {
            vault.forget(fresh.region);
            Err(error)
        }
    }
}

// Reads a result back, emits nothing of it, and discards it.
fn walk_result<S: BlockStore, R: Revisions>(
    store: &mut S,
    vault: &mut Vault<R>,
    room: &mut RowBuffer,
    fresh: Flat,
) -> Result<(), OpErr>
    requires spare { HasSpare (blocks_of room.old.pack fresh + 1)
        (at R.state vault.old (S.state store.old)) }
    requires written { IsWritten room.old.pack fresh (at R.state vault.old (S.state store.old)) }
    requires size { FitsRegion room.old.pack fresh.schema fresh.capacity }
    requires room { IsIdle (width fresh.schema) room.old }
    ensures room { KeepsRoom room.old room.new }
    ensures walks { WalksResult room.old.pack fresh result
        (at R.state vault.old (S.state store.old)) (at R.state vault.new (S.state store.new)) }
{
    match walk(store, vault, room, &fresh) {
        Ok(()) => {
            let _ = discard(store, vault, fresh);
            Ok(())
        }
        Err(error) => {
            vault.forget(fresh.region);
            Err(error)
        }
    }
}

// Makes a result, and emits and discards it; where it left a row out it is not emitted, but read all the
// same.
pub(crate) fn select_by<S: BlockStore, R: Revisions, E: Emit>(
    store: &mut S,
    vault: &mut Vault<R>,
    room: &mut RowBuffer,
    public: &Public,
    query: &Query<'_>,
    k: u32,
    plan: Plan,
    out: &mut E,
) -> Result<Selected, OpErr>
    requires may { IsPlanned (planned (selection_of public.now query.now) plan k) room.old
        (at R.state vault.old (S.state store.old)) }
    requires ending { query.now.ending ≤ 1 }
    ensures room { KeepsRoom room.old room.new }
    ensures selects { SelectsBy E.grew E.cut E.faults
        (planned (selection_of public.now query.now) plan k) result
        (at R.state vault.old (S.state store.old)) (at R.state vault.new (S.state store.new))
        out.old out.new }
{
    let accesses = result_length(public, query.flat.capacity, k, plan) + query.ending;
    if store.reserve(accesses).is_err() {
        return Err(OpErr::NoMemory);
    }
    match make_result(store, vault, room, public, query, k, plan)? {
        Placed::Done(fresh) => {
            let n = emit_result(store, vault, room, fresh, query.cols, out)?;
            Ok(Selected::Rows(n))
        }
        Placed::Overflow(fresh, i) => {
            walk_result(store, vault, room, fresh)?;
            Ok(Selected::Refused(Refusal::Overflow(i)))
        }
    }
}

// Makes a padded result, and emits and discards it; where more rows are selected than it is padded to, it is
// not emitted, but read all the same. Room for it was taken before its rows were counted, so that want of room
// tells nothing of how many they are.
pub(crate) fn select_padded<S: BlockStore, R: Revisions, E: Emit>(
    store: &mut S,
    vault: &mut Vault<R>,
    room: &mut RowBuffer,
    public: &Public,
    query: &Query<'_>,
    pad: u32,
    k: u32,
    out: &mut E,
) -> Result<Selected, OpErr>
    requires may { IsPlanned (padded_to (selection_of public.now query.now) pad k) room.old
        (at R.state vault.old (S.state store.old)) }
    requires spare { query.now.ending + length (whole_part
        (padded_to (selection_of public.now query.now) pad k) vault.old.next)
        ≤ (S.state store.old).spare }
    requires plan { MayPad public.now.planner }
    requires count { k ≤ query.now.flat.now.capacity }
    ensures room { KeepsRoom room.old room.new }
    ensures selects { SelectsBy E.grew E.cut E.faults
        (padded_to (selection_of public.now query.now) pad k) result
        (at R.state vault.old (S.state store.old)) (at R.state vault.new (S.state store.new))
        out.old out.new }
{
    let rows = pad.min(query.flat.capacity);
    let plan = padded_plan(query.flat.capacity, rows, public);
    let fresh = make_padded(store, vault, room, public, query, rows, plan)?;
    if k > pad {
        walk_result(store, vault, room, fresh)?;
        return Ok(Selected::Refused(Refusal::PadPassed));
    }
    let n = emit_result(store, vault, room, fresh, query.cols, out)?;
    Ok(Selected::Rows(n))
}
