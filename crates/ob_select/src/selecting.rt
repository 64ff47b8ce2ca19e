//! A SELECT of rows from one region, a table's or a joined one.
ghost use Rattle.std.specs.Prelude.{◌≡◌, ◌≢◌, true, false};
ghost use Rattle.ob_base.specs.declared.config.Planner.TheVariants.{Auto};
ghost use Rattle.ob_base.specs.declared.seen.End.TheVariants.{Whole};
ghost use Rattle.ob_vault.specs.Places.{at};
ghost use Rattle.ob_mean.specs.Verdict.{ended as seen_to};
ghost use Rattle.ob_emit.specs.Emitting.{AreColumns, header};
ghost use Rattle.ob_select.specs.Settings.{AreSettings};
ghost use Rattle.ob_select.specs.Results.{ChoosesPlan, EmitsHead};
ghost use Rattle.ob_select.specs.Selecting.{MaySelect, SelectsFrom, UsesRoom, selection_of};

use crate::results::{select_by, select_padded};
use ob_base::{Emit, EmitErr, End, Plan, Planner, Public, Refusal, Seen};
use ob_emit::emit_head;
use ob_flat::{Counted, Flat, OpErr};
use ob_room::RowBuffer;
use ob_row::Pred;
use ob_store::BlockStore;
use ob_vault::{Revisions, Vault};

/// What is selected from a region.
#[derive(Drop)]
pub struct Query<'a> {
    /// The region: its number, its columns, and its capacity in slots.
    pub flat: &'a Flat,
    /// The rows that make this true are selected.
    pub pred: &'a Pred,
    /// The places of the columns whose cells are emitted, from 0 on, in their order.
    pub cols: &'a [u8],
    /// How many accesses the caller asks for afterwards, one at most: the store keeps room for them, too.
    pub ending: u64,
}

/// How a selection was answered.
#[derive(Clone, Copy, Debug, PartialEq, Eq)]
pub enum Selected {
    /// So many rows were emitted, after their header.
    Rows(u32),
    /// It was refused for its rows, and nothing was emitted: they don't stand side by side where Continuous is
    /// forced, one finds no place where Hash is, or they are more than results are padded to.
    Refused(Refusal),
}

// Emits the header alone.
fn emit_none<E: Emit>(query: &Query<'_>, out: &mut E) -> Result<Selected, OpErr>
    requires { AreColumns query.now.flat.now.schema query.now.cols.now }
    ensures { EmitsHead E.grew E.cut E.faults (header query.now.flat.now.schema query.now.cols.now)
        result out.old out.new }
{
    match emit_head(&query.flat.schema, query.cols, out) {
        Ok(()) => Ok(Selected::Rows(0)),
        Err(EmitErr::Failed) => Err(OpErr::Sink),
        Err(EmitErr::NoMemory) => Err(OpErr::NoMemory),
    }
}

// The plan for so many of `n` rows; none where Continuous is forced, and they don't stand side by side.
#[tactic(auto, using(ob_base::proofs::PlanLemmas::forced_apart))]
fn plan_of(n: u32, counted: Counted, public: &Public) -> Option<Plan>
    requires { AreSettings public.now }
    ensures { ChoosesPlan public.now n counted.k counted.consecutive result }
{
    let plan = ob_plan::plan(n, counted.k, counted.consecutive, public);
    match plan {
        Plan::Continuous => {
            if counted.consecutive {
                Some(plan)
            } else {
                None
            }
        }
        Plan::Small | Plan::Large | Plan::Hash => Some(plan),
    }
}

// Whether no other plan follows a Hash that left a row out: Small does where that was chosen by the rows that may
// be buffered.
fn is_last(public: &Public) -> bool
    ensures last { result ≡ true → public.now.planner ≢ Auto }
    ensures followed { result ≡ false → public.now.planner ≡ Auto }
{
    match public.planner {
        Planner::Auto => false,
        Planner::Cheapest | Planner::Forced(_) => true,
    }
}

/// Selects from a region: its rows are counted, then put into a fresh region by the plan for so many, and
/// the result is emitted and discarded. Where a Hash that wasn't forced left a row out, its result is
/// walked and discarded, and Small takes its place. `seen` has afterwards what is known by what was asked,
/// on an error too; no region is left except those that there were. Where results are padded, all that is asked
/// follows from the sizes of the region and of the padding, and `seen` stays as it is; where more rows are
/// selected than that, the result is walked and discarded, and refused.
///
/// The store has room for the count, for a padded result and for the accesses of `query.ending`; for any other
/// result it is taken here, once its size is known. `Failed` where the store failed; `Tampered` with the region
/// and the place of a block that is not what was written there last, or that has a malformed row; `Sink` where
/// the emitter failed; `NoMemory` where the store has no room for a result's accesses or for its region, and
/// where the emitter had no memory. What was emitted by then is a first part of the whole, and all rows of
/// `room` are free again.
pub fn select_from<S: BlockStore, R: Revisions, E: Emit>(
    store: &mut S,
    vault: &mut Vault<R>,
    room: &mut RowBuffer,
    public: &Public,
    query: &Query<'_>,
    seen: &mut Seen,
    out: &mut E,
) -> Result<Selected, OpErr>
    requires may { MaySelect (selection_of public.now query.now) room.old
        (at R.state vault.old (S.state store.old)) }
    requires fresh { seen.old ≡ seen_to Whole }
    ensures room { UsesRoom room.old room.new }
    ensures selects { SelectsFrom E.grew E.cut E.faults
        (selection_of public.now query.now) result seen.new
        (at R.state vault.old (S.state store.old)) (at R.state vault.new (S.state store.new))
        out.old out.new }
{
    let counted = ob_flat::count(store, vault, room, query.flat, query.pred)?;
    if let Some(pad) = public.pad {
        return select_padded(store, vault, room, public, query, pad, counted.k, out);
    }
    seen.k = Some(u64::from(counted.k));
    if counted.k == 0 {
        return emit_none(query, out);
    }
    let Some(plan) = plan_of(query.flat.capacity, counted, public) else {
        seen.end = End::AfterCount;
        return Ok(Selected::Refused(Refusal::NotConsecutive));
    };
    seen.plan = Some(plan);
    match select_by(store, vault, room, public, query, counted.k, plan, out)? {
        Selected::Rows(n) => Ok(Selected::Rows(n)),
        Selected::Refused(refusal) => {
            if is_last(public) {
                return Ok(Selected::Refused(refusal));
            }
            seen.then = Some(Plan::Small);
            let plan = Plan::Small;
            select_by(store, vault, room, public, query, counted.k, plan, out)
        }
    }
}
