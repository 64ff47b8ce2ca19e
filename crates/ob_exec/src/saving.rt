//! The tables after a statement that was carried out: they are saved where they are to be.
ghost use Rattle.std.specs.Prelude.{◌≡◌, ◌&&◌, ◌≤◌, Ok, length, true, false};
ghost use Rattle.ob_base.specs.declared.refusal.Refusal.TheVariants.{StoreFault};
ghost use Rattle.ob_exec.specs.Commits.{IsBegun, CommitsIfDue, ended_at, is_due};
ghost use Rattle.ob_exec.specs.Ran.{is_whole};
ghost use Rattle.ob_exec.specs.Saving.{MayBeSaved};
ghost use Rattle.ob_script.specs.Script.{changes_tables, is_saved};
ghost use Rattle.ob_sql.specs.Skeleton.{skeleton};
ghost use Rattle.ob_tables.specs.Agreeing.{public_of, seen_of};
ghost use Rattle.ob_exec.specs.GivenUp.{GaveUpFrom};
ghost use Rattle.ob_vault.specs.State.{HasNoneFrom};
ghost use Rattle.ob_verdict.specs.declared.outcome.Outcome.TheVariants.{Refused};

use crate::commit::Commit;
use ob_base::{End, Public, Refusal};
use ob_flat::OpErr;
use ob_sql::Stmt;
use ob_store::BlockStore;
use ob_tables::{Engine, RunStop};
use ob_vault::Revisions;
use ob_verdict::Outcome;

// What is to be known of a statement before it is carried out.
#[derive(Clone, Copy)]
pub(crate) struct Begun {
    pub(crate) accesses: u64,
    pub(crate) saved: bool,
    pub(crate) left: Option<u64>,
    pub(crate) next: u64,
}

fn changes_tables(stmt: &Stmt) -> bool
    ensures { result ≡ changes_tables (skeleton stmt.now) }
{
    match stmt {
        Stmt::Create { .. }
        | Stmt::Insert { .. }
        | Stmt::Update { .. }
        | Stmt::Delete { .. }
        | Stmt::Drop { .. } => true,
        Stmt::SelectRows(_) | Stmt::SelectTotals(_) => false,
    }
}

// Whether tables are to be saved after a statement.
fn is_saved(public: &Public, stmt: &Stmt) -> bool
    ensures { result ≡ is_saved public.now (skeleton stmt.now) }
{
    changes_tables(stmt) && public.save
}

// Whether they are after one that ended so.
fn is_saved_behind(saved: bool, end: End) -> bool
    ensures { result ≡ (is_whole end && saved) }
{
    match end {
        End::Whole => saved,
        End::Static | End::AfterCount | End::Batched | End::Cut(_) => false,
    }
}

pub(crate) fn begin<S: BlockStore, R: Revisions>(
    engine: &Engine<R>,
    store: &S,
    stmt: &Stmt,
) -> Begun
    ensures { IsBegun (public_of engine.now) (S.state store.now) stmt.now result }
{
    Begun {
        accesses: store.count(),
        saved: is_saved(engine.public(), stmt),
        left: engine.left_by(stmt),
        next: engine.public().next_region,
    }
}

// Ends the session in a statement of which nothing is counted, after so many accesses: as want of memory in a pass does.
fn end_at<R: Revisions>(engine: &mut Engine<R>, accesses: u64)
    ensures { engine.new ≡ ended_at accesses engine.old }
{
    let _ = engine.cut(accesses, OpErr::NoMemory);
}

// Has the store give up what the vault forgot of a statement that was answered so, from this region on.
fn leave_forgotten<S: BlockStore, R: Revisions>(
    engine: &Engine<R>,
    store: &mut S,
    next: u64,
    outcome: Outcome,
)
    requires forgotten { outcome ≡ Refused StoreFault
        → HasNoneFrom next (R.state engine.now.vault.revs) }
    ensures same { S.state store.new ≡ S.state store.old }
    ensures given_up { outcome ≡ Refused StoreFault
        → GaveUpFrom next (S.given_up store.new) (S.state store.new) }
{
    if let Outcome::Refused(Refusal::StoreFault) = outcome {
        engine.vault.give_up(store, next);
    }
}

// Ends a statement that was carried out: what the vault forgot of one that the store failed is given up, and the
// tables after it are saved if they are due to be. Then it is answered.
pub(crate) fn finish<S: BlockStore, R: Revisions, B: Commit<S>>(
    engine: &mut Engine<R>,
    store: &mut S,
    commit: &mut B,
    begun: Begun,
    answer: Result<Outcome, RunStop>,
) -> Result<Outcome, RunStop>
    requires forgotten { answer ≡ Ok (Refused StoreFault)
        → HasNoneFrom begun.next (R.state engine.old.vault.revs) }
    requires may { is_due begun.saved answer (seen_of engine.old).end ≡ true
        → MayBeSaved R.state begun.left engine.old (S.state store.old) }
    requires wants { is_due begun.saved answer (seen_of engine.old).end ≡ true
        → (public_of engine.old).save ≡ true }
    requires saves { is_due begun.saved answer (seen_of engine.old).end ≡ true
        → B.Saves commit.old }
    requires counted { begun.accesses ≤ length (S.state store.old).asked }
    ensures commits { CommitsIfDue R.state (is_due begun.saved answer (seen_of engine.old).end)
        begun answer result engine.old (S.state store.old) engine.new (S.state store.new)
        (B.state commit.old) (B.state commit.new) }
    ensures stays { B.Saves commit.old → B.Saves commit.new }
    ensures same { B.name commit.new ≡ B.name commit.old }
    ensures given_up { is_due begun.saved answer (seen_of engine.old).end ≡ false
        → result ≡ Ok (Refused StoreFault)
        → GaveUpFrom begun.next (S.given_up store.new) (S.state store.new) }
{
    let outcome = match answer {
        Ok(outcome) => outcome,
        Err(stop) => return Err(stop),
    };
    leave_forgotten(engine, store, begun.next, outcome);
    if !is_saved_behind(begun.saved, engine.seen().end) {
        return Ok(outcome);
    }
    match commit.save(engine, store, begun.left) {
        Ok(()) => Ok(outcome),
        Err(stop) => {
            let accesses = store.count() - begun.accesses;
            end_at(engine, accesses);
            Err(stop)
        }
    }
}
