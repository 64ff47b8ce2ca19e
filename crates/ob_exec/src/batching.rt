//! INSERTs that are served together, and the tables after them.
ghost use Rattle.std.specs.Prelude.{◌≡◌, None, Ok, OnOk, false, length};
ghost use Rattle.ob_exec.specs.RanBatch.{RanBatch};
ghost use Rattle.ob_base.specs.declared.refusal.Refusal.TheVariants.{StoreFault};
ghost use Rattle.ob_exec.specs.GivenUp.{GaveUpFrom};
ghost use Rattle.ob_exec.specs.Saving.{MaySave};
ghost use Rattle.ob_tables.specs.Agreeing.{Agrees, count_of, has_ended, public_of, replaced_of};
ghost use Rattle.ob_tables.specs.Batch.{AreBatch};
ghost use Rattle.ob_verdict.specs.declared.outcome.Outcome.TheVariants.{Refused};

use crate::commit::Commit;
use crate::saving::{begin, finish};
use ob_sql::Stmt;
use ob_store::BlockStore;
use ob_tables::{Engine, RunStop};
use ob_vault::Revisions;
use ob_verdict::Outcome;

/// Carries out INSERTs into one flat table, in one reading and one rewriting of it, and saves the tables after them
/// once where they are to be saved. The result is the first one's answer, and `outcomes` are those of the rest.
///
/// Each of them is answered as if they were carried out one after the other, and the tables are those then, if the store
/// gave each block as it was written last. One of the rest that is refused before any access is so, and takes no row.
/// Where the store failed the first, it failed each of the rest that isn't refused before, and no table has changed.
///
/// `run` says what stops them, and what its accesses follow from: those of the first are those of all. Where it stops
/// none is answered.
pub fn run_batch<S: BlockStore, R: Revisions, B: Commit<S>>(
    engine: &mut Engine<R>,
    store: &mut S,
    commit: &mut B,
    first: &Stmt,
    rest: &[Stmt],
    outcomes: &mut [Outcome],
) -> Result<Outcome, RunStop>
    requires agrees { Agrees R.state engine.old (S.state store.old) }
    requires lives { has_ended engine.old ≡ false }
    requires settled { replaced_of engine.old ≡ None }
    requires saves { MaySave (B.Saves commit.old) engine.old }
    requires batch { AreBatch (public_of engine.old) (count_of engine.old (S.state store.old))
        first.now rest.now }
    requires each { length outcomes.old ≡ length rest.now }
    ensures ran { RanBatch R.state first.now rest.now result outcomes.new
        engine.old (S.state store.old) engine.new (S.state store.new)
        (B.state commit.old) (B.state commit.new) }
    ensures listed { (S.state store.new).let_go ≡ (S.state store.old).let_go }
    ensures saves { OnOk result (MaySave (B.Saves commit.new) engine.new) }
    ensures same { B.name commit.new ≡ B.name commit.old }
    ensures given_up { result ≡ Ok (Refused StoreFault) → GaveUpFrom
        (public_of engine.old).next_region (S.given_up store.new) (S.state store.new) }
{
    let begun = begin(engine, store, first);
    let answer = engine.insert_batch(store, first, rest, outcomes);
    finish(engine, store, commit, begun, answer)
}
