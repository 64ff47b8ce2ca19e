//! A statement, by its kind, and the tables after it.
ghost use Rattle.std.specs.Prelude.{◌≡◌, None, Ok, OnOk, true, false};
ghost use Rattle.ob_exec.specs.Ran.{Ran, ShowsNothing};
ghost use Rattle.ob_base.specs.declared.refusal.Refusal.TheVariants.{StoreFault};
ghost use Rattle.ob_exec.specs.GivenUp.{GaveUpFrom};
ghost use Rattle.ob_exec.specs.Saving.{MaySave};
ghost use Rattle.ob_script.specs.Script.{changes_tables};
ghost use Rattle.ob_sql.specs.Skeleton.{skeleton};
ghost use Rattle.ob_tables.specs.Agreeing.{Agrees, has_ended, public_of, replaced_of, seen_of};
ghost use Rattle.ob_tables.specs.Serving.{Serves};
ghost use Rattle.ob_verdict.specs.declared.outcome.Outcome.TheVariants.{Refused};

use crate::commit::Commit;
use crate::rows::select_rows;
use crate::saving::{begin, finish};
use crate::totals::select_totals;
use ob_base::Emit;
use ob_mean::early_refusal;
use ob_sql::Stmt;
use ob_store::BlockStore;
use ob_tables::{Engine, LATE, RunStop};
use ob_vault::Revisions;
use ob_verdict::Outcome;

// Carries out a statement except for what follows it.
fn serve<S: BlockStore, R: Revisions, E: Emit>(
    engine: &mut Engine<R>,
    store: &mut S,
    stmt: &Stmt,
    out: &mut E,
) -> Result<Outcome, RunStop>
    requires agrees { Agrees R.state engine.old (S.state store.old) }
    requires lives { has_ended engine.old ≡ false }
    ensures serves { Serves R.state E.grew E.cut E.faults stmt.now result
        engine.old (S.state store.old) engine.new (S.state store.new) out.old out.new }
    ensures shows { (public_of engine.old).save ≡ true
        → changes_tables (skeleton stmt.now) ≡ true → ShowsNothing result (seen_of engine.new) }
{
    if let Some(refusal) = early_refusal(engine.vault.spent(store) >= LATE, &engine.public, stmt) {
        return Ok(engine.refuse(refusal));
    }
    if let Some(k) = engine.accessed(stmt) {
        return engine.serve_index(store, k, stmt, out);
    }
    match stmt {
        Stmt::Create {
            table,
            columns,
            capacity,
            shape,
        } => engine.create(store, table, columns.as_slice(), *capacity, *shape),
        Stmt::Insert {
            table,
            columns,
            values,
        } => engine.insert(store, table, columns, values.as_slice()),
        Stmt::Update { table, sets, cond } => engine.update(store, table, sets.as_slice(), cond),
        Stmt::Delete { table, cond } => engine.delete(store, table, cond),
        Stmt::Drop { table } => engine.drop_table(store, table),
        Stmt::SelectRows(select) => select_rows(engine, store, select, out),
        Stmt::SelectTotals(select) => select_totals(engine, store, select, out),
    }
}

/// Carries out a statement of the language, and gives the rows of its answer to the emitter: a
/// header, each row, and their number. Any other answer emits nothing, but that a SELECT of rows may
/// have emitted its header and some rows when the store failed.
///
/// The answer is that of the statement over the tables before, if the store gave each block as it
/// was written last. `Refused` says why it was not carried out, and changes no table: for what it
/// says, for what the tables hold, or because the store failed at some access, by `StoreFault`: then the regions
/// that the statement made are given up. Where it is refused for what it says, nothing was asked of the store.
///
/// Where tables are saved, `commit` saves them once a statement that changes tables came to its end, also where it is
/// refused for what they hold, and only then it is answered.
///
/// `Tampered` names a block that is not what was written there last, or that no table's rows make;
/// `SinkFault` says that the emitter failed; and `NoMemory` comes before the first access, where a
/// region is made, after a change and before its tables are saved, or from the emitter while rows are
/// emitted, so that it tells of no other rows. What was emitted until then is a first part of the
/// answer. `StoreFault` says that the store failed in an access of an index, or while tables were
/// saved, or that there is no number left to save them under; `KeeperFault` that the keeper failed
/// then; and `StashFull` that the stash of an index has no room. After each of them the session has
/// ended: the engine takes no statement any more. After an answer it takes the next one.
///
/// Whatever the store does, its accesses are exactly those that follow from what was public before,
/// the statement without its literals and conditions, and what is seen of it; and no row comes to
/// lie there in clear. Of a SELECT of rows neither their number nor a plan is seen where results are
/// padded; one of more rows than that is refused as `PadPassed`.
pub fn run<S: BlockStore, R: Revisions, B: Commit<S>, E: Emit>(
    engine: &mut Engine<R>,
    store: &mut S,
    commit: &mut B,
    stmt: &Stmt,
    out: &mut E,
) -> Result<Outcome, RunStop>
    requires agrees { Agrees R.state engine.old (S.state store.old) }
    requires lives { has_ended engine.old ≡ false }
    requires settled { replaced_of engine.old ≡ None }
    requires saves { MaySave (B.Saves commit.old) engine.old }
    ensures ran { Ran R.state E.grew E.cut E.faults stmt.now result
        engine.old (S.state store.old) engine.new (S.state store.new) out.old out.new
        (B.state commit.old) (B.state commit.new) }
    ensures saves { OnOk result (MaySave (B.Saves commit.new) engine.new) }
    ensures same { B.name commit.new ≡ B.name commit.old }
    ensures given_up { result ≡ Ok (Refused StoreFault) → GaveUpFrom
        (public_of engine.old).next_region (S.given_up store.new) (S.state store.new) }
{
    let begun = begin(engine, store, stmt);
    let answer = serve(engine, store, stmt, out);
    finish(engine, store, commit, begun, answer)
}
