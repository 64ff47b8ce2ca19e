//! Statements that wait to be served together.
ghost use Rattle.std.specs.Prelude.{◌≡◌, ◌≢◌, ◌≤◌, ◌+◌, ◌*◌, ◌∷◌, [], drop, is_some, length, take, Option, IsErr, OnErr, OnOk};
ghost use Rattle.std.specs.Io.KnownBytes.{Appends};
ghost use Rattle.ob_headline.specs.Tracing.{traced};
ghost use Rattle.ob_headline.specs.Words.{faults_of, printed};
ghost use Rattle.ob_io.specs.Causes.{HasCause};
ghost use Rattle.ob_mean.specs.Batches.{inserts_into};
ghost use Rattle.ob_print.specs.Cuts.{Outputs};
ghost use Rattle.ob_headline.specs.declared.flight.FlightSettings.{FlightSettings};
ghost use Rattle.ob_shell.specs.Flying.{flights_of};
ghost use Rattle.ob_shell.specs.Lines.{BatchCut, SinksCause, line_answers};
ghost use Rattle.ob_shell.specs.Serving.{ServesBatch};
ghost use Rattle.ob_shell.specs.Steps.{Flights as FlightsToCome, IsReady, machine_of, no_flights};
ghost use Rattle.ob_shell.specs.Tallies.{tally_after};
ghost use Rattle.ob_shell.specs.Waiting;
ghost use Rattle.ob_shell.specs.Waiting.{AreBatched, AreFlown};
ghost use Rattle.ob_sql.specs.Skeleton.{skeleton};
ghost use Rattle.ob_tables.specs.Agreeing.{count_of, public_of};
ghost use Rattle.ob_tables.specs.Batch.{AreBatch};

use crate::flying::{begins_flight, may_fly, most_flown, serve_flight};
use crate::session::{Answered, SINK_FAILED, TextHalted, serve_stmt, tally_with};
use crate::trace::{let_go_from, trace_from};
use ob_base::{Failed, Public};
use ob_exec::{Commit, Engine, Outcome, RunStop, batch_most, begins_batch, run_batch};
use ob_gen::{Digester, Tally};
use ob_headline::FlightSettings;
use ob_io::Sink;
use ob_print::{Pieces, write_all};
use ob_sql::Stmt;
use ob_store::BlockStore;
use ob_turns::{DrawnTurns, closing_line};
use ob_vault::Revisions;
use std::alloc::Global;

fn is_insert(stmt: &Stmt) -> bool
    ensures { result ≡ is_some (inserts_into (skeleton stmt.now)) }
{
    matches!(stmt, Stmt::Insert { .. })
}

// Whether both insert into one table.
fn are_alike(first: &Stmt, stmt: &Stmt) -> bool
    ensures { result ≡ Waiting.are_alike (skeleton first.now) (skeleton stmt.now) }
{
    let Stmt::Insert { table, .. } = first else {
        return false;
    };
    match stmt {
        Stmt::Insert { table: other, .. } => table.as_bytes() == other.as_bytes(),
        _ => false,
    }
}

/// Whether a statement goes along with these, of which the first was the first that waited, where one more may: an INSERT
/// into its table, or a SELECT that may be in flight where it is one.
pub(crate) fn goes_along(public: &Public, batch: &[Stmt], stmt: &Stmt) -> bool
    ensures { result ≡ Waiting.goes_along public.now batch.now stmt.now }
{
    match batch.first() {
        Some(first) => match first {
            Stmt::Insert { .. } => are_alike(first, stmt),
            _ => may_fly(public, stmt),
        },
        None => false,
    }
}

/// As many as are served together, at most, where this one is among them.
pub(crate) fn gather_most(flight: Option<FlightSettings>, public: &Public, stmt: &Stmt) -> u64
    ensures { result ≡ Waiting.gather_most flight public.now (skeleton stmt.now) }
{
    match stmt {
        Stmt::Insert { .. } => batch_most(public),
        _ => most_flown(flight, public),
    }
}

/// Whether a statement before which none waits is to wait for others: it begins a batch or a flight.
pub(crate) fn begins<R: Revisions, S: BlockStore>(
    flight: Option<FlightSettings>,
    engine: &Engine<R>,
    store: &S,
    stmt: &Stmt,
) -> bool
    requires pack { 1 ≤ (public_of engine.now).pack }
    requires buffer { 3 * (public_of engine.now).pack + 1 ≤ (public_of engine.now).buffer }
    ensures { result ≡ Waiting.begins flight (public_of engine.now)
        (count_of engine.now (S.state store.now)) stmt.now }
{
    begins_batch(engine, store, stmt) || begins_flight(flight, engine.public(), stmt)
}

// Writes the line of each answer, of which none waits afterwards.
fn write_pieces<K: Sink>(outcomes: &[Outcome], out: &mut Pieces<'_, K>) -> Result<(), Failed>
    requires none { out.old.waiting.items ≡ [] }
    ensures same_sink { out.new.out.ghost_name ≡ out.old.out.ghost_name }
    ensures ok { OnOk result (Appends (K.written out.old.out.now) (K.written out.new.out.now)
        (printed (line_answers outcomes.now))) }
    ensures cut { Outputs (K.written out.old.out.now) (K.written out.new.out.now) (IsErr result)
        (printed (line_answers outcomes.now)) }
    ensures cause { HasCause (K.faults out.old.out.now) (K.faults out.new.out.now) result }
{
    for i in 0..outcomes.len() {
        let line = closing_line(outcomes[i]);
        if let Err(failed) = out.write_all(line.as_bytes()) {
            return Err(failed);
        }
    }
    out.flush()
}

// The same to a sink that takes them in pieces.
fn write_lines<K: Sink>(outcomes: &[Outcome], out: &mut K) -> Result<(), Failed>
    ensures ok { OnOk result (Appends (K.written out.old) (K.written out.new)
        (printed (line_answers outcomes.now))) }
    ensures cut { Outputs (K.written out.old) (K.written out.new) (IsErr result)
        (printed (line_answers outcomes.now)) }
    ensures cause { HasCause (K.faults out.old) (K.faults out.new) result }
{
    let mut pieces = Pieces::new(out);
    write_pieces(outcomes, &mut pieces)
}

// Writes the line of the first, digests and traces what comes after `asked_before`, and writes the lines of the others. After a
// sink's fault nothing more is written.
fn write_batch<S: BlockStore, K: Sink, T: Sink, D: Digester>(
    tracing: bool,
    store: &S,
    asked_before: u64,
    outcome: Outcome,
    outcomes: &[Outcome],
    out: &mut K,
    trace: &mut T,
    digest: &mut D,
) -> Result<(), Failed>
    requires listed { (S.state store.now).let_go ≤ asked_before }
    requires within { asked_before ≤ length (S.state store.now).asked }
    ensures ok { OnOk result (Appends (K.written out.old) (K.written out.new)
        (printed (line_answers (outcome ∷ outcomes.now)))) }
    ensures traced { OnOk result (Appends (T.written trace.old) (T.written trace.new)
        (traced tracing (drop asked_before (S.state store.now).asked))) }
    ensures cut { OnErr result (BatchCut (outcome ∷ outcomes.now)
        (K.written out.old) (K.written out.new) (T.written trace.old) (T.written trace.new)
        (traced tracing (drop asked_before (S.state store.now).asked))
        (K.faults out.old) (K.faults out.new)) }
    ensures cause { SinksCause (faults_of 0 (K.faults out.old) (T.faults trace.old))
        (faults_of 0 (K.faults out.new) (T.faults trace.new)) result }
    ensures took { OnOk result (D.took digest.old (take asked_before (S.state store.now).asked)
        → D.took digest.new (S.state store.now).asked) }
{
    if let Err(failed) = write_all(out, closing_line(outcome).as_bytes()) {
        return Err(failed);
    }
    if let Err(failed) = trace_from(tracing, store, asked_before, trace, digest) {
        return Err(failed);
    }
    write_lines(outcomes, out)
}

// With the answers of all of these.
fn tally_all(tally: Tally, outcomes: &[Outcome]) -> Tally
    ensures { result ≡ tally_after tally (line_answers outcomes.now) }
{
    let mut tally = tally;
    for i in 0..outcomes.len() {
        tally = tally_with(
            tally,
            Answered {
                outcome: outcomes[i],
                plan: None,
            },
        );
    }
    tally
}

// Serves a batch: the first, and the rest with it. Tells what was counted then.
fn serve_batch<R: Revisions, S: BlockStore, B: Commit<S>, K: Sink, T: Sink, D: Digester>(
    alloc: Global,
    tracing: bool,
    tally: Tally,
    first: &Stmt,
    rest: &[Stmt],
    engine: &mut Engine<R>,
    store: &mut S,
    commit: &mut B,
    out: &mut K,
    trace: &mut T,
    digest: &mut D,
) -> Result<Tally, TextHalted>
    requires batch { AreBatch (public_of engine.old) (count_of engine.old (S.state store.old))
        first.now rest.now }
    requires ready { IsReady R.state (B.Saves commit.old)
        (machine_of engine.old (S.state store.old) (B.state commit.old) no_flights) }
    requires took { D.took digest.old (S.state store.old).asked }
    ensures serves { (flights : FlightsToCome) → ServesBatch R.state (B.Saves commit.new) tracing
        (first.now ∷ rest.now) tally
        (K.written out.old) (K.written out.new) (T.written trace.old) (T.written trace.new)
        (faults_of 0 (K.faults out.old) (T.faults trace.old))
        (faults_of 0 (K.faults out.new) (T.faults trace.new))
        (machine_of engine.old (S.state store.old) (B.state commit.old) flights)
        (machine_of engine.new (S.state store.new) (B.state commit.new) flights) result }
    ensures same { B.name commit.new ≡ B.name commit.old }
    ensures took { OnOk result (D.took digest.new (S.state store.new).asked) }
{
    let asked_before = store.count();
    let Ok(mut outcomes) = Vec::from_elem(alloc, Outcome::Inserted, rest.len()) else {
        return Err(TextHalted {
            stop: RunStop::NoMemory,
            quiet: false,
        });
    };
    match run_batch(engine, store, commit, first, rest, outcomes.as_mut_slice()) {
        Ok(outcome) => {
            match write_batch(
                tracing,
                store,
                asked_before,
                outcome,
                outcomes.as_slice(),
                out,
                trace,
                digest,
            ) {
                Ok(()) => {
                    let_go_from(store, asked_before);
                    let plan = None;
                    let counted = tally_with(tally, Answered { outcome, plan });
                    Ok(tally_all(counted, outcomes.as_slice()))
                }
                Err(Failed) => Err(SINK_FAILED),
            }
        }
        Err(stop) => {
            let quiet = trace_from(tracing, store, asked_before, trace, digest).is_err();
            Err(TextHalted { stop, quiet })
        }
    }
}

// Serves SELECTs: one by itself, or several in flight. Tells what was counted then.
fn serve_selects<R: Revisions, S: BlockStore, B: Commit<S>, K: Sink, T: Sink, D: Digester>(
    alloc: Global,
    tracing: bool,
    tally: Tally,
    turns: &mut DrawnTurns,
    stmts: &[Stmt],
    engine: &mut Engine<R>,
    store: &mut S,
    commit: &mut B,
    out: &mut K,
    trace: &mut T,
    digest: &mut D,
) -> Result<Tally, TextHalted>
    requires some { 1 ≤ length stmts.now }
    requires flown { (settings : Option FlightSettings)
        × AreFlown settings (public_of engine.old) stmts.now }
    requires ready { IsReady R.state (B.Saves commit.old)
        (machine_of engine.old (S.state store.old) (B.state commit.old) no_flights) }
    requires took { D.took digest.old (S.state store.old).asked }
    ensures serves { (settings : Option FlightSettings)
        → AreFlown settings (public_of engine.old) stmts.now
        → ServesBatch R.state (B.Saves commit.new) tracing stmts.now tally
        (K.written out.old) (K.written out.new) (T.written trace.old) (T.written trace.new)
        (faults_of 0 (K.faults out.old) (T.faults trace.old))
        (faults_of 0 (K.faults out.new) (T.faults trace.new))
        (machine_of engine.old (S.state store.old) (B.state commit.old)
        (flights_of settings turns.old.last))
        (machine_of engine.new (S.state store.new) (B.state commit.new)
        (flights_of settings turns.new.last)) result }
    ensures same { B.name commit.new ≡ B.name commit.old }
    ensures took { OnOk result (D.took digest.new (S.state store.new).asked) }
{
    if stmts.len() >= 2 {
        return serve_flight(
            alloc, tracing, tally, turns, stmts, engine, store, out, trace, digest,
        );
    }
    serve_stmt(
        alloc, tracing, tally, engine, store, commit, &stmts[0], out, trace, digest,
    )
}

/// Serves those that wait, a batch of INSERTs or SELECTs. Tells what was counted then.
pub(crate) fn serve_waiting<
    R: Revisions,
    S: BlockStore,
    B: Commit<S>,
    K: Sink,
    T: Sink,
    D: Digester,
>(
    alloc: Global,
    tracing: bool,
    tally: Tally,
    turns: &mut DrawnTurns,
    stmts: &[Stmt],
    engine: &mut Engine<R>,
    store: &mut S,
    commit: &mut B,
    out: &mut K,
    trace: &mut T,
    digest: &mut D,
) -> Result<Tally, TextHalted>
    requires waits { (settings : Option FlightSettings) × AreBatched settings
        (public_of engine.old) (count_of engine.old (S.state store.old)) stmts.now }
    requires ready { IsReady R.state (B.Saves commit.old)
        (machine_of engine.old (S.state store.old) (B.state commit.old) no_flights) }
    requires took { D.took digest.old (S.state store.old).asked }
    ensures serves { (settings : Option FlightSettings) → AreBatched settings
        (public_of engine.old) (count_of engine.old (S.state store.old)) stmts.now
        → ServesBatch R.state (B.Saves commit.new) tracing stmts.now tally
        (K.written out.old) (K.written out.new) (T.written trace.old) (T.written trace.new)
        (faults_of 0 (K.faults out.old) (T.faults trace.old))
        (faults_of 0 (K.faults out.new) (T.faults trace.new))
        (machine_of engine.old (S.state store.old) (B.state commit.old)
        (flights_of settings turns.old.last))
        (machine_of engine.new (S.state store.new) (B.state commit.new)
        (flights_of settings turns.new.last)) result }
    ensures idle { OnErr result (stmts.now ≢ []) }
    ensures same { B.name commit.new ≡ B.name commit.old }
    ensures took { OnOk result (D.took digest.new (S.state store.new).asked) }
{
    let Some((first, rest)) = stmts.split_first() else {
        return Ok(tally);
    };
    if is_insert(first) {
        return serve_batch(
            alloc, tracing, tally, first, rest, engine, store, commit, out, trace, digest,
        );
    }
    serve_selects(
        alloc, tracing, tally, turns, stmts, engine, store, commit, out, trace, digest,
    )
}
