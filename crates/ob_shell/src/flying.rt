//! SELECTs that wait to be served in flight.
ghost use Rattle.std.specs.Prelude.{◌≡◌, ◌++◌, [], length, List, OnErr, OnOk, false};
ghost use Rattle.ob_base.specs.declared.access.Access.{Access};
ghost use Rattle.ob_exec.specs.InFlight.{AreFlight};
ghost use Rattle.ob_headline.specs.Flights;
ghost use Rattle.ob_headline.specs.Words.{faults_of};
ghost use Rattle.ob_script.specs.Flights.{drawn};
ghost use Rattle.ob_shell.specs.Flying.{RunsFlight, start_of};
ghost use Rattle.ob_shell.specs.Running.{IsQuiet, halted_of};
ghost use Rattle.ob_shell.specs.Tallies.{tally_seen};
ghost use Rattle.ob_shell.specs.Traces.{Traced, TracedAll};
ghost use Rattle.ob_shell.specs.Waiting;
ghost use Rattle.ob_sql.specs.Skeleton.{skeleton};
ghost use Rattle.ob_tables.specs.Agreeing.{Agrees, count_of, has_ended, public_of};

use crate::session::{Answered, SINK_FAILED, TextHalted, tally_with};
use crate::trace::{let_go_from, trace_from};
use ob_base::{End, Failed, Public, Seen, Source};
use ob_exec::{Engine, Outcome, RunStop, run_flight};
use ob_gen::{Digester, Tally};
use ob_headline::FlightSettings;
use ob_io::Sink;
use ob_mean::is_index;
use ob_print::{Pieces, Printer, RecordLine};
use ob_sql::Stmt;
use ob_store::BlockStore;
use ob_tables::seen_to_end;
use ob_turns::{DrawnTurns, FlightPrinter};
use ob_vault::Revisions;
use std::alloc::Global;

/// How many SELECTs are in flight at once, at most: one where none are to fly.
pub(crate) fn most_flown(flight: Option<FlightSettings>, public: &Public) -> u64
    ensures { result ≡ Flights.most_flown flight public.now }
{
    match flight {
        None => 1,
        Some(flight) => {
            let parts = public.buffer / (3 * u32::from(public.pack) + 1);
            u64::from(flight.most.min(8.min(parts)).max(1))
        }
    }
}

/// The words of the flights to come.
pub(crate) fn turns_of(flight: Option<FlightSettings>) -> DrawnTurns
    ensures { result.last ≡ start_of flight }
{
    match flight {
        None => DrawnTurns { last: 0 },
        Some(flight) => DrawnTurns { last: flight.start },
    }
}

/// Whether a statement may be in flight: a SELECT without a join, of a table that is no index.
pub(crate) fn may_fly(public: &Public, stmt: &Stmt) -> bool
    ensures { result ≡ Flights.may_fly public.now (skeleton stmt.now) }
{
    match stmt {
        Stmt::SelectRows(select) => match &select.source {
            Source::Table(table) => !is_index(public.tables.as_slice(), table),
            Source::Join { .. } => false,
        },
        Stmt::SelectTotals(select) => !is_index(public.tables.as_slice(), &select.table),
        Stmt::Create { .. }
        | Stmt::Insert { .. }
        | Stmt::Update { .. }
        | Stmt::Delete { .. }
        | Stmt::Drop { .. } => false,
    }
}

/// Whether a statement before which none waits is to wait for others to fly with it.
pub(crate) fn begins_flight(flight: Option<FlightSettings>, public: &Public, stmt: &Stmt) -> bool
    ensures { result ≡ Waiting.begins_flight flight public.now (skeleton stmt.now) }
{
    most_flown(flight, public) >= 2 && may_fly(public, stmt)
}

// With the answers of all of these, of each of which this was seen.
#[tactic(auto, unfolding(crate::specs::Tallies::tally_seen))]
fn tally_flown(tally: Tally, outcomes: &[Outcome], seens: &[Seen]) -> Tally
    ensures { result ≡ tally_seen tally outcomes.now seens.now }
{
    match outcomes.split_first() {
        None => tally,
        Some((outcome, more)) => match seens.split_first() {
            None => tally,
            Some((seen, later)) => {
                let (outcome, plan) = (*outcome, seen.plan);
                tally_flown(tally_with(tally, Answered { outcome, plan }), more, later)
            }
        },
    }
}

// Has statements fly, prints their answers, of which none waits afterwards, and counts them. Where the sink fails after a
// stop, the stop remains.
fn fly_stmts<R: Revisions, S: BlockStore, K: Sink>(
    tally: Tally,
    engine: &mut Engine<R>,
    store: &mut S,
    stmts: &[Stmt],
    turns: &mut DrawnTurns,
    printer: &mut FlightPrinter<'_, K>,
    seens: &mut [Seen],
) -> Result<Tally, TextHalted>
    requires agrees { Agrees R.state engine.old (S.state store.old) }
    requires lives { has_ended engine.old ≡ false }
    requires flight { AreFlight (public_of engine.old)
        (count_of engine.old (S.state store.old)) stmts.now }
    requires each { length seens.old ≡ length stmts.now }
    requires kept { length printer.old.outcomes.now ≡ length stmts.now }
    requires none { printer.old.printer.out.waiting.items ≡ [] }
    ensures same_sink { printer.new.printer.out.out.ghost_name
        ≡ printer.old.printer.out.out.ghost_name }
    ensures runs { RunsFlight R.state (drawn turns.old.last) (drawn turns.new.last) stmts.now tally
        (K.written printer.old.printer.out.out.now) (K.written printer.new.printer.out.out.now)
        (faults_of 0 (K.faults printer.old.printer.out.out.now) 0)
        (faults_of 0 (K.faults printer.new.printer.out.out.now) 0)
        engine.old (S.state store.old) engine.new (S.state store.new) result }
    ensures asked { (seen : List Access) × ((S.state store.new).asked
        ≡ (S.state store.old).asked ++ seen) }
    ensures listed { (S.state store.new).let_go ≡ (S.state store.old).let_go }
{
    match run_flight(engine, store, stmts, turns, printer, seens) {
        Ok(()) => match printer.printer.out.flush() {
            Ok(()) => Ok(tally_flown(tally, printer.outcomes, seens)),
            Err(Failed) => Err(SINK_FAILED),
        },
        Err(stop) => match stop {
            RunStop::SinkFault => Err(SINK_FAILED),
            _ => {
                let quiet = printer.printer.out.flush().is_err();
                Err(TextHalted { stop, quiet })
            }
        },
    }
}

// Answers statements that fly, and counts them.
fn answer_flight<R: Revisions, S: BlockStore, K: Sink>(
    alloc: Global,
    tally: Tally,
    turns: &mut DrawnTurns,
    stmts: &[Stmt],
    engine: &mut Engine<R>,
    store: &mut S,
    out: &mut K,
) -> Result<Tally, TextHalted>
    requires agrees { Agrees R.state engine.old (S.state store.old) }
    requires lives { has_ended engine.old ≡ false }
    requires flight { AreFlight (public_of engine.old)
        (count_of engine.old (S.state store.old)) stmts.now }
    ensures runs { RunsFlight R.state (drawn turns.old.last) (drawn turns.new.last) stmts.now tally
        (K.written out.old) (K.written out.new)
        (faults_of 0 (K.faults out.old) 0) (faults_of 0 (K.faults out.new) 0)
        engine.old (S.state store.old) engine.new (S.state store.new) result }
    ensures asked { (seen : List Access) × ((S.state store.new).asked
        ≡ (S.state store.old).asked ++ seen) }
    ensures listed { (S.state store.new).let_go ≡ (S.state store.old).let_go }
{
    let Ok(mut seens) = Vec::from_elem(alloc, seen_to_end(End::Whole), stmts.len()) else {
        return Err(TextHalted {
            stop: RunStop::NoMemory,
            quiet: false,
        });
    };
    let Ok(mut outcomes) = Vec::from_elem(alloc, Outcome::Inserted, stmts.len()) else {
        return Err(TextHalted {
            stop: RunStop::NoMemory,
            quiet: false,
        });
    };
    let mut line = RecordLine::new(alloc);
    let mut printer = FlightPrinter {
        printer: Printer {
            out: Pieces::new(out),
            line: &mut line,
        },
        outcomes: outcomes.as_mut_slice(),
    };
    fly_stmts(
        tally,
        engine,
        store,
        stmts,
        turns,
        &mut printer,
        seens.as_mut_slice(),
    )
}

/// Has statements fly: answers them all, and then traces what they asked, of which the store lets go. After a sink's fault
/// nothing more is written.
pub(crate) fn serve_flight<R: Revisions, S: BlockStore, K: Sink, T: Sink, D: Digester>(
    alloc: Global,
    tracing: bool,
    tally: Tally,
    turns: &mut DrawnTurns,
    stmts: &[Stmt],
    engine: &mut Engine<R>,
    store: &mut S,
    out: &mut K,
    trace: &mut T,
    digest: &mut D,
) -> Result<Tally, TextHalted>
    requires agrees { Agrees R.state engine.old (S.state store.old) }
    requires lives { has_ended engine.old ≡ false }
    requires flight { AreFlight (public_of engine.old)
        (count_of engine.old (S.state store.old)) stmts.now }
    requires took { D.took digest.old (S.state store.old).asked }
    ensures runs { RunsFlight R.state (drawn turns.old.last) (drawn turns.new.last) stmts.now tally
        (K.written out.old) (K.written out.new)
        (faults_of 0 (K.faults out.old) (T.faults trace.old))
        (faults_of 0 (K.faults out.new) (T.faults trace.new))
        engine.old (S.state store.old) engine.new (S.state store.new) result }
    ensures traced { OnOk result (TracedAll tracing (S.state store.old).asked
        (S.state store.new).asked (T.written trace.old) (T.written trace.new)) }
    ensures traced_stop { OnErr result (Traced tracing (S.state store.old).asked
        (S.state store.new).asked (T.written trace.old) (T.written trace.new)
        (IsQuiet (halted_of result))) }
    ensures took { OnOk result (D.took digest.new (S.state store.new).asked) }
{
    let asked_before = store.count();
    match answer_flight(alloc, tally, turns, stmts, engine, store, out) {
        Ok(counted) => match trace_from(tracing, store, asked_before, trace, digest) {
            Ok(()) => {
                let_go_from(store, asked_before);
                Ok(counted)
            }
            Err(Failed) => Err(SINK_FAILED),
        },
        Err(TextHalted { stop, quiet: true }) => Err(TextHalted { stop, quiet: true }),
        Err(TextHalted { stop, quiet: false }) => {
            let quiet = trace_from(tracing, store, asked_before, trace, digest).is_err();
            Err(TextHalted { stop, quiet })
        }
    }
}
