//! The texts of an input, each served as soon as it has come, or together with some after it.
ghost use Rattle.std.specs.Prelude.{◌≡◌, ◌≢◌, ◌<◌, ◌≤◌, ◌++◌, List, [], ◌∷◌, true, false, Ok, Err, length, OnOk, OnErr};
ghost use Rattle.ob_base.specs.declared.access.Access.{Access};
ghost use Rattle.ob_gen.specs.Tally.{empty_tally};
ghost use Rattle.ob_headline.specs.Texts.{text_max, rest_after, tail_text, texts_at};
ghost use Rattle.ob_headline.specs.Words.{faults_of};
ghost use Rattle.ob_headline.specs.Statements.{Spells};
ghost use Rattle.ob_mean.specs.Batches.{begins_batch};
ghost use Rattle.ob_shell.specs.Feeding.{IsFedBy};
ghost use Rattle.ob_shell.specs.Running.{IsQuiet, OutFailed, ServesAlone, SessionRan, Silenced, StopCause, halted_of, is_quiet, stop_of};
ghost use Rattle.ob_shell.specs.Flying.{flights_at};
ghost use Rattle.ob_shell.specs.Here.{BatchedHere, GoesHere, WaitsHere};
ghost use Rattle.ob_shell.specs.Serving.{IsNotTaken, ReadsTexts, ServesStmt, WantsRoom, WasTaken, read_end};
ghost use Rattle.ob_shell.specs.Steps.{AnswersText, Flights, HasBody, IsApartFrom, IsReady, machine_of, no_flights};
ghost use Rattle.ob_shell.specs.Tallies;
ghost use Rattle.ob_shell.specs.Traces.{TracedAll, Traced};
ghost use Rattle.ob_sql.specs.Skeleton.{skeleton};
ghost use Rattle.ob_tables.specs.Agreeing.{count_of, public_of};

use crate::batching::{begins, gather_most, goes_along, serve_waiting};
use crate::feed::{Feed, Halt};
use crate::flying::turns_of;
use crate::pending::{Grown, Pending, PushStop};
use crate::trace::{let_go_from, trace_from};
use ob_base::{Failed, Plan, Refusal, Stop};
use ob_exec::{Commit, Engine, Outcome, RunStop, run};
use ob_gen::{Digester, Tally};
use ob_headline::FlightSettings;
use ob_io::{Sink, Source};
use ob_parse::{ParseErr, parse};
use ob_print::{Pieces, Printer, RecordLine, write_all};
use ob_sql::Stmt;
use ob_store::BlockStore;
use ob_turns::{DrawnTurns, closing_line};
use ob_vault::Revisions;
use std::alloc::Global;

/// A stop, and whether nothing more may be written, its line neither, since a sink failed.
#[derive(Clone, Copy, Debug, PartialEq, Eq)]
pub struct Halted {
    pub stop: Stop,
    pub quiet: bool,
}

/// The same of a stop in one text.
#[derive(Clone, Copy, Debug, PartialEq, Eq)]
pub struct TextHalted {
    pub stop: RunStop,
    pub quiet: bool,
}

impl From<TextHalted> for Halted {
    ghost use Rattle.std.specs.Prelude.{◌≡◌};
    ghost use Rattle.ob_shell.specs.Running.{session_halted};

    ghost from_gives = { λ halted h. h ≡ session_halted halted };

    fn from(halted: TextHalted) -> Halted {
        Halted {
            stop: Stop::from(halted.stop),
            quiet: halted.quiet,
        }
    }
}

// The stop by a sink's fault.
pub(crate) const SINK_FAILED: TextHalted = TextHalted {
    stop: RunStop::SinkFault,
    quiet: true,
};

/// How texts are served: whether their accesses are traced, and how SELECTs fly, if they do.
#[derive(Clone, Copy, Debug, PartialEq, Eq)]
pub struct Manner {
    pub tracing: bool,
    pub flight: Option<FlightSettings>,
}

/// What a session knows beside the state of its engine: the text that is read, the statements that wait to be served
/// together, what was counted, and the words of the flights to come.
#[derive(Drop)]
pub struct Session {
    pub pending: Pending,
    pub batch: Vec<Stmt>,
    pub tally: Tally,
    pub turns: DrawnTurns,
}

/// How a text was answered, and the plan that was seen of it.
#[derive(Clone, Copy, Debug, PartialEq, Eq)]
pub struct Answered {
    pub outcome: Outcome,
    pub plan: Option<Plan>,
}

// With one more answer.
pub(crate) fn tally_with(tally: Tally, answered: Answered) -> Tally
    ensures { result ≡ Tallies.tally_with tally answered.outcome answered.plan }
{
    let (refused, rows) = match answered.outcome {
        Outcome::Refused(_) => (true, 0),
        Outcome::Rows(k) => (false, k),
        _ => (false, 0),
    };
    let mut tally = tally;
    tally.add(refused, rows, answered.plan);
    tally
}

// Runs one statement, whose text this is, and prints its header and rows, of which none waits afterwards. Where the sink
// fails after a stop, the stop remains.
fn run_stmt<R: Revisions, S: BlockStore, B: Commit<S>, K: Sink>(
    engine: &mut Engine<R>,
    store: &mut S,
    commit: &mut B,
    stmt: &Stmt,
    printer: &mut Printer<'_, K>,
) -> Result<Answered, TextHalted>
    requires alone { begins_batch (public_of engine.old) (count_of engine.old (S.state store.old))
        stmt.now ≡ false }
    requires ready { IsReady R.state (B.Saves commit.old)
        (machine_of engine.old (S.state store.old) (B.state commit.old) no_flights) }
    requires none { printer.old.out.waiting.items ≡ [] }
    ensures same_sink { printer.new.out.out.ghost_name ≡ printer.old.out.out.ghost_name }
    ensures serves { (flights : Flights) → ServesStmt R.state (B.Saves commit.new)
        (λ gathered. IsApartFrom flights.settings (public_of engine.old) gathered
        (skeleton stmt.now)) stmt.now
        (λ text a. HasBody R.state (K.written printer.old.out.out.now)
        (K.written printer.new.out.out.now) text a.outcome a.plan)
        (K.written printer.old.out.out.now) (K.written printer.new.out.out.now)
        (faults_of 0 (K.faults printer.old.out.out.now) 0)
        (faults_of 0 (K.faults printer.new.out.out.now) 0)
        (machine_of engine.old (S.state store.old) (B.state commit.old) flights)
        (machine_of engine.new (S.state store.new) (B.state commit.new) flights)
        result }
    ensures asked { (seen : List Access) × ((S.state store.new).asked
        ≡ (S.state store.old).asked ++ seen) }
    ensures listed { (S.state store.new).let_go ≡ (S.state store.old).let_go }
    ensures same { B.name commit.new ≡ B.name commit.old }
{
    match run(engine, store, commit, stmt, printer) {
        Ok(outcome) => match printer.out.flush() {
            Ok(()) => Ok(Answered {
                outcome,
                plan: engine.seen().plan,
            }),
            Err(Failed) => Err(SINK_FAILED),
        },
        Err(stop) => match stop {
            RunStop::SinkFault => Err(SINK_FAILED),
            _ => {
                let quiet = printer.out.flush().is_err();
                Err(TextHalted { stop, quiet })
            }
        },
    }
}

// Answers a statement, whose text this is, except for its closing line.
fn run_text<R: Revisions, S: BlockStore, B: Commit<S>, K: Sink>(
    alloc: Global,
    engine: &mut Engine<R>,
    store: &mut S,
    commit: &mut B,
    stmt: &Stmt,
    out: &mut K,
) -> Result<Answered, TextHalted>
    requires alone { begins_batch (public_of engine.old) (count_of engine.old (S.state store.old))
        stmt.now ≡ false }
    requires ready { IsReady R.state (B.Saves commit.old)
        (machine_of engine.old (S.state store.old) (B.state commit.old) no_flights) }
    ensures serves { (flights : Flights) → ServesStmt R.state (B.Saves commit.new)
        (λ gathered. IsApartFrom flights.settings (public_of engine.old) gathered
        (skeleton stmt.now)) stmt.now
        (λ text a. HasBody R.state (K.written out.old) (K.written out.new) text a.outcome a.plan)
        (K.written out.old) (K.written out.new)
        (faults_of 0 (K.faults out.old) 0)
        (faults_of 0 (K.faults out.new) 0)
        (machine_of engine.old (S.state store.old) (B.state commit.old) flights)
        (machine_of engine.new (S.state store.new) (B.state commit.new) flights)
        result }
    ensures asked { (seen : List Access) × ((S.state store.new).asked
        ≡ (S.state store.old).asked ++ seen) }
    ensures listed { (S.state store.new).let_go ≡ (S.state store.old).let_go }
    ensures same { B.name commit.new ≡ B.name commit.old }
{
    let mut line = RecordLine::new(alloc);
    let mut printer = Printer {
        out: Pieces::new(out),
        line: &mut line,
    };
    run_stmt(engine, store, commit, stmt, &mut printer)
}

// Answers a statement whole, with its closing line, and counts it.
fn answer<R: Revisions, S: BlockStore, B: Commit<S>, K: Sink>(
    alloc: Global,
    tally: Tally,
    engine: &mut Engine<R>,
    store: &mut S,
    commit: &mut B,
    stmt: &Stmt,
    out: &mut K,
) -> Result<Tally, TextHalted>
    requires alone { begins_batch (public_of engine.old) (count_of engine.old (S.state store.old))
        stmt.now ≡ false }
    requires ready { IsReady R.state (B.Saves commit.old)
        (machine_of engine.old (S.state store.old) (B.state commit.old) no_flights) }
    ensures serves { (flights : Flights) → ServesStmt R.state (B.Saves commit.new)
        (λ gathered. IsApartFrom flights.settings (public_of engine.old) gathered
        (skeleton stmt.now)) stmt.now
        (AnswersText R.state (K.written out.old) (K.written out.new) tally)
        (K.written out.old) (K.written out.new)
        (faults_of 0 (K.faults out.old) 0)
        (faults_of 0 (K.faults out.new) 0)
        (machine_of engine.old (S.state store.old) (B.state commit.old) flights)
        (machine_of engine.new (S.state store.new) (B.state commit.new) flights)
        result }
    ensures asked { (seen : List Access) × ((S.state store.new).asked
        ≡ (S.state store.old).asked ++ seen) }
    ensures listed { (S.state store.new).let_go ≡ (S.state store.old).let_go }
    ensures same { B.name commit.new ≡ B.name commit.old }
{
    match run_text(alloc, engine, store, commit, stmt, out) {
        Err(halted) => Err(halted),
        Ok(answered) => match write_all(out, closing_line(answered.outcome).as_bytes()) {
            Ok(()) => Ok(tally_with(tally, answered)),
            Err(Failed) => Err(SINK_FAILED),
        },
    }
}

// Answers a statement whole, and then traces what it asked, of which the store lets go. After a sink's fault nothing more is
// written.
pub(crate) fn serve_stmt<R: Revisions, S: BlockStore, B: Commit<S>, K: Sink, T: Sink, D: Digester>(
    alloc: Global,
    tracing: bool,
    tally: Tally,
    engine: &mut Engine<R>,
    store: &mut S,
    commit: &mut B,
    stmt: &Stmt,
    out: &mut K,
    trace: &mut T,
    digest: &mut D,
) -> Result<Tally, TextHalted>
    requires alone { begins_batch (public_of engine.old) (count_of engine.old (S.state store.old))
        stmt.now ≡ false }
    requires ready { IsReady R.state (B.Saves commit.old)
        (machine_of engine.old (S.state store.old) (B.state commit.old) no_flights) }
    requires took { D.took digest.old (S.state store.old).asked }
    ensures serves { (flights : Flights) → ServesStmt R.state (B.Saves commit.new)
        (λ gathered. IsApartFrom flights.settings (public_of engine.old) gathered
        (skeleton stmt.now)) stmt.now
        (AnswersText R.state (K.written out.old) (K.written out.new) tally)
        (K.written out.old) (K.written out.new)
        (faults_of 0 (K.faults out.old) (T.faults trace.old))
        (faults_of 0 (K.faults out.new) (T.faults trace.new))
        (machine_of engine.old (S.state store.old) (B.state commit.old) flights)
        (machine_of engine.new (S.state store.new) (B.state commit.new) flights)
        result }
    ensures traced { OnOk result (TracedAll tracing (S.state store.old).asked
        (S.state store.new).asked (T.written trace.old) (T.written trace.new)) }
    ensures traced_stop { OnErr result (Traced tracing (S.state store.old).asked
        (S.state store.new).asked (T.written trace.old) (T.written trace.new)
        (IsQuiet (halted_of result))) }
    ensures same { B.name commit.new ≡ B.name commit.old }
    ensures took { OnOk result (D.took digest.new (S.state store.new).asked) }
{
    let asked_before = store.count();
    match answer(alloc, tally, engine, store, commit, stmt, out) {
        Ok(counted) => match trace_from(tracing, store, asked_before, trace, digest) {
            Ok(()) => {
                let_go_from(store, asked_before);
                Ok(counted)
            }
            Err(Failed) => Err(SINK_FAILED),
        },
        Err(TextHalted { stop, quiet: true }) => Err(TextHalted { stop, quiet: true }),
        Err(TextHalted { stop, quiet: false }) => {
            let quiet = trace_from(tracing, store, asked_before, trace, digest).is_err();
            Err(TextHalted { stop, quiet })
        }
    }
}

/// What contracts see of what serves texts.
pub trait Stands {
    type Revs: Revisions;

    ghost use Rattle.std.specs.Prelude.{ℕ, List, Option, Result};
    ghost use Rattle.ob_base.specs.declared.refusal.Stop.{Stop};
    ghost use Rattle.ob_shell.specs.Here.{Here};
    ghost use Rattle.ob_shell.specs.declared.session.Manner.{Manner};
    ghost use Rattle.ob_shell.specs.declared.session.Session.{Session};
    ghost use Rattle.ob_shell.specs.declared.session.TextHalted.{TextHalted};
    ghost use Rattle.ob_sql.specs.declared.stmt.Stmt.{Stmt};

    /// What it and a session have come to.
    ghost here: { Manner → Self → Session → Here Self.Revs };

    /// It may be given the next text.
    ghost Ready: { Manner → Self → Session → Type 0 };

    /// It took these texts, where the first of these statements goes into nothing that is gathered, or left them unread for one
    /// of these causes; or a stop came in one that was served.
    ghost Takes: { Manner → Self → Session → Self → Session → List Stmt → List (List ℕ)
        → (Stop → Type 0) → Result (Option Stop) TextHalted → Type 0 };

    /// It served those that waited, or a stop came.
    ghost Flushes: { Manner → Self → Session → Self → Session → Result (Unit {0}) TextHalted
        → Type 0 };

    /// It refers to the same, whatever that has come to.
    ghost Keeps: { Self → Self → Type 0 };
}

/// What texts are served over: an engine and its store, what commits a statement, and where answers, traces and digests go.
#[derive(Drop)]
pub struct Server<'a, R: Revisions, S: BlockStore, B: Commit<S>, K: Sink, T: Sink, D: Digester> {
    pub alloc: Global,
    pub engine: &'a mut Engine<R>,
    pub store: &'a mut S,
    pub commit: &'a mut B,
    pub out: &'a mut K,
    pub trace: &'a mut T,
    pub digest: &'a mut D,
}

impl<'a, R: Revisions, S: BlockStore, B: Commit<S>, K: Sink, T: Sink, D: Digester> Stands
    for Server<'a, R, S, B, K, T, D> {
    type Revs = R;

    ghost use Rattle.ob_shell.specs.Here.{FlushesHere, IsReadyHere, TakesHere};
    ghost use Rattle.ob_shell.specs.Servers.{KeepsServer, here_of};

    ghost here = { here_of S.state B.state K.written K.faults T.written T.faults };

    ghost Ready = { λ manner s session. IsReadyHere R.state (B.Saves s.commit.now)
        (D.took s.digest.now)
        (here_of S.state B.state K.written K.faults T.written T.faults manner s session) };

    ghost Takes = { λ manner s session t next firsts texts Why result. TakesHere R.state
        (B.Saves t.commit.now) manner.tracing firsts texts Why
        (here_of S.state B.state K.written K.faults T.written T.faults manner s session)
        (here_of S.state B.state K.written K.faults T.written T.faults manner t next) result };

    ghost Flushes = { λ manner s session t next result. FlushesHere R.state
        (B.Saves t.commit.now) manner.tracing
        (here_of S.state B.state K.written K.faults T.written T.faults manner s session)
        (here_of S.state B.state K.written K.faults T.written T.faults manner t next) result };

    ghost Keeps = { KeepsServer B.name };
}

impl<'a, R: Revisions, S: BlockStore, B: Commit<S>, K: Sink, T: Sink, D: Digester> Server<
    'a,
    R,
    S,
    B,
    K,
    T,
    D,
> {
    fn new(
        alloc: Global,
        engine: &'a mut Engine<R>,
        store: &'a mut S,
        commit: &'a mut B,
        out: &'a mut K,
        trace: &'a mut T,
        digest: &'a mut D,
    ) -> Server<'a, R, S, B, K, T, D>
        ensures { result ≡ record {
          alloc = alloc;
          engine = engine.entry;
          store = store.entry;
          commit = commit.entry;
          out = out.entry;
          trace = trace.entry;
          digest = digest.entry;
        } }
    {
        Server {
            alloc,
            engine,
            store,
            commit,
            out,
            trace,
            digest,
        }
    }

    // Serves those that wait, if there are any.
    fn flush(&mut self, manner: Manner, session: &mut Session) -> Result<(), TextHalted>
        requires waits { BatchedHere (⟦<Self as Stands>⟧.here manner self.old session.old) }
        requires ready { ⟦<Self as Stands>⟧.Ready manner self.old session.old }
        ensures keeps { ⟦<Self as Stands>⟧.Keeps self.old self.new }
        ensures pending { session.new.pending ≡ session.old.pending }
        ensures none { OnOk result (session.new.batch.items ≡ []) }
        ensures idle { OnErr result (session.old.batch.items ≢ []) }
        ensures flushes { ⟦<Self as Stands>⟧.Flushes manner self.old session.old
            self.new session.new result }
        ensures ready { OnOk result (⟦<Self as Stands>⟧.Ready manner self.new session.new) }
    {
        match serve_waiting(
            self.alloc,
            manner.tracing,
            session.tally,
            &mut session.turns,
            session.batch.as_slice(),
            self.engine,
            self.store,
            self.commit,
            self.out,
            self.trace,
            self.digest,
        ) {
            Ok(tally) => {
                session.tally = tally;
                session.batch.clear();
                Ok(())
            }
            Err(halted) => Err(halted),
        }
    }

    // Gives one more statement to those that wait, and serves them once they are as many as are served together. Answers with
    // the stop for which it is left unread, if it is, as all that take something do.
    fn gather(
        &mut self,
        manner: Manner,
        session: &mut Session,
        stmt: Stmt,
    ) -> Result<Option<Stop>, TextHalted>
        requires spells { Spells session.old.pending (Ok stmt) }
        requires goes { GoesHere (⟦<Self as Stands>⟧.here manner self.old session.old) stmt }
        requires ready { ⟦<Self as Stands>⟧.Ready manner self.old session.old }
        ensures keeps { ⟦<Self as Stands>⟧.Keeps self.old self.new }
        ensures pending { session.new.pending ≡ session.old.pending }
        ensures takes { ⟦<Self as Stands>⟧.Takes manner self.old session.old self.new session.new
            (session.old.batch.items ++ stmt ∷ []) (session.old.pending ∷ []) WantsRoom result }
        ensures ready { OnOk result (⟦<Self as Stands>⟧.Ready manner self.new session.new) }
    {
        let most = gather_most(manner.flight, self.engine.public(), &stmt);
        if session.batch.push(stmt).is_err() {
            return Ok(Some(Stop::NoMemory));
        }
        if (session.batch.len() as u64) < most {
            return Ok(None);
        }
        match self.flush(manner, session) {
            Ok(()) => Ok(None),
            Err(halted) => Err(halted),
        }
    }

    // Serves a statement before which none waits, or lets it wait for the next ones.
    fn begin(
        &mut self,
        manner: Manner,
        session: &mut Session,
        stmt: Stmt,
    ) -> Result<Option<Stop>, TextHalted>
        requires spells { Spells session.old.pending (Ok stmt) }
        requires none { session.old.batch.items ≡ [] }
        requires ready { ⟦<Self as Stands>⟧.Ready manner self.old session.old }
        ensures keeps { ⟦<Self as Stands>⟧.Keeps self.old self.new }
        ensures pending { session.new.pending ≡ session.old.pending }
        ensures takes { ⟦<Self as Stands>⟧.Takes manner self.old session.old self.new session.new
            (stmt ∷ []) (session.old.pending ∷ []) WantsRoom result }
        ensures ready { OnOk result (⟦<Self as Stands>⟧.Ready manner self.new session.new) }
    {
        if begins(manner.flight, self.engine, self.store, &stmt) {
            return self.gather(manner, session, stmt);
        }
        match serve_stmt(
            self.alloc,
            manner.tracing,
            session.tally,
            self.engine,
            self.store,
            self.commit,
            &stmt,
            self.out,
            self.trace,
            self.digest,
        ) {
            Ok(tally) => {
                session.tally = tally;
                Ok(None)
            }
            Err(halted) => Err(halted),
        }
    }

    // Takes a statement: it goes into the batch of those that wait, or they are served before it.
    fn take_stmt(
        &mut self,
        manner: Manner,
        session: &mut Session,
        stmt: Stmt,
    ) -> Result<Option<Stop>, TextHalted>
        requires spells { Spells session.old.pending (Ok stmt) }
        requires waits { WaitsHere (⟦<Self as Stands>⟧.here manner self.old session.old) }
        requires ready { ⟦<Self as Stands>⟧.Ready manner self.old session.old }
        ensures keeps { ⟦<Self as Stands>⟧.Keeps self.old self.new }
        ensures pending { session.new.pending ≡ session.old.pending }
        ensures takes { ⟦<Self as Stands>⟧.Takes manner self.old session.old self.new session.new
            session.old.batch.items (session.old.pending ∷ []) WantsRoom result }
        ensures ready { OnOk result (⟦<Self as Stands>⟧.Ready manner self.new session.new) }
    {
        if goes_along(self.engine.public(), session.batch.as_slice(), &stmt) {
            return self.gather(manner, session, stmt);
        }
        match self.flush(manner, session) {
            Ok(()) => self.begin(manner, session, stmt),
            Err(halted) => Err(halted),
        }
    }

    // Answers a text that is no statement, after those that wait.
    fn take_misspelt(
        &mut self,
        manner: Manner,
        session: &mut Session,
        at: u32,
    ) -> Result<Option<Stop>, TextHalted>
        requires spells { Spells session.old.pending (Err at) }
        requires waits { WaitsHere (⟦<Self as Stands>⟧.here manner self.old session.old) }
        requires ready { ⟦<Self as Stands>⟧.Ready manner self.old session.old }
        ensures keeps { ⟦<Self as Stands>⟧.Keeps self.old self.new }
        ensures pending { session.new.pending ≡ session.old.pending }
        ensures takes { ⟦<Self as Stands>⟧.Takes manner self.old session.old self.new session.new
            session.old.batch.items (session.old.pending ∷ []) WantsRoom result }
        ensures ready { OnOk result (⟦<Self as Stands>⟧.Ready manner self.new session.new) }
    {
        if let Err(halted) = self.flush(manner, session) {
            return Err(halted);
        }
        let answered = Answered {
            outcome: Outcome::Refused(Refusal::Syntax(at)),
            plan: None,
        };
        match write_all(self.out, closing_line(answered.outcome).as_bytes()) {
            Ok(()) => {
                session.tally = tally_with(session.tally, answered);
                Ok(None)
            }
            Err(Failed) => Err(SINK_FAILED),
        }
    }

    // Takes a text that is whole, which stays where it was read.
    fn take_text(
        &mut self,
        manner: Manner,
        session: &mut Session,
    ) -> Result<Option<Stop>, TextHalted>
        requires short { length session.old.pending ≤ text_max }
        requires waits { WaitsHere (⟦<Self as Stands>⟧.here manner self.old session.old) }
        requires ready { ⟦<Self as Stands>⟧.Ready manner self.old session.old }
        ensures keeps { ⟦<Self as Stands>⟧.Keeps self.old self.new }
        ensures pending { session.new.pending ≡ session.old.pending }
        ensures takes { ⟦<Self as Stands>⟧.Takes manner self.old session.old self.new session.new
            session.old.batch.items (session.old.pending ∷ []) WantsRoom result }
        ensures ready { OnOk result (⟦<Self as Stands>⟧.Ready manner self.new session.new) }
    {
        match parse(self.alloc, session.pending.text()) {
            Ok(stmt) => self.take_stmt(manner, session, stmt),
            Err(error) => match error {
                ParseErr::Syntax(at) => self.take_misspelt(manner, session, at),
                ParseErr::NoMemory => Ok(Some(Stop::NoMemory)),
            },
        }
    }

    // Takes one byte, and the text that it ends.
    fn take_byte(
        &mut self,
        manner: Manner,
        session: &mut Session,
        b: u8,
    ) -> Result<Option<Stop>, TextHalted>
        requires short { length session.old.pending < text_max }
        requires waits { WaitsHere (⟦<Self as Stands>⟧.here manner self.old session.old) }
        requires ready { ⟦<Self as Stands>⟧.Ready manner self.old session.old }
        ensures keeps { ⟦<Self as Stands>⟧.Keeps self.old self.new }
        ensures pending { WasTaken result → (session.new.pending ≡ rest_after session.old.pending b)
            × (length session.new.pending < text_max) }
        ensures takes { ⟦<Self as Stands>⟧.Takes manner self.old session.old self.new session.new
            session.old.batch.items (texts_at session.old.pending b)
            (IsNotTaken session.old.pending b) result }
        ensures ready { OnOk result (⟦<Self as Stands>⟧.Ready manner self.new session.new) }
    {
        match session.pending.push(b) {
            Ok(Grown::More) => Ok(None),
            Ok(Grown::Whole) => match self.take_text(manner, session) {
                Ok(None) => {
                    session.pending.clear();
                    Ok(None)
                }
                Ok(Some(stop)) => Ok(Some(stop)),
                Err(halted) => Err(halted),
            },
            Err(PushStop::NoMemory) => Ok(Some(Stop::NoMemory)),
            Err(PushStop::InputLimit) => Ok(Some(Stop::InputLimit)),
        }
    }

    // Takes what has come of a text with no end, once no more comes.
    fn finish(&mut self, manner: Manner, session: &mut Session) -> Result<Option<Stop>, TextHalted>
        requires short { length session.old.pending ≤ text_max }
        requires waits { WaitsHere (⟦<Self as Stands>⟧.here manner self.old session.old) }
        requires ready { ⟦<Self as Stands>⟧.Ready manner self.old session.old }
        ensures keeps { ⟦<Self as Stands>⟧.Keeps self.old self.new }
        ensures takes { ⟦<Self as Stands>⟧.Takes manner self.old session.old self.new session.new
            session.old.batch.items (tail_text session.old.pending) WantsRoom result }
        ensures ready { OnOk result (⟦<Self as Stands>⟧.Ready manner self.new session.new) }
    {
        if !session.pending.has_words() {
            return Ok(None);
        }
        self.take_text(manner, session)
    }

    // Reads a feed to its end, or to a stop for which what comes next is left unread, and serves the texts that it brings, but
    // for those that wait then.
    fn read_texts<I: Source>(
        &mut self,
        manner: Manner,
        session: &mut Session,
        feed: &mut Feed,
        input: &mut I,
    ) -> Result<Option<Stop>, TextHalted>
        requires none { session.old.batch.items ≡ [] }
        requires fresh { session.old.pending ≡ [] }
        requires uncounted { session.old.tally ≡ empty_tally }
        requires ready { ⟦<Self as Stands>⟧.Ready manner self.old session.old }
        requires fed_by { IsFedBy feed.old (I.gave input.old) }
        ensures keeps { ⟦<Self as Stands>⟧.Keeps self.old self.new }
        ensures reads { ReadsTexts R.state manner.tracing feed.old feed.new
            (I.left input.old) (I.left input.new) (I.gave input.new)
            (K.written self.old.out.now) (K.written self.new.out.now)
            (T.written self.old.trace.now) (T.written self.new.trace.now)
            session.new.batch.items session.new.tally
            (⟦<Self as Stands>⟧.here manner self.old session.old).machine
            (⟦<Self as Stands>⟧.here manner self.new session.new).machine
            (K.faults self.old.out.now) (K.faults self.new.out.now) result }
        ensures waits { OnOk result
            (WaitsHere (⟦<Self as Stands>⟧.here manner self.new session.new)) }
        ensures ready { OnOk result (⟦<Self as Stands>⟧.Ready manner self.new session.new) }
        ensures within { feed.new.taken ≤ feed.new.limit }
        ensures fed_by { IsFedBy feed.new (I.gave input.new) }
        ensures traced { Traced manner.tracing (S.state self.old.store.now).asked
            (S.state self.new.store.now).asked (T.written self.old.trace.now)
            (T.written self.new.trace.now) (IsQuiet (read_end result)) }
        ensures cause { StopCause (ServesAlone manner.flight (public_of self.old.engine.now))
            (faults_of (I.faults input.old) (K.faults self.old.out.now)
            (T.faults self.old.trace.now))
            (faults_of (I.faults input.new) (K.faults self.new.out.now)
            (T.faults self.new.trace.now))
            (stop_of (read_end result)) }
        ensures quiet { Silenced (is_quiet (read_end result))
            (faults_of (I.faults input.old) (K.faults self.old.out.now)
            (T.faults self.old.trace.now))
            (faults_of (I.faults input.new) (K.faults self.new.out.now)
            (T.faults self.new.trace.now)) }
    {
        'bytes: loop {
            match feed.next(input) {
                Err(Halt::SourceFault) => return Ok(Some(Stop::SourceFault)),
                Err(Halt::InputLimit) => return Ok(Some(Stop::InputLimit)),
                Ok(None) => return self.finish(manner, session),
                Ok(Some(b)) => match self.take_byte(manner, session, b) {
                    Ok(None) => {}
                    Ok(Some(stop)) => return Ok(Some(stop)),
                    Err(halted) => return Err(halted),
                },
            }
        }
    }

    // Serves the texts that a feed brings, to its end or a stop, and then those that wait. Tells what was counted of them.
    fn serve_feed<I: Source>(
        &mut self,
        manner: Manner,
        session: &mut Session,
        feed: &mut Feed,
        input: &mut I,
    ) -> Result<Tally, Halted>
        requires none { session.old.batch.items ≡ [] }
        requires fresh { session.old.pending ≡ [] }
        requires uncounted { session.old.tally ≡ empty_tally }
        requires ready { ⟦<Self as Stands>⟧.Ready manner self.old session.old }
        requires fed_by { IsFedBy feed.old (I.gave input.old) }
        ensures keeps { ⟦<Self as Stands>⟧.Keeps self.old self.new }
        ensures ready { OnOk result (⟦<Self as Stands>⟧.Ready manner self.new session.new) }
        ensures ran { SessionRan R.state manner.tracing feed.old feed.new
            (I.left input.old) (I.left input.new) (I.gave input.new)
            (K.written self.old.out.now) (K.written self.new.out.now)
            (T.written self.old.trace.now) (T.written self.new.trace.now)
            (⟦<Self as Stands>⟧.here manner self.old session.old).machine
            (⟦<Self as Stands>⟧.here manner self.new session.new).machine
            (OutFailed (is_quiet result) (K.faults self.old.out.now) (K.faults self.new.out.now))
            (stop_of result) }
        ensures within { feed.new.taken ≤ feed.new.limit }
        ensures fed_by { IsFedBy feed.new (I.gave input.new) }
        ensures traced { Traced manner.tracing (S.state self.old.store.now).asked
            (S.state self.new.store.now).asked (T.written self.old.trace.now)
            (T.written self.new.trace.now) (IsQuiet result) }
        ensures cause { StopCause (ServesAlone manner.flight (public_of self.old.engine.now))
            (faults_of (I.faults input.old) (K.faults self.old.out.now)
            (T.faults self.old.trace.now))
            (faults_of (I.faults input.new) (K.faults self.new.out.now)
            (T.faults self.new.trace.now))
            (stop_of result) }
        ensures quiet { Silenced (is_quiet result)
            (faults_of (I.faults input.old) (K.faults self.old.out.now)
            (T.faults self.old.trace.now))
            (faults_of (I.faults input.new) (K.faults self.new.out.now)
            (T.faults self.new.trace.now)) }
    {
        match self.read_texts(manner, session, feed, input) {
            Ok(left) => match self.flush(manner, session) {
                Ok(()) => match left {
                    None => Ok(session.tally),
                    Some(stop) => Err(Halted { stop, quiet: false }),
                },
                Err(halted) => Err(Halted::from(halted)),
            },
            Err(halted) => Err(Halted::from(halted)),
        }
    }
}

/// Serves the texts that a feed brings, to its end or a stop, with what commits each statement, and then those that wait.
/// Tells what was counted of them.
pub fn serve<I: Source, R: Revisions, S: BlockStore, B: Commit<S>, K: Sink, T: Sink, D: Digester>(
    alloc: Global,
    tracing: bool,
    flight: Option<FlightSettings>,
    feed: &mut Feed,
    input: &mut I,
    engine: &mut Engine<R>,
    store: &mut S,
    commit: &mut B,
    out: &mut K,
    trace: &mut T,
    digest: &mut D,
) -> Result<Tally, Halted>
    requires ready { IsReady R.state (B.Saves commit.old)
        (machine_of engine.old (S.state store.old) (B.state commit.old) no_flights) }
    requires fed_by { IsFedBy feed.old (I.gave input.old) }
    requires took { D.took digest.old (S.state store.old).asked }
    ensures ready { OnOk result (IsReady R.state (B.Saves commit.new)
        (machine_of engine.new (S.state store.new) (B.state commit.new) no_flights)) }
    ensures ran { (left : Flights) × SessionRan R.state tracing feed.old feed.new
        (I.left input.old) (I.left input.new) (I.gave input.new)
        (K.written out.old) (K.written out.new) (T.written trace.old) (T.written trace.new)
        (machine_of engine.old (S.state store.old) (B.state commit.old)
        (flights_at flight))
        (machine_of engine.new (S.state store.new) (B.state commit.new) left)
        (OutFailed (is_quiet result) (K.faults out.old) (K.faults out.new)) (stop_of result) }
    ensures within { feed.new.taken ≤ feed.new.limit }
    ensures fed_by { IsFedBy feed.new (I.gave input.new) }
    ensures traced { Traced tracing (S.state store.old).asked (S.state store.new).asked
        (T.written trace.old) (T.written trace.new) (IsQuiet result) }
    ensures cause { StopCause (ServesAlone flight (public_of engine.old))
        (faults_of (I.faults input.old) (K.faults out.old) (T.faults trace.old))
        (faults_of (I.faults input.new) (K.faults out.new) (T.faults trace.new)) (stop_of result) }
    ensures quiet { Silenced (is_quiet result)
        (faults_of (I.faults input.old) (K.faults out.old) (T.faults trace.old))
        (faults_of (I.faults input.new) (K.faults out.new) (T.faults trace.new)) }
    ensures same { B.name commit.new ≡ B.name commit.old }
    ensures took { OnOk result (D.took digest.new (S.state store.new).asked) }
{
    let manner = Manner { tracing, flight };
    let mut session = Session {
        pending: Pending::new(alloc),
        batch: Vec::new(alloc),
        tally: Tally::new(),
        turns: turns_of(flight),
    };
    let mut server = Server::new(alloc, engine, store, commit, out, trace, digest);
    server.serve_feed(manner, &mut session, feed, input)
}
