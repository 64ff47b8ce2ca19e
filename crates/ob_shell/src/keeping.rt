//! Runs whose tables are kept for the next one.
ghost use Rattle.std.specs.Prelude.{◌≡◌, ◌≤◌, ◌<◌, ◌+◌, ◌^◌, ℕ, Bool, List, [], Err, IfErr, IfOk, Ok, Some, false, map, string_bytes, true};
ghost use Rattle.ob_base.specs.declared.config.Config.{Config};
ghost use Rattle.ob_base.specs.Stored.{headings_of};
ghost use Rattle.ob_tables.specs.Agreeing.{count_of, high_of, public_of};
ghost use Rattle.ob_gen.specs.Tally.{empty_tally};
ghost use Rattle.ob_headline.specs.Bases.{Base, flying};
ghost use Rattle.ob_headline.specs.Keeping;
ghost use Rattle.ob_headline.specs.Settings.{IsTaken, flight_of, settings_of};
ghost use Rattle.ob_headline.specs.Usage.{is_kept, is_traced, kept_usage};
ghost use Rattle.ob_headline.specs.Words.{faults_of, outside_of};
ghost use Rattle.ob_mean.specs.Flats.{AreFlat};
ghost use Rattle.ob_seal.specs.Sealed.{keys_of};
ghost use Rattle.ob_shell.specs.Closed.{LineWritten, Untouched, Unwritten};
ghost use Rattle.ob_shell.specs.Engaging.{ClosesRun, EndsUnserved, Engages, FindsEngine};
ghost use Rattle.ob_shell.specs.Engaging.{KeptConcludedBy, KeptGenerated, RanKept, ServesRun, StartsRun};
ghost use Rattle.ob_shell.specs.Feeding.{IsFedBy};
ghost use Rattle.ob_shell.specs.Generating.{asked_for};
ghost use Rattle.ob_shell.specs.KeptSummary.{MayKeep};
ghost use Rattle.ob_shell.specs.Steps.{IsReady, machine_of, no_flights, told_nothing};
ghost use Rattle.ob_words.specs.WordsRead.{AreWithin};

use crate::feed::{Feed, Halt};
use crate::generating::{serve_generated, sum_up};
use crate::key::{FirstLine, read_key};
use crate::session::serve;
use crate::top::{Ended, ended_with, last_line, refuse_words, serve_over, status_of};
use crate::trace::trace_from;
use ob_base::{Config, Stop};
use ob_exec::{CloseErr, Engine, NoCommit, OpenErr};
use ob_gen::{Digester, Discard, Generated, Tally, TraceDigest, Undigested};
use ob_headline::{Ending, FlightSettings, KeptEnding, Report, Seed};
use ob_io::{Sink, Source};
use ob_print::{Line, write_all};
use ob_reopen::{Keeper, Mark};
use ob_seal::Keys;
use ob_store::{BlockStore, Lasting};
use ob_vault::{BaseRevs, Revisions};
use ob_words::{Words, read_kept_words};
use std::alloc::Global;

/// How a run ended, whether its last line may not be written any more, how many rows were open, and what was counted of
/// the answers, where the input was read to its end.
#[derive(Clone, Copy, Debug, PartialEq, Eq)]
pub struct KeptEnded {
    pub ending: KeptEnding,
    pub quiet: bool,
    pub high: u64,
    pub tally: Tally,
}

fn kept_status(ending: KeptEnding) -> u8
    ensures { result ≡ Keeping.kept_status ending }
{
    match ending {
        KeptEnding::Plain(ending) => status_of(ending),
        KeptEnding::OtherPack | KeptEnding::OtherKey | KeptEnding::Saved => 2,
        KeptEnding::StoreFault => 3,
        KeptEnding::NotClosed | KeptEnding::NoMark => 9,
        KeptEnding::KeeperFault => 10,
    }
}

fn kept_line(ending: KeptEnding) -> Line
    ensures { result ≡ Keeping.kept_line ending }
{
    match ending {
        KeptEnding::Plain(ending) => last_line(ending),
        KeptEnding::OtherPack => Line::new(b"! pack\n"),
        KeptEnding::OtherKey => Line::new(b"! key\n"),
        KeptEnding::Saved => Line::new(b"! saved\n"),
        KeptEnding::StoreFault => Line::new(b"! store fault\n"),
        KeptEnding::NotClosed => Line::new(b"! not closed\n"),
        KeptEnding::NoMark => Line::new(b"! no mark\n"),
        KeptEnding::KeeperFault => Line::new(b"! keeper fault\n"),
    }
}

// The end of a run that a stop ends.
pub(crate) fn stopped(stop: Stop) -> KeptEnding
    ensures { result ≡ KeptEnding.Plain (Ending.Ran (Err stop)) }
{
    KeptEnding::Plain(Ending::Ran(Err(stop)))
}

pub(crate) fn opening_end(error: OpenErr) -> KeptEnding
    ensures { result ≡ Keeping.opening_end error }
{
    match error {
        OpenErr::Failed => KeptEnding::StoreFault,
        OpenErr::Tampered { region, place } => stopped(Stop::Tampered { region, place }),
        OpenErr::NoMemory => stopped(Stop::NoMemory),
    }
}

fn closing_end(error: CloseErr) -> KeptEnding
    ensures { result ≡ Keeping.closing_end error }
{
    match error {
        CloseErr::Failed => KeptEnding::StoreFault,
        CloseErr::NoMemory => stopped(Stop::NoMemory),
    }
}

// A run that ended so, after which no text was counted.
pub(crate) fn kept_at(ending: KeptEnding, quiet: bool, high: u64) -> KeptEnded
    ensures { result
        ≡ record { ending = ending; quiet = quiet; high = high; tally = empty_tally } }
{
    KeptEnded {
        ending,
        quiet,
        high,
        tally: Tally::new(),
    }
}

// A run that ended as one does whose tables aren't kept.
pub(crate) fn plainly(ended: Ended) -> KeptEnded
    ensures { result ≡ record {
      ending = KeptEnding.Plain ended.ending;
      quiet = ended.quiet;
      high = ended.high;
      tally = ended.tally;
    } }
{
    KeptEnded {
        ending: KeptEnding::Plain(ended.ending),
        quiet: ended.quiet,
        high: ended.high,
        tally: ended.tally,
    }
}

// The engine of the mark that the keeper holds: a new one, or one with the tables of the run before.
fn find_engine<R: Revisions, S: Lasting, K: Keeper>(
    alloc: Global,
    config: Config,
    key: &[u8; 32],
    store: &mut S,
    keeper: &mut K,
) -> Result<Engine<R>, KeptEnding>
    requires within { AreWithin config }
    requires fresh { (S.state store.old).asked ≡ [] }
    ensures { FindsEngine R.state config key.now result (S.state store.old) (S.state store.new)
        (K.state keeper.old) (K.state keeper.new) }
{
    let mark = match keeper.mark() {
        Ok(mark) => mark,
        Err(_) => return Err(KeptEnding::KeeperFault),
    };
    match mark {
        Mark::InUse => Err(KeptEnding::NotClosed),
        Mark::Begun | Mark::Saved { .. } => Err(KeptEnding::Saved),
        Mark::Fresh => match Engine::<R>::start(alloc, config, Keys::derive(key)) {
            Ok(engine) => Ok(engine),
            Err(_) => Err(stopped(Stop::NoMemory)),
        },
        Mark::Closed { pack, .. } => {
            if pack != config.pack {
                return Err(KeptEnding::OtherPack);
            }
            match Engine::<R>::open(alloc, config, Keys::derive(key), store, &mark) {
                Ok(engine) => Ok(engine),
                Err(error) => Err(opening_end(error)),
            }
        }
    }
}

// The same, once the accesses were traced, and the keeper holds that the store is in use.
fn start_run<R: Revisions, T: Sink, D: Digester, S: Lasting, K: Keeper>(
    alloc: Global,
    words: Words,
    key: &[u8; 32],
    trace: &mut T,
    digest: &mut D,
    store: &mut S,
    keeper: &mut K,
) -> Result<Engine<R>, KeptEnded>
    requires within { AreWithin words.config }
    requires fresh { (S.state store.old).asked ≡ [] }
    requires took { D.took digest.old (S.state store.old).asked }
    ensures ok { IfOk result (λ e. StartsRun R.state words.config key.now words.trace e
        (S.state store.old) (S.state store.new) (T.written trace.old) (T.written trace.new)
        (T.faults trace.old) (T.faults trace.new) (K.state keeper.old) (K.state keeper.new)) }
    ensures err { IfErr result (λ ended. EndsUnserved words.config key.now words.trace ended
        (S.state store.old) (S.state store.new) (T.written trace.old) (T.written trace.new)
        (T.faults trace.old) (T.faults trace.new) (K.state keeper.old) (K.state keeper.new)) }
    ensures took { D.took digest.new (S.state store.new).asked }
{
    match find_engine(alloc, words.config, key, store, keeper) {
        Err(ending) => {
            let quiet = trace_from(words.trace, store, 0, trace, digest).is_err();
            Err(kept_at(ending, quiet, 0))
        }
        Ok(engine) => {
            let high = engine.high();
            match trace_from(words.trace, store, 0, trace, digest) {
                Err(_) => Err(kept_at(stopped(Stop::SinkFault), true, high)),
                Ok(()) => match keeper.set(&Mark::InUse) {
                    Ok(()) => Ok(engine),
                    Err(_) => Err(kept_at(KeptEnding::KeeperFault, false, high)),
                },
            }
        }
    }
}

// Closes an engine whose session came to its end, and of which so many rows were open: the accesses are traced, and
// then the keeper holds the mark.
fn close_run<R: Revisions, T: Sink, D: Digester, S: BlockStore, K: Keeper>(
    tally: Tally,
    tracing: bool,
    high: u64,
    engine: Engine<R>,
    trace: &mut T,
    digest: &mut D,
    store: &mut S,
    keeper: &mut K,
) -> KeptEnded
    requires ready { IsReady R.state ⊥
        (machine_of engine (S.state store.old) told_nothing no_flights) }
    requires few { count_of engine (S.state store.old) < 2 ^ 63 + 2 ^ 59 }
    requires flat { AreFlat (headings_of (public_of engine).tables) }
    requires high { high ≡ high_of engine }
    requires took { D.took digest.old (S.state store.old).asked }
    ensures closes { ClosesRun R.state tally tracing engine result
        (S.state store.old) (S.state store.new) (T.written trace.old) (T.written trace.new)
        (T.faults trace.old) (T.faults trace.new) (K.state keeper.old) (K.state keeper.new) }
    ensures took { D.took digest.new (S.state store.new).asked }
{
    let from = store.count();
    match engine.close(store) {
        Err(error) => {
            let quiet = trace_from(tracing, store, from, trace, digest).is_err();
            kept_at(closing_end(error), quiet, high)
        }
        Ok(mark) => match trace_from(tracing, store, from, trace, digest) {
            Err(_) => kept_at(stopped(Stop::SinkFault), true, high),
            Ok(()) => match keeper.set(&mark) {
                Ok(()) => plainly(ended_with(Ok(tally), high)),
                Err(_) => kept_at(KeptEnding::KeeperFault, false, high),
            },
        },
    }
}

// Serves what follows the first line, and closes the engine where that comes to its end.
fn serve_run<R: Revisions, I: Source, O: Sink, T: Sink, D: Digester, S: BlockStore, K: Keeper>(
    alloc: Global,
    tracing: bool,
    flight: Option<FlightSettings>,
    engine: Engine<R>,
    feed: &mut Feed,
    input: &mut I,
    out: &mut O,
    trace: &mut T,
    digest: &mut D,
    store: &mut S,
    keeper: &mut K,
) -> KeptEnded
    requires ready { IsReady R.state ⊥
        (machine_of engine (S.state store.old) told_nothing no_flights) }
    requires few { count_of engine (S.state store.old) < 2 ^ 63 + 2 ^ 59 }
    requires kept { (public_of engine).keep ≡ true }
    requires taken { feed.old.taken ≤ feed.old.limit }
    requires fed_by { IsFedBy feed.old (I.gave input.old) }
    requires took { D.took digest.old (S.state store.old).asked }
    ensures served { (base : Base) (config : Config) (key : List ℕ)
        → Engages R.state base config (keys_of key) engine (S.state store.old)
        → ServesRun R.state (flying flight base) key tracing result feed.old feed.new
        (I.left input.old) (I.left input.new) (I.gave input.new)
        (O.written out.old) (O.written out.new) (T.written trace.old) (T.written trace.new)
        (S.state store.old) (S.state store.new)
        (faults_of (I.faults input.old) (O.faults out.old) (T.faults trace.old))
        (faults_of (I.faults input.new) (O.faults out.new) (T.faults trace.new))
        (K.state keeper.old) (K.state keeper.new) }
    ensures within { feed.new.taken ≤ feed.new.limit }
    ensures fed_by { IsFedBy feed.new (I.gave input.new) }
    ensures took { (refused : Bool) → result.ending ≡ KeptEnding.Plain (Ending.Ran (Ok refused))
        → D.took digest.new (S.state store.new).asked }
{
    let mut engine = engine;
    match serve(
        alloc,
        tracing,
        flight,
        feed,
        input,
        &mut engine,
        store,
        &mut NoCommit,
        out,
        trace,
        digest,
    ) {
        Ok(tally) => {
            let high = engine.high();
            close_run(tally, tracing, high, engine, trace, digest, store, keeper)
        }
        Err(halted) => plainly(ended_with(Err(halted), engine.high())),
    }
}

// Reads the first line, and serves the texts with the tables that are kept: all except the last line.
pub(crate) fn run_kept<I: Source, O: Sink, T: Sink, D: Digester, S: Lasting, K: Keeper>(
    alloc: Global,
    words: Words,
    input: &mut I,
    out: &mut O,
    trace: &mut T,
    digest: &mut D,
    store: &mut S,
    keeper: &mut K,
) -> KeptEnded
    requires within { AreWithin words.config }
    requires kept { words.config.keep ≡ true }
    requires fresh { (S.state store.old).asked ≡ [] }
    requires took { D.took digest.old (S.state store.old).asked }
    ensures ran { RanKept words.config words.flight words.trace result
        (outside_of (I.left input.old) (I.gave input.old) (O.written out.old) (T.written trace.old)
        (S.state store.old)
        (faults_of (I.faults input.old) (O.faults out.old) (T.faults trace.old)))
        (outside_of (I.left input.new) (I.gave input.new) (O.written out.new) (T.written trace.new)
        (S.state store.new)
        (faults_of (I.faults input.new) (O.faults out.new) (T.faults trace.new)))
        (K.state keeper.old) (K.state keeper.new) }
    ensures took { (refused : Bool) → result.ending ≡ KeptEnding.Plain (Ending.Ran (Ok refused))
        → D.took digest.new (S.state store.new).asked }
{
    let tracing = words.trace;
    let mut feed = Feed::new(words.config.max_input);
    match read_key(&mut feed, input) {
        Err(Halt::SourceFault) => kept_at(stopped(Stop::SourceFault), false, 0),
        Err(Halt::InputLimit) => kept_at(stopped(Stop::InputLimit), false, 0),
        Ok(FirstLine::Bad) => kept_at(KeptEnding::Plain(Ending::BadKey), false, 0),
        Ok(FirstLine::Last(key)) => {
            match start_run::<BaseRevs, T, D, S, K>(
                alloc, words, &key, trace, digest, store, keeper,
            ) {
                Err(ended) => ended,
                Ok(engine) => {
                    let high = engine.high();
                    let tally = Tally::new();
                    close_run(tally, tracing, high, engine, trace, digest, store, keeper)
                }
            }
        }
        Ok(FirstLine::Secret(key)) => {
            match start_run::<BaseRevs, T, D, S, K>(
                alloc, words, &key, trace, digest, store, keeper,
            ) {
                Err(ended) => ended,
                Ok(engine) => serve_run(
                    alloc,
                    tracing,
                    words.flight,
                    engine,
                    &mut feed,
                    input,
                    out,
                    trace,
                    digest,
                    store,
                    keeper,
                ),
            }
        }
    }
}

// Writes the last line, where it may be written, and reports.
pub(crate) fn close_kept<O: Sink>(ended: KeptEnded, out: &mut O) -> Report
    ensures status { result.status ≡ Keeping.kept_status ended.ending }
    ensures high { result.high ≡ ended.high }
    ensures quiet { ended.quiet ≡ true →
        Unwritten (O.written out.old) (O.written out.new) (O.faults out.old) (O.faults out.new) }
    ensures line { ended.quiet ≡ false → LineWritten (Keeping.kept_line ended.ending)
        (O.written out.old) (O.written out.new) (O.faults out.old) (O.faults out.new) }
{
    if !ended.quiet {
        let _ = write_all(out, kept_line(ended.ending).as_bytes());
    }
    Report {
        status: kept_status(ended.ending),
        high: ended.high,
    }
}

// Writes what is written of a run over the generated text: its summary, or its last line.
pub(crate) fn conclude_kept<O: Sink, S: BlockStore>(
    ended: KeptEnded,
    digest: TraceDigest,
    store: &S,
    out: &mut O,
) -> Report
    requires { (refused : Bool) → ended.ending ≡ KeptEnding.Plain (Ending.Ran (Ok refused))
        → ⟦<TraceDigest as Digester>⟧.took digest (S.state store.now).asked }
    ensures high { result.high ≡ ended.high }
    ensures concluded { KeptConcludedBy ended.ending ended.quiet ended.tally
        (S.state store.now).asked (O.written out.old) (O.written out.new) (O.faults out.old)
        (O.faults out.new) result.status }
{
    match ended.ending {
        KeptEnding::Plain(Ending::Ran(Ok(refused))) => {
            let plain = Ended {
                ending: Ending::Ran(Ok(refused)),
                quiet: ended.quiet,
                high: ended.high,
                tally: ended.tally,
            };
            sum_up(plain, refused, digest, store, out)
        }
        KeptEnding::Plain(Ending::Usage | Ending::BadKey | Ending::Ran(Err(_)))
        | KeptEnding::OtherPack
        | KeptEnding::OtherKey
        | KeptEnding::Saved
        | KeptEnding::NoMark
        | KeptEnding::StoreFault
        | KeptEnding::NotClosed
        | KeptEnding::KeeperFault => close_kept(ended, out),
    }
}

// Serves the generated text instead, keeps none of its answers, and writes the summary, or the last line of a run that
// didn't come to its end.
pub(crate) fn keep_generated<O: Sink, T: Sink, S: Lasting, K: Keeper>(
    alloc: Global,
    words: Words,
    seed: Seed,
    out: &mut O,
    trace: &mut T,
    store: &mut S,
    keeper: &mut K,
) -> Report
    requires within { AreWithin words.config }
    requires kept { words.config.keep ≡ true }
    requires fresh { (S.state store.old).asked ≡ [] }
    ensures { KeptGenerated words.config words.flight words.trace seed
        (T.written trace.old) (T.written trace.new) (S.state store.old) (S.state store.new)
        (T.faults trace.old) (T.faults trace.new) (K.state keeper.old) (K.state keeper.new)
        (O.written out.old) (O.written out.new) (O.faults out.old) (O.faults out.new) result }
{
    let mut input = Generated::new(seed.start, seed.rows);
    let mut digest = TraceDigest::new();
    let ended = run_kept(
        alloc,
        words,
        &mut input,
        &mut Discard,
        trace,
        &mut digest,
        store,
        keeper,
    );
    conclude_kept(ended, digest, store, out)
}

/// Serves the input over a store of which nothing was asked, as `shell_top` does. With `--keep` its tables are kept for
/// the next run: it goes on from those that the mark of the keeper names, and closes its own where it comes to its end.
pub fn keep_top<I: Source, O: Sink, T: Sink, S: Lasting, K: Keeper>(
    alloc: Global,
    words: &[String],
    input: &mut I,
    out: &mut O,
    trace: &mut T,
    store: &mut S,
    keeper: &mut K,
) -> Report
    requires fresh { (S.state store.old).asked ≡ [] }
    ensures ran { MayKeep (is_kept (map string_bytes words.now))
        (asked_for kept_usage (map string_bytes words.now))
        (settings_of kept_usage (map string_bytes words.now))
        (flight_of kept_usage (map string_bytes words.now))
        (IsTaken kept_usage (map string_bytes words.now))
        (is_traced kept_usage (map string_bytes words.now))
        (outside_of (I.left input.old) (I.gave input.old) (O.written out.old) (T.written trace.old)
        (S.state store.old)
        (faults_of (I.faults input.old) (O.faults out.old) (T.faults trace.old)))
        (outside_of (I.left input.new) (I.gave input.new) (O.written out.new) (T.written trace.new)
        (S.state store.new)
        (faults_of (I.faults input.new) (O.faults out.new) (T.faults trace.new)))
        (K.state keeper.old) (K.state keeper.new) result }
    ensures refused { ¬ IsTaken kept_usage (map string_bytes words.now) → Untouched
        (I.left input.old) (I.left input.new) (S.state store.old) (S.state store.new)
        × (K.state keeper.new ≡ K.state keeper.old) }
{
    let words = match read_kept_words(alloc, words) {
        Ok(words) => words,
        Err(error) => return refuse_words(error, out),
    };
    let common = words.common;
    if words.keep {
        match common.generated {
            None => {
                let none = &mut Undigested;
                let ended = run_kept(alloc, common, input, out, trace, none, store, keeper);
                close_kept(ended, out)
            }
            Some(seed) => keep_generated(alloc, common, seed, out, trace, store, keeper),
        }
    } else {
        match common.generated {
            None => serve_over(alloc, common, input, out, trace, store),
            Some(seed) => serve_generated(alloc, common, seed, out, trace, store),
        }
    }
}
