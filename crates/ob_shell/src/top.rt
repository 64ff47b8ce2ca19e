//! The top calls.
ghost use Rattle.std.specs.Prelude.{ℕ, Bool, IfOk, List, MatchOption, OnOk, string_bytes};
ghost use Rattle.std.specs.Prelude.{◌≡◌, ◌≢◌, ◌≤◌, [], map, Ok, Err, Some, None, true, false, ⊤};
ghost use Rattle.ob_gen.specs.Tally.{empty_tally};
ghost use Rattle.ob_gen.specs.declared.tally.Tally.{Tally};
ghost use Rattle.ob_headline.specs.Bases.{flying, fresh};
ghost use Rattle.ob_headline.specs.Endings;
ghost use Rattle.ob_headline.specs.Headline.{Headline};
ghost use Rattle.ob_headline.specs.Settings.{IsTaken, flight_of, settings_of};
ghost use Rattle.ob_headline.specs.Usage.{usage, meddle_usage, is_traced};
ghost use Rattle.ob_headline.specs.Words.{SinksRose, faults_of, keys_in, outside_of};
ghost use Rattle.ob_headline.specs.declared.seed.Seed.{Seed};
ghost use Rattle.ob_meddle.specs.Shows.{state_of};
ghost use Rattle.ob_shell.specs.Closed.{LineWritten, Untouched, Unwritten, refused_by};
ghost use Rattle.ob_shell.specs.Feeding.{IsFedBy};
ghost use Rattle.ob_shell.specs.Generating.{MeddleRan, Summarized, asked_for};
ghost use Rattle.ob_shell.specs.Meddling.{Unserved};
ghost use Rattle.ob_shell.specs.Running.{IsQuiet, OutFailed, ServesAlone, Silenced, StopCause, is_quiet, stop_of};
ghost use Rattle.ob_shell.specs.Tallies.{flagged};
ghost use Rattle.ob_shell.specs.Top.{EndingCause, RanAfter, Reported, RunShown, sink_of};
ghost use Rattle.ob_shell.specs.Traces.{Traced};
ghost use Rattle.ob_words.specs.WordsRead.{AreWithin};

use crate::feed::{Feed, Halt};
use crate::generating::serve_generated;
use crate::key::{FirstLine, read_key};
use crate::session::{Halted, serve};
use ob_base::Stop;
use ob_exec::{Engine, NoCommit};
use ob_gen::{Digester, Tally, Undigested};
use ob_headline::{Ending, Report};
use ob_io::{Sink, Source};
use ob_meddle::MeddledStore;
use ob_print::{Line, stop_line, write_all};
use ob_seal::Keys;
use ob_store::BlockStore;
use ob_vault::{BaseRevs, Revisions};
use ob_words::{Words, WordsErr, read_meddle_words, read_words};
use std::alloc::Global;

/// How a run ended, whether its last line may not be written any more, how many rows were open, and what was counted of
/// the answers, where the input was read to its end.
#[derive(Clone, Copy, Debug, PartialEq, Eq)]
pub struct Ended {
    pub ending: Ending,
    pub quiet: bool,
    pub high: u64,
    pub tally: Tally,
}

pub(crate) fn status_of(ending: Ending) -> u8
    ensures { result ≡ Endings.status_of ending }
{
    match ending {
        Ending::Usage | Ending::BadKey => 2,
        Ending::Ran(Ok(false)) => 0,
        Ending::Ran(Ok(true)) => 1,
        Ending::Ran(Err(stop)) => match stop {
            Stop::Tampered { .. } => 4,
            Stop::SourceFault => 5,
            Stop::SinkFault => 6,
            Stop::NoMemory => 7,
            Stop::InputLimit => 8,
            Stop::StoreFault => 3,
            Stop::StashFull => 11,
            Stop::KeeperFault => 10,
        },
    }
}

pub(crate) fn last_line(ending: Ending) -> Line
    ensures { result ≡ Endings.last_line ending }
{
    match ending {
        Ending::Usage => Line::new(b"! usage\n"),
        Ending::BadKey => Line::new(b"! key\n"),
        Ending::Ran(Ok(_)) => Line::new(b""),
        Ending::Ran(Err(stop)) => stop_line(stop),
    }
}

// An end before any engine was started.
fn ended_at(ending: Ending) -> Ended
    ensures { result ≡ record { ending = ending; quiet = false; high = 0; tally = empty_tally } }
{
    Ended {
        ending,
        quiet: false,
        high: 0,
        tally: Tally::new(),
    }
}

// The end of a session.
pub(crate) fn ended_with(ran: Result<Tally, Halted>, high: u64) -> Ended
    ensures ending { result.ending ≡ Ending.Ran (flagged (stop_of ran)) }
    ensures tally { IfOk (stop_of ran) (λ tally. result.tally ≡ tally) }
    ensures quiet { result.quiet ≡ is_quiet ran }
    ensures high { result.high ≡ high }
{
    match ran {
        Ok(tally) => Ended {
            ending: Ending::Ran(Ok(tally.refused > 0)),
            quiet: false,
            high,
            tally,
        },
        Err(halted) => Ended {
            ending: Ending::Ran(Err(halted.stop)),
            quiet: halted.quiet,
            high,
            tally: Tally::new(),
        },
    }
}

// Starts an engine with these keys, and serves what follows the first line; no tables are saved. Tells of the rows open, too.
pub(crate) fn serve_with<I: Source, O: Sink, T: Sink, D: Digester, S: BlockStore>(
    alloc: Global,
    words: Words,
    keys: Keys,
    feed: &mut Feed,
    input: &mut I,
    out: &mut O,
    trace: &mut T,
    digest: &mut D,
    store: &mut S,
) -> (Result<Tally, Halted>, u64)
    requires within { AreWithin words.config }
    requires taken { feed.old.taken ≤ feed.old.limit }
    requires fed_by { IsFedBy feed.old (I.gave input.old) }
    requires fresh { (S.state store.old).asked ≡ [] }
    requires took { D.took digest.old (S.state store.old).asked }
    ensures ran { (secret : List ℕ) → RanAfter ⟦<BaseRevs as Revisions>⟧.state
        (sink_of words.trace (T.written trace.old) (T.written trace.new))
        (flying words.flight (fresh (Some words.config))) keys (Some secret)
        feed.old feed.new
        (I.left input.old) (I.left input.new) (I.gave input.new)
        (O.written out.old) (O.written out.new)
        (S.state store.old) (S.state store.new) result.1
        (OutFailed (is_quiet result.0) (O.faults out.old) (O.faults out.new)) (stop_of result.0) }
    ensures within { feed.new.taken ≤ feed.new.limit }
    ensures fed_by { IsFedBy feed.new (I.gave input.new) }
    ensures traced { Traced words.trace (S.state store.old).asked (S.state store.new).asked
        (T.written trace.old) (T.written trace.new) (IsQuiet result.0) }
    ensures cause { StopCause (ServesAlone words.flight (fresh (Some words.config)).public)
        (faults_of (I.faults input.old) (O.faults out.old) (T.faults trace.old))
        (faults_of (I.faults input.new) (O.faults out.new) (T.faults trace.new))
        (stop_of result.0) }
    ensures quiet { Silenced (is_quiet result.0)
        (faults_of (I.faults input.old) (O.faults out.old) (T.faults trace.old))
        (faults_of (I.faults input.new) (O.faults out.new) (T.faults trace.new)) }
    ensures took { OnOk result.0 (D.took digest.new (S.state store.new).asked) }
{
    match Engine::<BaseRevs>::start(alloc, words.config, keys) {
        Err(_) => {
            let stop = Stop::NoMemory;
            (Err(Halted { stop, quiet: false }), 0)
        }
        Ok(mut engine) => {
            let ran = serve(
                alloc,
                words.trace,
                words.flight,
                feed,
                input,
                &mut engine,
                store,
                &mut NoCommit,
                out,
                trace,
                digest,
            );
            (ran, engine.high())
        }
    }
}

// Reads the first line and serves the texts: all except the last line.
pub(crate) fn run<I: Source, O: Sink, T: Sink, D: Digester, S: BlockStore>(
    alloc: Global,
    words: Words,
    input: &mut I,
    out: &mut O,
    trace: &mut T,
    digest: &mut D,
    store: &mut S,
) -> Ended
    requires within { AreWithin words.config }
    requires fresh { (S.state store.old).asked ≡ [] }
    requires took { D.took digest.old (S.state store.old).asked }
    ensures shown { RunShown result.tally
        (sink_of words.trace (T.written trace.old) (T.written trace.new))
        (flying words.flight (fresh (Some words.config))) keys_in
        (I.left input.old) (I.left input.new) (I.gave input.new)
        (O.written out.old) (O.written out.new)
        (S.state store.old) (S.state store.new)
        result.high result.ending []
        (OutFailed result.quiet (O.faults out.old) (O.faults out.new)) }
    ensures words { result.ending ≢ Ending.Usage }
    ensures traced { Traced words.trace (S.state store.old).asked (S.state store.new).asked
        (T.written trace.old) (T.written trace.new) (result.quiet ≡ true) }
    ensures cause { EndingCause (ServesAlone words.flight (fresh (Some words.config)).public)
        result.ending
        (faults_of (I.faults input.old) (O.faults out.old) (T.faults trace.old))
        (faults_of (I.faults input.new) (O.faults out.new) (T.faults trace.new)) }
    ensures quiet { Silenced result.quiet
        (faults_of (I.faults input.old) (O.faults out.old) (T.faults trace.old))
        (faults_of (I.faults input.new) (O.faults out.new) (T.faults trace.new)) }
    ensures took { (refused : Bool) → result.ending ≡ Ending.Ran (Ok refused)
        → D.took digest.new (S.state store.new).asked }
{
    let mut feed = Feed::new(words.config.max_input);
    match read_key(&mut feed, input) {
        Err(Halt::SourceFault) => ended_at(Ending::Ran(Err(Stop::SourceFault))),
        Err(Halt::InputLimit) => ended_at(Ending::Ran(Err(Stop::InputLimit))),
        Ok(FirstLine::Bad) => ended_at(Ending::BadKey),
        Ok(FirstLine::Last(_)) => ended_at(Ending::Ran(Ok(false))),
        Ok(FirstLine::Secret(key)) => {
            let keys = Keys::derive(&key);
            let (ran, high) = serve_with(
                alloc, words, keys, &mut feed, input, out, trace, digest, store,
            );
            ended_with(ran, high)
        }
    }
}

// Writes the last line, where it may be written, and reports.
pub(crate) fn close<O: Sink>(ended: Ended, out: &mut O) -> Report
    ensures status { result.status ≡ Endings.status_of ended.ending }
    ensures high { result.high ≡ ended.high }
    ensures quiet { ended.quiet ≡ true →
        Unwritten (O.written out.old) (O.written out.new) (O.faults out.old) (O.faults out.new) }
    ensures line { ended.quiet ≡ false → LineWritten (Endings.last_line ended.ending)
        (O.written out.old) (O.written out.new) (O.faults out.old) (O.faults out.new) }
{
    if !ended.quiet {
        let _ = write_all(out, last_line(ended.ending).as_bytes());
    }
    Report {
        status: status_of(ended.ending),
        high: ended.high,
    }
}

// The end where the words were not read.
pub(crate) fn refuse_words<O: Sink>(error: WordsErr, out: &mut O) -> Report
    ensures status { result.status ≡ Endings.status_of (refused_by error) }
    ensures high { result.high ≡ 0 }
    ensures line { LineWritten (Endings.last_line (refused_by error))
        (O.written out.old) (O.written out.new) (O.faults out.old) (O.faults out.new) }
{
    let ending = match error {
        WordsErr::Usage => Ending::Usage,
        WordsErr::NoMemory => Ending::Ran(Err(Stop::NoMemory)),
    };
    close(ended_at(ending), out)
}

// Serves the input of words that were taken, and writes the last line.
pub(crate) fn serve_over<I: Source, O: Sink, T: Sink, S: BlockStore>(
    alloc: Global,
    words: Words,
    input: &mut I,
    out: &mut O,
    trace: &mut T,
    store: &mut S,
) -> Report
    requires within { AreWithin words.config }
    requires fresh { (S.state store.old).asked ≡ [] }
    ensures reported { (tally : Tally) × Reported tally
        (sink_of words.trace (T.written trace.old) (T.written trace.new)) ⊤
        (flying words.flight (fresh (Some words.config))) keys_in
        (I.left input.old) (I.left input.new) (I.gave input.new)
        (O.written out.old) (O.written out.new)
        (S.state store.old) (S.state store.new)
        (faults_of (I.faults input.old) (O.faults out.old) (T.faults trace.old))
        (faults_of (I.faults input.new) (O.faults out.new) (T.faults trace.new)) result }
    ensures traced { Traced words.trace (S.state store.old).asked (S.state store.new).asked
        (T.written trace.old) (T.written trace.new) (SinksRose
        (faults_of (I.faults input.old) (O.faults out.old) (T.faults trace.old))
        (faults_of (I.faults input.new) (O.faults out.new) (T.faults trace.new))) }
{
    let ended = run(alloc, words, input, out, trace, &mut Undigested, store);
    close(ended, out)
}

/// Serves the input over a store of which nothing was asked, and writes the answers and the last line, as the words set
/// it; with `--trace` each access is traced. With `--gen` the input isn't read, a generated text is served in its place,
/// and its summary is written instead of the answers. `words` leave out the program's name.
pub fn shell_top<I: Source, O: Sink, T: Sink, S: BlockStore>(
    alloc: Global,
    words: &[String],
    input: &mut I,
    out: &mut O,
    trace: &mut T,
    store: &mut S,
) -> Report
    requires fresh { (S.state store.old).asked ≡ [] }
    ensures headline { asked_for usage (map string_bytes words.now) ≡ None
        → Headline (flying (flight_of usage (map string_bytes words.now))
        (fresh (settings_of usage (map string_bytes words.now)))) keys_in
        (IsTaken usage (map string_bytes words.now))
        (is_traced usage (map string_bytes words.now))
        (outside_of (I.left input.old) (I.gave input.old) (O.written out.old) (T.written trace.old)
        (S.state store.old)
        (faults_of (I.faults input.old) (O.faults out.old) (T.faults trace.old)))
        (outside_of (I.left input.new) (I.gave input.new) (O.written out.new) (T.written trace.new)
        (S.state store.new)
        (faults_of (I.faults input.new) (O.faults out.new) (T.faults trace.new))) result }
    ensures summary { (seed : Seed) → asked_for usage (map string_bytes words.now) ≡ Some seed
        → Summarized (IsTaken usage (map string_bytes words.now))
        (settings_of usage (map string_bytes words.now))
        (flight_of usage (map string_bytes words.now))
        (is_traced usage (map string_bytes words.now)) seed
        (outside_of (I.left input.old) (I.gave input.old) (O.written out.old) (T.written trace.old)
        (S.state store.old)
        (faults_of (I.faults input.old) (O.faults out.old) (T.faults trace.old)))
        (outside_of (I.left input.new) (I.gave input.new) (O.written out.new) (T.written trace.new)
        (S.state store.new)
        (faults_of (I.faults input.new) (O.faults out.new) (T.faults trace.new))) result }
    ensures refused { ¬ IsTaken usage (map string_bytes words.now) → Untouched
        (I.left input.old) (I.left input.new) (S.state store.old) (S.state store.new) }
{
    match read_words(alloc, words) {
        Err(error) => refuse_words(error, out),
        Ok(words) => match words.generated {
            None => serve_over(alloc, words, input, out, trace, store),
            Some(seed) => serve_generated(alloc, words, seed, out, trace, store),
        },
    }
}

/// Serves the input over a store in memory that others change as `--meddle` says, and hands it back: none exactly
/// where the words are not taken or memory ran out before it was made. Else all is as `shell_top` says of it.
pub fn meddle_top<I: Source, O: Sink, T: Sink>(
    alloc: Global,
    words: &[String],
    input: &mut I,
    out: &mut O,
    trace: &mut T,
) -> (Report, Option<MeddledStore>)
    ensures { MatchOption result.1
        (Unserved (map string_bytes words.now) (I.left input.old) (I.left input.new)
        (O.written out.old) (O.written out.new) (T.written trace.old) (T.written trace.new)
        (faults_of (I.faults input.old) (O.faults out.old) (T.faults trace.old))
        (faults_of (I.faults input.new) (O.faults out.new) (T.faults trace.new)) result.0)
        (λ store. MeddleRan (asked_for meddle_usage (map string_bytes words.now))
        (map string_bytes words.now)
        (λ start. (outside_of (I.left input.old) (I.gave input.old) (O.written out.old)
        (T.written trace.old) start
        (faults_of (I.faults input.old) (O.faults out.old) (T.faults trace.old))))
        (outside_of (I.left input.new) (I.gave input.new) (O.written out.new) (T.written trace.new)
        (state_of store)
        (faults_of (I.faults input.new) (O.faults out.new) (T.faults trace.new))) store result.0) }
{
    match read_meddle_words(alloc, words) {
        Err(error) => (refuse_words(error, out), None),
        Ok(words) => {
            let mut store = MeddledStore::new(alloc, words.changes);
            let words = words.common;
            match words.generated {
                None => {
                    let report = serve_over(alloc, words, input, out, trace, &mut store);
                    (report, Some(store))
                }
                Some(seed) => {
                    let report = serve_generated(alloc, words, seed, out, trace, &mut store);
                    (report, Some(store))
                }
            }
        }
    }
}
