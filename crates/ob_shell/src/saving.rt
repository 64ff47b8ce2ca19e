//! Runs whose tables are saved after each statement that changes them.
ghost use Rattle.std.specs.Prelude.{◌≡◌, ◌≢◌, ◌≤◌, ⊤, ℕ, Bool, List, [], IfErr, IfOk, Ok, OnOk, false, true};
ghost use Rattle.std.specs.Prelude.{codes, map, string_bytes};
ghost use Rattle.ob_base.specs.declared.config.Config.{Config};
ghost use Rattle.ob_headline.specs.Bases.{Base, flying};
ghost use Rattle.ob_headline.specs.SavedRuns.{IsOfOther};
ghost use Rattle.ob_headline.specs.Saving.{EndsShut, HandsBegun, LooksBare, RefusesMark, begun_mark};
ghost use Rattle.ob_headline.specs.Settings.{IsTakenSaved, flight_of, saved_settings_of};
ghost use Rattle.ob_headline.specs.Usage.{is_saved, is_set, is_traced, saved_usage, value_of};
ghost use Rattle.ob_headline.specs.Words.{faults_of, outside_of};
ghost use Rattle.ob_reopen.specs.Keepers.{IsMark};
ghost use Rattle.ob_seal.specs.KeySet.{KeySet};
ghost use Rattle.ob_seal.specs.Sealed.{keys_salted};
ghost use Rattle.ob_shell.specs.Closed.{Untouched};
ghost use Rattle.ob_shell.specs.EngagingSaved.{EndsUnsaved, EngagesSaved, EngineBy, FindsSaved, FitsSecret, IsStarted};
ghost use Rattle.ob_shell.specs.EngagingSaved.{RanSaved, SavedGenerated, ServesSaved, StartsSaved, pack_of};
ghost use Rattle.ob_shell.specs.Feeding.{IsFedBy};
ghost use Rattle.ob_shell.specs.Generating.{asked_for};
ghost use Rattle.ob_shell.specs.Leaving.{BeginsToSave};
ghost use Rattle.ob_shell.specs.SavedSummary.{KeepsOrSaves};
ghost use Rattle.ob_words.specs.SavedWords.{AreFit};
ghost use Rattle.ob_shell.specs.Steps.{IsReady, machine_of, no_flights};

use crate::feed::{Feed, Halt};
use crate::keeping::{
    KeptEnded, close_kept, conclude_kept, keep_generated, kept_at, opening_end, plainly, run_kept,
    stopped,
};
use crate::key::{FirstLine, read_key};
use crate::salting::{run_salted, salt_generated};
use crate::session::serve;
use crate::top::{ended_with, refuse_words};
use crate::trace::trace_from;
use ob_base::{Config, Failed, NoMemory, Stop};
use ob_exec::{CommitTo, Engine};
use ob_gen::{Digester, Discard, Generated, Tally, TraceDigest, Undigested};
use ob_headline::{Ending, FlightSettings, KeptEnding, Report, Seed};
use ob_io::{Sink, Source};
use ob_reopen::{Keeper, Mark, Salts};
use ob_seal::{Keys, check_value};
use ob_store::{Lasting, Saving};
use ob_vault::{BaseRevs, Revisions};
use ob_words::{Words, read_saved_words};
use std::alloc::Global;

// The pack of the tables that a mark names a closing of.
fn pack_of(mark: &Mark) -> Option<u8>
    ensures { result ≡ pack_of mark.now }
{
    match *mark {
        Mark::Closed { pack, .. } => Some(pack),
        Mark::Saved { pack, .. } => Some(pack),
        Mark::Fresh | Mark::InUse | Mark::Begun => None,
    }
}

// Whether a mark of a run that saves was left under this secret, by its check value; of the others that isn't told.
fn fits_secret(mark: &Mark, secret: &[u8; 32]) -> bool
    ensures fits { result ≡ true → FitsSecret secret.now mark.now }
    ensures other { result ≡ false → IsOfOther secret.now mark.now }
{
    match *mark {
        Mark::Saved { salt, check, .. } => check == check_value(secret, &salt),
        Mark::Fresh | Mark::InUse | Mark::Closed { .. } | Mark::Begun => true,
    }
}

// Whether a run that saves may begin from this mark: not where a run is at work, nor where there is no mark, but the
// store has regions.
fn may_begin<S: Saving>(mark: &Mark, store: &mut S) -> Result<(), KeptEnding>
    ensures begins { OnOk result
        (LooksBare mark.now (S.state store.old) (S.state store.new)) }
    ensures ends { IfErr result (λ ending.
        RefusesMark mark.now ending (S.state store.old) (S.state store.new)) }
    ensures log { (S.state store.new).let_go ≡ (S.state store.old).let_go }
{
    match *mark {
        Mark::InUse => Err(KeptEnding::NotClosed),
        Mark::Fresh => match store.is_bare() {
            Ok(true) => Ok(()),
            Ok(false) => Err(KeptEnding::NoMark),
            Err(_) => Err(KeptEnding::StoreFault),
        },
        Mark::Closed { .. } | Mark::Begun | Mark::Saved { .. } => Ok(()),
    }
}

// An engine with no tables, under keys of a salt.
fn start_salted<R: Revisions>(
    alloc: Global,
    config: Config,
    secret: &[u8; 32],
    salt: &[u8; 16],
) -> Result<Engine<R>, NoMemory>
    requires fits { AreFit config }
    ensures { IfOk result (λ e.
        IsStarted R.state config (keys_salted secret.now salt.now []) e) }
{
    match Keys::derive_salted(alloc, secret, salt, &[]) {
        Ok(keys) => Engine::<R>::start(alloc, config, keys),
        Err(_) => Err(NoMemory),
    }
}

// The engine by a mark, under keys of a salt: a new one, or one with the tables that a run before closed or saved. A mark
// that was left under another secret is noticed before the store is asked for anything.
fn engine_by<R: Revisions, S: Lasting>(
    alloc: Global,
    config: Config,
    secret: &[u8; 32],
    salt: &[u8; 16],
    mark: &Mark,
    store: &mut S,
) -> Result<Engine<R>, KeptEnding>
    requires fits { AreFit config }
    requires saves { config.save ≡ true }
    requires within { IsMark mark.now }
    requires unused { mark.now ≢ Mark.InUse }
    requires fresh { (S.state store.old).asked ≡ [] }
    ensures ok { IfOk result (λ e. EngineBy R.state mark.now config secret.now salt.now e
        (S.state store.old) (S.state store.new)) }
    ensures err { IfErr result (λ ending. EndsShut (begun_mark mark.now) config secret.now salt.now
        ending (S.state store.old) (S.state store.new)) }
    ensures log { (S.state store.new).let_go ≡ (S.state store.old).let_go }
{
    match pack_of(mark) {
        None => match start_salted::<R>(alloc, config, secret, salt) {
            Ok(engine) => Ok(engine),
            Err(_) => Err(stopped(Stop::NoMemory)),
        },
        Some(pack) => {
            if pack != config.pack {
                return Err(KeptEnding::OtherPack);
            }
            if !fits_secret(mark, secret) {
                return Err(KeptEnding::OtherKey);
            }
            match Engine::<R>::open_saved(alloc, config, secret, salt, store, mark) {
                Ok(engine) => Ok(engine),
                Err(error) => Err(opening_end(error)),
            }
        }
    }
}

// Hands the keeper `Begun` in place of a fresh mark. Any other mark stays, until tables are saved: so it opens again,
// whatever becomes of this run.
fn hand_begun<K: Keeper>(mark: &Mark, keeper: &mut K) -> Result<(), Failed>
    requires unused { mark.now ≢ Mark.InUse }
    ensures { HandsBegun mark.now result (K.state keeper.old) (K.state keeper.new) }
{
    match *mark {
        Mark::Fresh => keeper.set(&Mark::Begun),
        Mark::Closed { .. } | Mark::Begun | Mark::Saved { .. } => Ok(()),
        Mark::InUse => unreachable!(),
    }
}

/// The engine of the mark that the keeper holds, under keys of a salt that it draws. What other runs have left in the
/// store is given up then.
pub(crate) fn find_saved<R: Revisions, S: Saving, K: Salts>(
    alloc: Global,
    config: Config,
    secret: &[u8; 32],
    store: &mut S,
    keeper: &mut K,
) -> Result<Engine<R>, KeptEnding>
    requires fits { AreFit config }
    requires saves { config.save ≡ true }
    requires fresh { (S.state store.old).asked ≡ [] }
    ensures { FindsSaved R.state config secret.now result (S.state store.old) (S.state store.new)
        (K.state keeper.old) (K.state keeper.new) }
{
    let mark = match keeper.mark() {
        Ok(mark) => mark,
        Err(_) => return Err(KeptEnding::KeeperFault),
    };
    match may_begin(&mark, store) {
        Ok(()) => {}
        Err(ending) => return Err(ending),
    }
    let salt = match keeper.salt() {
        Ok(salt) => salt,
        Err(_) => return Err(KeptEnding::KeeperFault),
    };
    let engine = match engine_by::<R, S>(alloc, config, secret, &salt, &mark, store) {
        Ok(engine) => engine,
        Err(ending) => return Err(ending),
    };
    match hand_begun(&mark, keeper) {
        Ok(()) => {
            store.sweep();
            Ok(engine)
        }
        Err(_) => Err(KeptEnding::KeeperFault),
    }
}

// The same, once the accesses were traced.
fn start_saving<R: Revisions, T: Sink, D: Digester, S: Saving, K: Salts>(
    alloc: Global,
    words: Words,
    secret: &[u8; 32],
    trace: &mut T,
    digest: &mut D,
    store: &mut S,
    keeper: &mut K,
) -> Result<Engine<R>, KeptEnded>
    requires fits { AreFit words.config }
    requires saves { words.config.save ≡ true }
    requires fresh { (S.state store.old).asked ≡ [] }
    requires took { D.took digest.old (S.state store.old).asked }
    ensures ok { IfOk result (λ e. StartsSaved R.state words.config secret.now words.trace e
        (S.state store.old) (S.state store.new) (T.written trace.old) (T.written trace.new)
        (T.faults trace.old) (T.faults trace.new) (K.state keeper.old) (K.state keeper.new)) }
    ensures err { IfErr result (λ ended. EndsUnsaved words.config secret.now words.trace ended
        (S.state store.old) (S.state store.new) (T.written trace.old) (T.written trace.new)
        (T.faults trace.old) (T.faults trace.new) (K.state keeper.old) (K.state keeper.new)) }
    ensures took { D.took digest.new (S.state store.new).asked }
{
    match find_saved::<R, S, K>(alloc, words.config, secret, store, keeper) {
        Err(ending) => {
            let quiet = trace_from(words.trace, store, 0, trace, digest).is_err();
            Err(kept_at(ending, quiet, 0))
        }
        Ok(engine) => match trace_from(words.trace, store, 0, trace, digest) {
            Err(_) => Err(kept_at(stopped(Stop::SinkFault), true, engine.high())),
            Ok(()) => Ok(engine),
        },
    }
}

// Serves what follows the first line. Nothing is closed after that: each statement was saved before it was answered.
fn serve_saving<R: Revisions, I: Source, O: Sink, T: Sink, D: Digester, S: Saving, K: Keeper>(
    alloc: Global,
    tracing: bool,
    flight: Option<FlightSettings>,
    engine: Engine<R>,
    feed: &mut Feed,
    input: &mut I,
    out: &mut O,
    trace: &mut T,
    digest: &mut D,
    store: &mut S,
    keeper: &mut K,
) -> KeptEnded
    requires ready { IsReady R.state ⊤
        (machine_of engine (S.state store.old) (K.state keeper.old) no_flights) }
    requires taken { feed.old.taken ≤ feed.old.limit }
    requires fed_by { IsFedBy feed.old (I.gave input.old) }
    requires took { D.took digest.old (S.state store.old).asked }
    ensures served { (base : Base) (config : Config) (keys : KeySet) (secret salt : List ℕ)
        → EngagesSaved R.state base config keys engine (S.state store.old) (K.state keeper.old)
        → ServesSaved R.state (flying flight base) keys secret salt tracing result
        feed.old feed.new
        (I.left input.old) (I.left input.new) (I.gave input.new)
        (O.written out.old) (O.written out.new) (T.written trace.old) (T.written trace.new)
        (S.state store.old) (S.state store.new)
        (faults_of (I.faults input.old) (O.faults out.old) (T.faults trace.old))
        (faults_of (I.faults input.new) (O.faults out.new) (T.faults trace.new))
        (K.state keeper.old) (K.state keeper.new)
        (BeginsToSave R.state secret salt base keys
        (machine_of engine (S.state store.old) (K.state keeper.old) no_flights)) }
    ensures within { feed.new.taken ≤ feed.new.limit }
    ensures fed_by { IsFedBy feed.new (I.gave input.new) }
    ensures took { (refused : Bool) → result.ending ≡ KeptEnding.Plain (Ending.Ran (Ok refused))
        → D.took digest.new (S.state store.new).asked }
{
    let mut engine = engine;
    let mut commit = CommitTo { keeper };
    let served = serve(
        alloc,
        tracing,
        flight,
        feed,
        input,
        &mut engine,
        store,
        &mut commit,
        out,
        trace,
        digest,
    );
    plainly(ended_with(served, engine.high()))
}

// Reads the first line, and serves the texts with the tables that are saved: all except the last line.
fn run_saved<I: Source, O: Sink, T: Sink, D: Digester, S: Saving, K: Salts>(
    alloc: Global,
    words: Words,
    input: &mut I,
    out: &mut O,
    trace: &mut T,
    digest: &mut D,
    store: &mut S,
    keeper: &mut K,
) -> KeptEnded
    requires fits { AreFit words.config }
    requires saves { words.config.save ≡ true }
    requires fresh { (S.state store.old).asked ≡ [] }
    requires took { D.took digest.old (S.state store.old).asked }
    ensures ran { RanSaved words.config words.flight words.trace result
        (outside_of (I.left input.old) (I.gave input.old) (O.written out.old) (T.written trace.old)
        (S.state store.old)
        (faults_of (I.faults input.old) (O.faults out.old) (T.faults trace.old)))
        (outside_of (I.left input.new) (I.gave input.new) (O.written out.new) (T.written trace.new)
        (S.state store.new)
        (faults_of (I.faults input.new) (O.faults out.new) (T.faults trace.new)))
        (K.state keeper.old) (K.state keeper.new) }
    ensures took { (refused : Bool) → result.ending ≡ KeptEnding.Plain (Ending.Ran (Ok refused))
        → D.took digest.new (S.state store.new).asked }
{
    let mut feed = Feed::new(words.config.max_input);
    match read_key(&mut feed, input) {
        Err(Halt::SourceFault) => kept_at(stopped(Stop::SourceFault), false, 0),
        Err(Halt::InputLimit) => kept_at(stopped(Stop::InputLimit), false, 0),
        Ok(FirstLine::Bad) => kept_at(KeptEnding::Plain(Ending::BadKey), false, 0),
        Ok(FirstLine::Last(key)) => {
            match start_saving::<BaseRevs, T, D, S, K>(
                alloc, words, &key, trace, digest, store, keeper,
            ) {
                Err(ended) => ended,
                Ok(engine) => plainly(ended_with(Ok(Tally::new()), engine.high())),
            }
        }
        Ok(FirstLine::Secret(key)) => {
            match start_saving::<BaseRevs, T, D, S, K>(
                alloc, words, &key, trace, digest, store, keeper,
            ) {
                Err(ended) => ended,
                Ok(engine) => serve_saving(
                    alloc,
                    words.trace,
                    words.flight,
                    engine,
                    &mut feed,
                    input,
                    out,
                    trace,
                    digest,
                    store,
                    keeper,
                ),
            }
        }
    }
}

// Serves the generated text instead, keeps none of its answers, and writes the summary, or the last line of a run that
// didn't come to its end.
fn save_generated<O: Sink, T: Sink, S: Saving, K: Salts>(
    alloc: Global,
    words: Words,
    seed: Seed,
    out: &mut O,
    trace: &mut T,
    store: &mut S,
    keeper: &mut K,
) -> Report
    requires fits { AreFit words.config }
    requires saves { words.config.save ≡ true }
    requires fresh { (S.state store.old).asked ≡ [] }
    ensures { SavedGenerated words.config words.flight words.trace seed
        (T.written trace.old) (T.written trace.new) (S.state store.old) (S.state store.new)
        (T.faults trace.old) (T.faults trace.new) (K.state keeper.old) (K.state keeper.new)
        (O.written out.old) (O.written out.new) (O.faults out.old) (O.faults out.new) result }
{
    let mut input = Generated::new(seed.start, seed.rows);
    let mut digest = TraceDigest::new();
    let ended = run_saved(
        alloc,
        words,
        &mut input,
        &mut Discard,
        trace,
        &mut digest,
        store,
        keeper,
    );
    conclude_kept(ended, digest, store, out)
}

/// Serves the input over a store of which nothing was asked, as `keep_top` does; without `--keep`, under keys of a salt that
/// the keeper draws, so that no two runs with one secret seal under one key. With `--save` its tables are saved: behind
/// each statement that changes them they are listed in a closing, all of which lies where a crash leaves it, and the keeper
/// holds its mark, before the statement is answered. A later run goes on from the mark that is held, however this one ended.
pub fn save_top<I: Source, O: Sink, T: Sink, S: Saving, K: Salts>(
    alloc: Global,
    words: &[String],
    input: &mut I,
    out: &mut O,
    trace: &mut T,
    store: &mut S,
    keeper: &mut K,
) -> Report
    requires fresh { (S.state store.old).asked ≡ [] }
    ensures ran { KeepsOrSaves (is_saved (map string_bytes words.now))
        (is_set (value_of saved_usage (map string_bytes words.now) (codes "keep")))
        (asked_for saved_usage (map string_bytes words.now))
        (saved_settings_of (map string_bytes words.now))
        (flight_of saved_usage (map string_bytes words.now))
        (IsTakenSaved (map string_bytes words.now))
        (is_traced saved_usage (map string_bytes words.now))
        (outside_of (I.left input.old) (I.gave input.old) (O.written out.old) (T.written trace.old)
        (S.state store.old)
        (faults_of (I.faults input.old) (O.faults out.old) (T.faults trace.old)))
        (outside_of (I.left input.new) (I.gave input.new) (O.written out.new) (T.written trace.new)
        (S.state store.new)
        (faults_of (I.faults input.new) (O.faults out.new) (T.faults trace.new)))
        (K.state keeper.old) (K.state keeper.new) result }
    ensures refused { ¬ IsTakenSaved (map string_bytes words.now) → Untouched
        (I.left input.old) (I.left input.new) (S.state store.old) (S.state store.new)
        × (K.state keeper.new ≡ K.state keeper.old) }
{
    let words = match read_saved_words(alloc, words) {
        Ok(words) => words,
        Err(error) => return refuse_words(error, out),
    };
    let common = words.common;
    if words.save {
        return match common.generated {
            None => {
                let none = &mut Undigested;
                let ended = run_saved(alloc, common, input, out, trace, none, store, keeper);
                close_kept(ended, out)
            }
            Some(seed) => save_generated(alloc, common, seed, out, trace, store, keeper),
        };
    }
    if words.keep {
        match common.generated {
            None => {
                let none = &mut Undigested;
                let ended = run_kept(alloc, common, input, out, trace, none, store, keeper);
                close_kept(ended, out)
            }
            Some(seed) => keep_generated(alloc, common, seed, out, trace, store, keeper),
        }
    } else {
        match common.generated {
            None => {
                let none = &mut Undigested;
                let ended = run_salted(alloc, common, input, out, trace, none, store, keeper);
                close_kept(ended, out)
            }
            Some(seed) => salt_generated(alloc, common, seed, out, trace, store, keeper),
        }
    }
}
