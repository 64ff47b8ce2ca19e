//! Runs that neither keep nor save their tables: each is under keys of a salt of its own.
ghost use Rattle.std.specs.Prelude.{◌≡◌, ◌≤◌, Bool, IfErr, IfOk, Ok, OnOk, Some, []};
ghost use Rattle.ob_headline.specs.Bases.{flying, fresh};
ghost use Rattle.ob_headline.specs.SaltedHeadline.{own_keys};
ghost use Rattle.ob_headline.specs.Words.{faults_of, outside_of};
ghost use Rattle.ob_reopen.specs.Keepers.{DrawsSalt};
ghost use Rattle.ob_shell.specs.Feeding.{IsFedBy};
ghost use Rattle.ob_shell.specs.Running.{IsQuiet, OutFailed, ServesAlone, Silenced, StopCause, is_quiet, stop_of};
ghost use Rattle.ob_shell.specs.Salting.{FailsToDraw, RanSalted, SaltedGenerated};
ghost use Rattle.ob_shell.specs.Top.{RanAfter, sink_of};
ghost use Rattle.ob_shell.specs.Traces.{Traced};
ghost use Rattle.ob_words.specs.WordsRead.{AreWithin};

use crate::feed::{Feed, Halt};
use crate::keeping::{KeptEnded, conclude_kept, kept_at, plainly, stopped};
use crate::key::{FirstLine, read_key};
use crate::session::Halted;
use crate::top::{ended_with, serve_with};
use ob_base::Stop;
use ob_gen::{Digester, Discard, Generated, Tally, TraceDigest};
use ob_headline::{Ending, KeptEnding, Report, Seed};
use ob_io::{Sink, Source};
use ob_reopen::Salts;
use ob_seal::Keys;
use ob_store::BlockStore;
use ob_vault::{BaseRevs, Revisions};
use ob_words::Words;
use std::alloc::Global;

// The salt of a run, or how the run ends where the keeper fails.
fn draw_salt<K: Salts>(keeper: &mut K) -> Result<[u8; 16], KeptEnded>
    ensures ok { IfOk result (λ salt.
        DrawsSalt (Ok salt) (K.state keeper.old) (K.state keeper.new)) }
    ensures err { IfErr result (λ ended.
        FailsToDraw ended (K.state keeper.old) (K.state keeper.new)) }
{
    match keeper.salt() {
        Ok(salt) => Ok(salt),
        Err(_) => Err(kept_at(KeptEnding::KeeperFault, false, 0)),
    }
}

// Serves what follows the first line under keys of this salt.
fn serve_salted<I: Source, O: Sink, T: Sink, D: Digester, S: BlockStore>(
    alloc: Global,
    words: Words,
    secret: &[u8; 32],
    salt: &[u8; 16],
    feed: &mut Feed,
    input: &mut I,
    out: &mut O,
    trace: &mut T,
    digest: &mut D,
    store: &mut S,
) -> (Result<Tally, Halted>, u64)
    requires within { AreWithin words.config }
    requires taken { feed.old.taken ≤ feed.old.limit }
    requires fed_by { IsFedBy feed.old (I.gave input.old) }
    requires fresh { (S.state store.old).asked ≡ [] }
    requires took { D.took digest.old (S.state store.old).asked }
    ensures ran { RanAfter ⟦<BaseRevs as Revisions>⟧.state
        (sink_of words.trace (T.written trace.old) (T.written trace.new))
        (flying words.flight (fresh (Some words.config))) (own_keys secret.now salt.now)
        (Some secret.now) feed.old feed.new
        (I.left input.old) (I.left input.new) (I.gave input.new)
        (O.written out.old) (O.written out.new)
        (S.state store.old) (S.state store.new) result.1
        (OutFailed (is_quiet result.0) (O.faults out.old) (O.faults out.new)) (stop_of result.0) }
    ensures within { feed.new.taken ≤ feed.new.limit }
    ensures fed_by { IsFedBy feed.new (I.gave input.new) }
    ensures traced { Traced words.trace (S.state store.old).asked (S.state store.new).asked
        (T.written trace.old) (T.written trace.new) (IsQuiet result.0) }
    ensures cause { StopCause (ServesAlone words.flight (fresh (Some words.config)).public)
        (faults_of (I.faults input.old) (O.faults out.old) (T.faults trace.old))
        (faults_of (I.faults input.new) (O.faults out.new) (T.faults trace.new))
        (stop_of result.0) }
    ensures quiet { Silenced (is_quiet result.0)
        (faults_of (I.faults input.old) (O.faults out.old) (T.faults trace.old))
        (faults_of (I.faults input.new) (O.faults out.new) (T.faults trace.new)) }
    ensures took { OnOk result.0 (D.took digest.new (S.state store.new).asked) }
{
    match Keys::derive_salted(alloc, secret, salt, &[]) {
        Err(_) => {
            let stop = Stop::NoMemory;
            (Err(Halted { stop, quiet: false }), 0)
        }
        Ok(keys) => serve_with(alloc, words, keys, feed, input, out, trace, digest, store),
    }
}

/// Reads the first line, has the keeper draw a salt, and serves the texts: all except the last line. Before the salt is drawn
/// the store is asked for nothing.
pub(crate) fn run_salted<I: Source, O: Sink, T: Sink, D: Digester, S: BlockStore, K: Salts>(
    alloc: Global,
    words: Words,
    input: &mut I,
    out: &mut O,
    trace: &mut T,
    digest: &mut D,
    store: &mut S,
    keeper: &mut K,
) -> KeptEnded
    requires within { AreWithin words.config }
    requires fresh { (S.state store.old).asked ≡ [] }
    requires took { D.took digest.old (S.state store.old).asked }
    ensures ran { RanSalted words.config words.flight words.trace result
        (outside_of (I.left input.old) (I.gave input.old) (O.written out.old) (T.written trace.old)
        (S.state store.old)
        (faults_of (I.faults input.old) (O.faults out.old) (T.faults trace.old)))
        (outside_of (I.left input.new) (I.gave input.new) (O.written out.new) (T.written trace.new)
        (S.state store.new)
        (faults_of (I.faults input.new) (O.faults out.new) (T.faults trace.new)))
        (K.state keeper.old) (K.state keeper.new) }
    ensures took { (refused : Bool) → result.ending ≡ KeptEnding.Plain (Ending.Ran (Ok refused))
        → D.took digest.new (S.state store.new).asked }
{
    let mut feed = Feed::new(words.config.max_input);
    match read_key(&mut feed, input) {
        Err(Halt::SourceFault) => kept_at(stopped(Stop::SourceFault), false, 0),
        Err(Halt::InputLimit) => kept_at(stopped(Stop::InputLimit), false, 0),
        Ok(FirstLine::Bad) => kept_at(KeptEnding::Plain(Ending::BadKey), false, 0),
        Ok(FirstLine::Last(_)) => match draw_salt(keeper) {
            Err(ended) => ended,
            Ok(_) => plainly(ended_with(Ok(Tally::new()), 0)),
        },
        Ok(FirstLine::Secret(key)) => match draw_salt(keeper) {
            Err(ended) => ended,
            Ok(salt) => {
                let (ran, high) = serve_salted(
                    alloc, words, &key, &salt, &mut feed, input, out, trace, digest, store,
                );
                plainly(ended_with(ran, high))
            }
        },
    }
}

/// Serves the generated text instead, keeps none of its answers, and writes the summary, or the last line of a run that
/// didn't come to its end.
pub(crate) fn salt_generated<O: Sink, T: Sink, S: BlockStore, K: Salts>(
    alloc: Global,
    words: Words,
    seed: Seed,
    out: &mut O,
    trace: &mut T,
    store: &mut S,
    keeper: &mut K,
) -> Report
    requires within { AreWithin words.config }
    requires fresh { (S.state store.old).asked ≡ [] }
    ensures { SaltedGenerated words.config words.flight words.trace seed
        (T.written trace.old) (T.written trace.new) (S.state store.old) (S.state store.new)
        (T.faults trace.old) (T.faults trace.new) (K.state keeper.old) (K.state keeper.new)
        (O.written out.old) (O.written out.new) (O.faults out.old) (O.faults out.new) result }
{
    let mut input = Generated::new(seed.start, seed.rows);
    let mut digest = TraceDigest::new();
    let ended = run_salted(
        alloc,
        words,
        &mut input,
        &mut Discard,
        trace,
        &mut digest,
        store,
        keeper,
    );
    conclude_kept(ended, digest, store, out)
}
