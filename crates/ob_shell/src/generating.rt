//! Runs over the text that is generated in place of the input.
ghost use Rattle.std.specs.Prelude.{◌≡◌, Bool, Ok, [], Some};
ghost use Rattle.ob_gen.specs.SummaryText.{summary_of, summary_text};
ghost use Rattle.ob_shell.specs.Generating.{RanGenerated, ConcludedBy, SummedUp};
ghost use Rattle.ob_words.specs.WordsRead.{AreWithin};

use crate::top::{Ended, close, run, status_of};
use ob_base::{Failed, Stop};
use ob_gen::{Digester, Discard, Generated, Summary, Tally, TraceDigest};
use ob_headline::{Ending, Report, Seed};
use ob_io::Sink;
use ob_store::BlockStore;
use ob_words::Words;
use std::alloc::Global;

// The summary of a run of which this was counted, and whose accesses were digested.
fn summary<S: BlockStore>(tally: Tally, digest: TraceDigest, store: &S) -> Summary
    requires { ⟦<TraceDigest as Digester>⟧.took digest (S.state store.now).asked }
    ensures { result ≡ summary_of tally (S.state store.now).asked }
{
    Summary {
        tally,
        accesses: store.count(),
        trace: digest.finish(),
    }
}

// Writes the summary of a run that came to the end of the text, in which a text was refused or none was.
pub(crate) fn sum_up<O: Sink, S: BlockStore>(
    ended: Ended,
    refused: bool,
    digest: TraceDigest,
    store: &S,
    out: &mut O,
) -> Report
    requires { ⟦<TraceDigest as Digester>⟧.took digest (S.state store.now).asked }
    ensures high { result.high ≡ ended.high }
    ensures summed { SummedUp refused
        (summary_text (summary_of ended.tally (S.state store.now).asked))
        (O.written out.old) (O.written out.new) (O.faults out.old) (O.faults out.new)
        result.status }
{
    let summary = summary(ended.tally, digest, store);
    let ending = match summary.write(out) {
        Ok(()) => Ending::Ran(Ok(refused)),
        Err(Failed) => Ending::Ran(Err(Stop::SinkFault)),
    };
    Report {
        status: status_of(ending),
        high: ended.high,
    }
}

// Writes what is written of a run: its summary, or its last line.
fn conclude<O: Sink, S: BlockStore>(
    ended: Ended,
    digest: TraceDigest,
    store: &S,
    out: &mut O,
) -> Report
    requires { (refused : Bool) → ended.ending ≡ Ending.Ran (Ok refused)
        → ⟦<TraceDigest as Digester>⟧.took digest (S.state store.now).asked }
    ensures high { result.high ≡ ended.high }
    ensures concluded { ConcludedBy ended.ending ended.quiet ended.tally (S.state store.now).asked
        (O.written out.old) (O.written out.new) (O.faults out.old) (O.faults out.new)
        result.status }
{
    match ended.ending {
        Ending::Ran(Ok(refused)) => sum_up(ended, refused, digest, store, out),
        Ending::Usage | Ending::BadKey | Ending::Ran(Err(_)) => close(ended, out),
    }
}

/// Serves the text that is generated from this seed, keeps none of its answers, and writes the summary, or the last line
/// of a run that didn't come to its end.
pub(crate) fn serve_generated<O: Sink, T: Sink, S: BlockStore>(
    alloc: Global,
    words: Words,
    seed: Seed,
    out: &mut O,
    trace: &mut T,
    store: &mut S,
) -> Report
    requires within { AreWithin words.config }
    requires fresh { (S.state store.old).asked ≡ [] }
    ensures { RanGenerated seed words.trace (Some words.config) words.flight
        (T.written trace.old) (T.written trace.new) (S.state store.old) (S.state store.new)
        (T.faults trace.old) (T.faults trace.new)
        (O.written out.old) (O.written out.new) (O.faults out.old) (O.faults out.new) result }
{
    let mut input = Generated::new(seed.start, seed.rows);
    let mut digest = TraceDigest::new();
    let ended = run(
        alloc,
        words,
        &mut input,
        &mut Discard,
        trace,
        &mut digest,
        store,
    );
    conclude(ended, digest, store, out)
}
