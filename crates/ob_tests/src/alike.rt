//! A caller outside: what follows for two sessions from what is promised of each.
ghost use Rattle.std.specs.Prelude.{◌≡◌, ◌⊎◌, [], IsSome, None, false, map, string_bytes};
ghost use Rattle.ob_headline.specs.Bases.{public_with};
ghost use Rattle.ob_headline.specs.Failures.{failures};
ghost use Rattle.ob_headline.specs.Reruns.{Alike, EndsWell, ShellRun, any_counted, stated_in};
ghost use Rattle.ob_headline.specs.Settings.{flight_of, settings_of};
ghost use Rattle.ob_headline.specs.Usage.{usage};
ghost use Rattle.ob_headline.specs.Words.{faults_of, outside_of};
ghost use Rattle.ob_shell.specs.Generating.{asked_for};

use ob_headline::{Report, padded_reruns_ask_the_same, reruns_ask_the_same};
use ob_io::{Sink, Source};
use ob_shell::shell_top;
use ob_store::BlockStore;
use std::alloc::Global;

/// Serves two inputs with the same words, each over a store of its own. Where the words have the input read, both came to
/// their end and no text was answered that a store failed, and the statements that they spell differ in their literals
/// alone and have the same early refusals, both sessions asked the same of their stores, if none of the statements is a
/// SELECT of rows or the words have `--pad`; with `--batch`, if texts that spell none come before the same ones, too; and
/// without `--flight`.
pub fn sessions_ask_the_same<I: Source, O: Sink, T: Sink, S: BlockStore>(
    alloc: Global,
    words: &[String],
    input: &mut I,
    out: &mut O,
    trace: &mut T,
    store: &mut S,
    input_too: &mut I,
    out_too: &mut O,
    trace_too: &mut T,
    store_too: &mut S,
) -> (Report, Report)
    requires fresh { (S.state store.old).asked ≡ [] }
    requires fresh_too { (S.state store_too.old).asked ≡ [] }
    ensures { asked_for usage (map string_bytes words.now) ≡ None
        → (a : ShellRun (map string_bytes words.now)
        (outside_of (I.left input.old) (I.gave input.old) (O.written out.old) (T.written trace.old)
        (S.state store.old)
        (faults_of (I.faults input.old) (O.faults out.old) (T.faults trace.old)))
        (outside_of (I.left input.new) (I.gave input.new) (O.written out.new) (T.written trace.new)
        (S.state store.new)
        (faults_of (I.faults input.new) (O.faults out.new) (T.faults trace.new))) result.0)
        × (b : ShellRun (map string_bytes words.now)
        (outside_of (I.left input_too.old) (I.gave input_too.old) (O.written out_too.old)
        (T.written trace_too.old) (S.state store_too.old)
        (faults_of (I.faults input_too.old) (O.faults out_too.old) (T.faults trace_too.old)))
        (outside_of (I.left input_too.new) (I.gave input_too.new) (O.written out_too.new)
        (T.written trace_too.new) (S.state store_too.new)
        (faults_of (I.faults input_too.new) (O.faults out_too.new) (T.faults trace_too.new)))
        result.1)
        × (flight_of usage (map string_bytes words.now) ≡ None
        → EndsWell result.0.status (failures a.story.answers)
        → EndsWell result.1.status (failures b.story.answers)
        → (any_counted (stated_in (public_with (settings_of usage (map string_bytes words.now)))
        a.story.spelt) ≡ false)
        ⊎ IsSome (public_with (settings_of usage (map string_bytes words.now))).pad
        → Alike (public_with (settings_of usage (map string_bytes words.now))) 0 None
        (stated_in (public_with (settings_of usage (map string_bytes words.now))) a.story.spelt)
        (stated_in (public_with (settings_of usage (map string_bytes words.now))) b.story.spelt)
        → (S.state store.new).asked ≡ (S.state store_too.new).asked) }
{
    reruns_ask_the_same();
    padded_reruns_ask_the_same();
    let first = shell_top(alloc, words, input, out, trace, store);
    let second = shell_top(alloc, words, input_too, out_too, trace_too, store_too);
    (first, second)
}
