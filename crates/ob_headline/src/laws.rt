//! What follows of whole runs, and how bytes are cut into texts.
ghost use Rattle.std.specs.Prelude.{◌≡◌, ◌≢◌, ◌<◌, ◌≤◌, Bool, List, [], ℕ, IsSome, IsTrue, None, Option, Some, false, true, length, slice_get};
ghost use Rattle.clap.specs.Words.{App, Text};
ghost use Rattle.ob_base.specs.declared.config.Config.{Config};
ghost use Rattle.ob_base.specs.declared.config.Public.{Public};
ghost use Rattle.ob_reopen.specs.declared.mark.Mark.{Mark};
ghost use Rattle.ob_reopen.specs.declared.mark.Mark.TheVariants.{Fresh};
ghost use Rattle.ob_base.specs.declared.seen.Seen.{Seen};
ghost use Rattle.ob_headline.specs.Bases.{Base, FromEach, drawing, flying, fresh};
ghost use Rattle.ob_headline.specs.Batches.{Joins};
ghost use Rattle.ob_headline.specs.Headline.{Headline};
ghost use Rattle.ob_headline.specs.Keeping.{BeginsFrom};
ghost use Rattle.ob_headline.specs.Leaves.{ReadsDraws};
ghost use Rattle.ob_headline.specs.KeptMarks.{HeldAfter, KeptRun};
ghost use Rattle.ob_headline.specs.KeptRuns.{AnswerAsOne, AnyRun, AreChained, GoOn, NumberOn, OneRun};
ghost use Rattle.ob_headline.specs.OneByOne.{OneByOne};
ghost use Rattle.ob_headline.specs.Pieces.{BeginsWith};
ghost use Rattle.ob_headline.specs.Plainly.{IsUnhindered, RunsPlainly};
ghost use Rattle.ob_headline.specs.Reruns.{Alike, AlikeSoFar, AsksAsShown, AsksByKinds, EndsWell, GoOnFromOne, IsPlain};
ghost use Rattle.ob_headline.specs.Reruns.{OneBegins, ServesAlone, ShowAlike, ShowTheSame, SomeRun, any_counted, asked_by, failures_of};
ghost use Rattle.ob_headline.specs.Reruns.{keys_by, plainly, positions_by, seen_by, stated_of};
ghost use Rattle.ob_headline.specs.SaltedHeadline.{own_keys};
ghost use Rattle.ob_headline.specs.SaltedRuns.{AnySalted, HaveSalts, SealsIn};
ghost use Rattle.ob_headline.specs.SavedRuns.{AnswerInOne, AnySaved, GoOnSaved, HaveOwnSalts, IsOfOther, IsToldWrong};
ghost use Rattle.ob_headline.specs.SavedRuns.{LeavesHeld, OneSaved, SavedRun, Seals, SealsAlone, saved_secret};
ghost use Rattle.ob_headline.specs.Saving.{BeginsSaved, RestsAt};
ghost use Rattle.ob_headline.specs.Settings.{IsTaken, IsTakenSaved, MeddleParses, flight_of};
ghost use Rattle.ob_headline.specs.Shown.{AskedTheSame, IsBegun, IsBetween, OfIndex, ShowNumbersAlike, ShowsBehind};
ghost use Rattle.ob_headline.specs.Shown.{ShowsBetween, ShowsKept, ShowsSealed, WriteOwn, Wrote, asked_behind};
ghost use Rattle.ob_headline.specs.Shown.{public_behind};
ghost use Rattle.ob_headline.specs.Texts.{is_over, rest_of, texts_of};
ghost use Rattle.ob_headline.specs.Usage.{is_kept, is_saved, kept_usage, saved_usage};
ghost use Rattle.ob_headline.specs.Words.{Outside};
ghost use Rattle.ob_headline.specs.declared.ending.KeptEnding.TheVariants.{OtherKey};
ghost use Rattle.ob_headline.specs.declared.ending.Report.{Report};
ghost use Rattle.ob_headline.specs.declared.flight.FlightSettings.{FlightSettings};
ghost use Rattle.ob_mean.specs.Batches.{Gathering, is_cut};
ghost use Rattle.ob_mean.specs.Lawful.{Lawful};
ghost use Rattle.ob_mean.specs.Verdict.{Tables};
ghost use Rattle.ob_reopen.specs.Keepers.{KeeperState};
ghost use Rattle.ob_seal.specs.Draws.{draw_of};
ghost use Rattle.ob_seal.specs.KeySet.{KeySet, pair_at};
ghost use Rattle.ob_sql.specs.declared.stmt.Stmt.{Stmt};
ghost use Rattle.ob_store.specs.State.{KeptRegion, StoreState};
ghost use Rattle.ob_token.specs.Cutting.{cut};
ghost use Rattle.ob_vault.specs.Tied.{at_of};

/// The texts that a session cuts, a byte at a time, are the pieces that `split` finds in its bytes, one after the
/// other, while none comes to the limit of a text: the first piece is the first text, or none where it holds nothing,
/// and the others are those of the bytes after it.
pub fn texts_are_pieces()
    ensures { (bytes : List ℕ) → is_over (rest_of [] bytes) ≡ false
        → BeginsWith bytes (texts_of [] bytes) (rest_of [] bytes) (cut bytes) }
{}

/// Of a statement that was not cut off, accesses no index, and is no SELECT of rows or has its result padded, nothing is
/// seen but whether it was refused before any access: of CREATE, INSERT, UPDATE, DELETE, DROP and SELECT of totals no row
/// and no literal has a part in it, and of a padded SELECT of rows neither has the number of rows selected. Where INSERTs
/// are served together, it is seen, too, whether it was served with one before it, which follows from what is gathered
/// before it, its skeleton and that refusal.
pub fn shows_its_refusal_alone()
    ensures alone { (p : Public) (m : ℕ) (stmt : Stmt) (here : Seen) → p.batch ≡ None
        → Lawful p m stmt here → IsPlain p stmt → is_cut here.end ≡ false
        → here ≡ plainly p m None stmt }
    ensures gathered { (p : Public) (m : ℕ) (g : Option Gathering) (stmt : Stmt) (here : Seen)
        → Lawful p m stmt here → Joins p m g stmt here → IsPlain p stmt
        → is_cut here.end ≡ false → here ≡ plainly p m g stmt }
{}

/// However a run ends and whatever the store does, as long as none of its statements flies and no text was answered that
/// the store failed, its accesses are a first part of one list, which follows from the settings, the skeletons of the
/// statements, which of these were refused before any access, and what is seen of those that access an index and of SELECTs
/// of rows whose results aren't padded: by the words of any program, from no tables or from those of an earlier run. Where
/// INSERTs are served together, it follows, too, from which statements come right after a text that is none, and so go
/// into no batch with those before.
pub fn asks_as_shown()
    ensures { (one : SomeRun) → ServesAlone one → failures_of one ≡ 0 → AsksAsShown one }
{}

/// So of two such runs that go on from the same, whose statements show the same as far as both go, one asks a first part of
/// what the other asks, over any stores, however they end, and whatever their literals and their rows.
pub fn one_asks_a_first_part()
    ensures { (a b : SomeRun) → ServesAlone a → ServesAlone b → GoOnFromOne a b
        → failures_of a ≡ 0 → failures_of b ≡ 0
        → AlikeSoFar a.base.public a.base.count None None (stated_of a) (seen_by a) (stated_of b)
        (seen_by b)
        → OneBegins (asked_by a) (asked_by b) }
{}

/// In any run, over any store and however it ends, the leaves of indexes that are read are those of draws, which are made
/// of the secret, and no draw is read twice, whatever the statements, their values and their rows.
pub fn leaves_are_draws()
    ensures { (one : SomeRun)
        → ReadsDraws (draw_of (keys_by one)) (positions_by one) (seen_by one) }
{}

/// Two runs that go on from the same, over any stores, that came to their end, ask the same where the same is seen of their
/// statements, also where SELECTs fly, alike in both: which ones fly together follows from what is seen and from which come
/// right after a text that is none.
pub fn flown_runs_ask_the_same()
    ensures { (a b : SomeRun) → GoOnFromOne a b → a.report.status ≤ 1 → b.report.status ≤ 1
        → ShowTheSame a b → asked_by a ≡ asked_by b }
{}

/// A run of which no statement flies, as none does without `--flight`, serves them one by one: one text at most was begun, what
/// they ask follows from what is public and what is seen of each, one after the other, and without batches each text was
/// answered before more was read.
pub fn unflown_runs_go_one_by_one()
    ensures { (one : SomeRun) → ServesAlone one → OneByOne one }
{}

/// Over a store that tells what it holds, gave what was written and failed at no statement, a run whose words are taken, of
/// which no statement flies, whose input keeps to the limits, and whose source and sinks don't fail, is the run of the
/// plain machine, unless it ends for want of memory: each text of its input is answered as SQL answers it over plain
/// tables, from none or from those that rested, it printed these answers, asked and traced what they ask by their meaning,
/// and has their status.
pub fn unhindered_runs_are_plain()
    ensures { (one : SomeRun) (input : List ℕ) → ServesAlone one → IsUnhindered one input
        → FromEach one.base (λ s. RunsPlainly one input (drawing (keys_by one) s)) }
{}

/// Two runs that go on from the same, over any stores, that came to their end, of which no statement flies, and no text was
/// answered that the store failed, ask the same, whatever their literals and their rows: if none of their statements is a
/// SELECT of rows, none accesses an index, their skeletons are the same, the same ones are refused before any access, and,
/// where INSERTs are served together, the same ones come right after a text that is none.
pub fn reruns_ask_the_same()
    ensures { (a b : SomeRun) → ServesAlone a → ServesAlone b → GoOnFromOne a b
        → EndsWell a.report.status (failures_of a) → EndsWell b.report.status (failures_of b)
        → any_counted (stated_of a) ≡ false
        → Alike a.base.public a.base.count None (stated_of a) (stated_of b)
        → asked_by a ≡ asked_by b }
{}

/// Two such runs with `--pad`, over any stores, ask the same, whatever their literals and their rows and however many rows
/// are selected: if none of their statements accesses an index, their skeletons are the same, the same ones are refused
/// before any access, and, where INSERTs are served together, the same ones come right after a text that is none.
pub fn padded_reruns_ask_the_same()
    ensures { (a b : SomeRun) → ServesAlone a → ServesAlone b → GoOnFromOne a b
        → EndsWell a.report.status (failures_of a) → EndsWell b.report.status (failures_of b)
        → IsSome a.base.public.pad
        → Alike a.base.public a.base.count None (stated_of a) (stated_of b)
        → asked_by a ≡ asked_by b }
{}

/// The same over the whole language, where the same is seen of each statement that accesses an index, and of each SELECT of
/// rows that isn't padded: then of all statements the same is seen, and the runs ask the same.
pub fn reruns_show_the_same()
    ensures { (a b : SomeRun) → ServesAlone a → ServesAlone b → GoOnFromOne a b
        → EndsWell a.report.status (failures_of a) → EndsWell b.report.status (failures_of b)
        → ShowAlike a.base.public a.base.count (stated_of a) (seen_by a) (stated_of b) (seen_by b)
        → (seen_by a ≡ seen_by b) × (asked_by a ≡ asked_by b) }
{}

/// The mark that a keeper holds, where it tells, once a run with `--keep` ended. Before the first statement it is the one
/// that was held. After a session that came to its end, and whose tables were closed, it is the one of that closing, and
/// else the store is in use. Where the keeper failed it may have changed the mark, or not.
pub fn marks_are_held()
    ensures { (words : List Text) (old new : Outside) (keeper0 keeper1 : KeeperState)
        (report : Report) (run : KeptRun words old new keeper0 keeper1 report)
        (held : Mark) → keeper0.held ≡ Some held → HeldAfter run.ran held }
{}

/// Runs with one secret and the same words, `--keep` among them and `--flight` not, that came to their end, the first over
/// a fresh mark and each later one over the mark and the store that the one before it left, where that tells, gave what was
/// written and failed at no statement: together they answer as one run does over all their texts, in which the same INSERTs
/// are served together. Only that so many accesses were asked that a statement is refused for it may come at another place.
pub fn runs_answer_as_one()
    ensures { (words : List Text) → is_kept words ≡ true → flight_of kept_usage words ≡ None
        → (secret : List ℕ) (kept : ℕ → Option KeptRegion) (runs : List (OneRun words))
        → GoOn secret (Some Fresh) kept runs → AnswerAsOne secret runs }
{}

/// The numbers of writes, which count on from where a run begins, go on over all runs of one keeper that tells, the first
/// over a fresh mark and each later one over the mark that the one before it left, by whatever words and over whatever
/// stores, whatever became of them: those of a run are greater than those of all runs before it.
pub fn numbers_go_on()
    ensures { (runs : List AnyRun) → AreChained (Some Fresh) runs → NumberOn 0 runs }
{}

/// Whatever a store answers and however a run ends, where no statement flies, no text was answered that the store failed,
/// and each statement accesses no index, and is no SELECT of rows or has its result padded, it asks a first part of what
/// follows from the skeletons of its statements, and from which are refused before any access, alone: from no tables or
/// from those of an earlier run, by the words of any program, with `--meddle` among them or without.
pub fn asks_by_kinds()
    ensures taken { (base : Base) (keys : List ℕ → KeySet) (app : App) (words : List Text)
        (tracing : Bool) (old new : Outside) (report : Report)
        (run : Headline base keys (IsTaken app words) tracing old new report) → AsksByKinds run }
    ensures meddled { (base : Base) (keys : List ℕ → KeySet) (words : List Text)
        (tracing : Bool) (old new : Outside) (report : Report)
        (run : Headline base keys (MeddleParses words) tracing old new report) → AsksByKinds run }
    ensures saved { (base : Base) (keys : List ℕ → KeySet) (words : List Text)
        (tracing : Bool) (old new : Outside) (report : Report)
        (run : Headline base keys (IsTakenSaved words) tracing old new report) → AsksByKinds run }
{}

/// Where none flies, each statement of a run that accesses no index writes to the regions that it makes, and to no other,
/// and one that accesses an index to regions of an index. In any run, after a statement, or after the flight that it was
/// in, nothing is written to a region that was made by then and is no index's. So it is whatever the store does and however
/// the run ends.
pub fn statements_write_their_own()
    ensures own { (one : SomeRun) → ServesAlone one → WriteOwn one.base.public (seen_by one) }
    ensures behind { (one : SomeRun) (k i region place : ℕ)
        → region < (public_behind one k).next_region
        → (OfIndex (public_behind one k).tables region → ⊥) → Wrote (asked_by one) i region place
        → i < length (asked_behind one k) }
{}

/// Over a store that tells what it holds, however a run ends, each block that lies in a live region that the run made is
/// sealed for its place, under a number that is that of a write to it, and of no other write, of this run or of an earlier
/// one. So it is at the end; after any of the accesses, if the region is live to the end, where the place isn't written
/// again; and so, after each statement, or after the flight that it was in, of all blocks of the regions that were made
/// by then, are no index's, and are live to the end.
pub fn blocks_are_sealed_alone()
    ensures ends { (one : SomeRun) → IsBegun one.base → ShowsSealed one }
    ensures between { (one : SomeRun) → IsBegun one.base → IsTrue one.old.store.tells
        → (between : StoreState) → IsBetween one between → ShowsBetween one between }
    ensures behind { (one : SomeRun) → IsBegun one.base → IsTrue one.old.store.tells
        → (between : StoreState) → IsBetween one between
        → (k : ℕ) → between.asked ≡ asked_behind one k → ShowsBehind one k between }
{}

/// What the statements of a run go on from is as the laws of blocks ask: no tables, or those of a closing that was opened,
/// and however SELECTs fly.
pub fn runs_begin_behind_earlier_ones()
    ensures fresh { (settings : Option Config) → IsBegun (fresh settings) }
    ensures kept { (mark : Mark) (config : Config) (keys : KeySet) (base : Base)
        (old new : StoreState) → BeginsFrom mark config keys base old new → IsBegun base }
    ensures saved { (mark : Mark) (config : Config) (secret salt : List ℕ) (keys : KeySet)
        (base : Base) (old new : StoreState)
        → BeginsSaved mark config secret salt keys base old new → IsBegun base }
    ensures flown { (flight : Option FlightSettings) (base : Base) → IsBegun base
        → IsBegun (flying flight base) }
{}

/// So it is once a run with `--keep` ended, over a store that tells: of the blocks of its statements and of its closing.
pub fn kept_blocks_are_sealed_alone()
    ensures { (words : List Text) (old new : Outside) (keeper0 keeper1 : KeeperState)
        (report : Report) (run : KeptRun words old new keeper0 keeper1 report)
        → ShowsKept run.ran }
{}

/// Where two runs that go on from the same asked the same, and no call failed, the blocks that lie at one place in both
/// stores differ in the secret and the rows alone: they are sealed under one number.
pub fn blocks_are_numbered_alike()
    ensures { (a b : SomeRun) → AskedTheSame a b → ShowNumbersAlike a b }
{}

/// The mark that a keeper holds, where it tells, once a run with `--save` ended, in whichever way and whichever calls of
/// the store and of the keeper failed: the one that was held, or `Begun` in place of a fresh one, or, after a session, one
/// that names tables which this run saved, under its own salt. If no statement was served, what rested for the mark that
/// was held rests for it.
pub fn saved_marks_are_held()
    ensures { (words : List Text) (old new : Outside) (keeper0 keeper1 : KeeperState)
        (report : Report) (run : SavedRun words old new keeper0 keeper1 report)
        (held : Mark) → keeper0.held ≡ Some held → LeavesHeld run.ran held }
{}

/// A run with `--save` whose secret isn't that of the run which left the mark that is held, as its check value tells, ends
/// before the store is asked for anything: with `OtherKey`, unless the tables have another pack or the keeper failed. So a
/// wrong secret isn't taken for a change. Where tables rest for the mark under its secret, a run doesn't end with `OtherKey`.
pub fn wrong_secrets_are_told()
    ensures wrong { (words : List Text) (old new : Outside) (keeper0 keeper1 : KeeperState)
        (report : Report) (run : SavedRun words old new keeper0 keeper1 report)
        (secret : List ℕ) → saved_secret run.ran ≡ Some secret
        → (held : Mark) → keeper0.held ≡ Some held → IsOfOther secret held
        → IsToldWrong run.ending old.store new.store }
    ensures own { (words : List Text) (old new : Outside) (keeper0 keeper1 : KeeperState)
        (report : Report) (run : SavedRun words old new keeper0 keeper1 report)
        (secret : List ℕ) → saved_secret run.ran ≡ Some secret
        → (held : Mark) → keeper0.held ≡ Some held
        → (tables : Tables) → RestsAt secret held old.store.kept tables
        → run.ending ≢ OtherKey }
{}

/// Runs with the same words, `--save` among them and `--flight` not, and of one secret, each ended in any way, the first
/// over a fresh mark and each later one over the mark and the regions that the one before it left, where the store tells
/// and gave what was written: they answer as one run does over the texts that took effect, which are those that were
/// answered otherwise than that the store had failed, and for each run maybe one more, with INSERTs after it that are
/// served together with it, and what rests then is what that run leaves. Only that so many accesses were asked that a
/// statement is refused for it may come at another place.
pub fn saved_runs_answer_as_one()
    ensures { (words : List Text) → is_saved words ≡ true → flight_of saved_usage words ≡ None
        → (secret : List ℕ) (kept : ℕ → Option KeptRegion) (runs : List (OneSaved words))
        → GoOnSaved secret (Some Fresh) kept runs → AnswerInOne secret (Some Fresh) kept runs }
{}

/// Of all runs with `--save` to which the keeper gave distinct salts, by whatever words, over whatever stores and marks,
/// and whatever became of them, no two writes seal a block under one salt and one number. Each goes to a region that its
/// run made, whose keys are those of its run's salt, and each block that lies in such a region once the run ended, over a
/// store that tells, is sealed by one of them.
pub fn saved_numbers_are_apart()
    ensures apart { (runs : List AnySaved) → HaveOwnSalts runs → (i j k l : ℕ) (a b : AnySaved)
        (salt : Option (List ℕ)) (number : ℕ) → slice_get runs i ≡ Some a
        → slice_get runs j ≡ Some b → Seals a.one.run.ran k salt number
        → Seals b.one.run.ran l salt number → (i ≡ j) × (k ≡ l) }
    ensures alone { (words : List Text) (old new : Outside) (keeper0 keeper1 : KeeperState)
        (report : Report) (run : SavedRun words old new keeper0 keeper1 report)
        → SealsAlone run.ran }
{}

/// So it is of all runs of `oblidb` but those with `--keep`, to which the keeper gave distinct salts: no two writes, of runs
/// that save their tables or of runs that don't, seal a block under one salt and one number, whatever their secrets. And each
/// block of a run that neither keeps nor saves them is by the keys of its own salt.
pub fn salted_numbers_are_apart()
    ensures apart { (runs : List AnySalted) → HaveSalts runs → (i j k l : ℕ) (a b : AnySalted)
        (salt : Option (List ℕ)) (number : ℕ) → slice_get runs i ≡ Some a
        → slice_get runs j ≡ Some b → SealsIn a k salt number → SealsIn b l salt number
        → (i ≡ j) × (k ≡ l) }
    ensures alone { (secret salt : List ℕ) (region place number : ℕ)
        → (pair_at (own_keys secret salt) (at_of region place number)).salt ≡ Some salt }
{}
