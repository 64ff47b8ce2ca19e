//! Laws of the definitions that the engine's contracts stand on.
ghost use Rattle.std.specs.Prelude.{◌≡◌, ◌≤◌, ◌<◌, ◌++◌, ℕ, Bool, true, List, Some, None, length, map, filter};
ghost use Rattle.ob_base.specs.declared.config.Public.{Public};
ghost use Rattle.ob_base.specs.Limits.{buffered_blocks};
ghost use Rattle.ob_row.specs.Bags.{Same};
ghost use Rattle.ob_row.specs.Results.{large_slots, continuous_slots, hash_slots, unplaced, joined};
ghost use Rattle.ob_row.specs.Rows.{Row, AreDistinct, pairs};
ghost use Rattle.ob_row.specs.Slots.{Slots, rows, selected, small_slots, is_consecutive};
ghost use Rattle.ob_sql.specs.declared.stmt.Stmt.{Stmt};
ghost use Rattle.ob_mean.specs.Verdict.{Draws, Tables};
ghost use Rattle.ob_base.specs.declared.schema.Table.{Table};
ghost use Rattle.ob_base.specs.Stored.{AreApart, headings};
ghost use Rattle.ob_verdict.specs.Bagwise.{SessionsAreBagwise};
ghost use Rattle.ob_verdict.specs.Alike.{AreAlike, OrderIsNothing};
ghost use Rattle.ob_verdict.specs.Accepted.{PlacesFit, TotalsPlacesFit, JoinsFit, SetsFit, ConditionsFit, BucketsFit, NamesFlat};
ghost use Rattle.ob_verdict.specs.Moving.{Moves, CreatesNew, DropsOne};
ghost use Rattle.ob_verdict.specs.Full.{FullIsLawful};
ghost use Rattle.ob_verdict.specs.OneByOne.{BatchesAnswerAlike};
ghost use Rattle.ob_verdict.specs.Laws.{SettlesAsStep, KeepsInPlace, ShowsKindAlone, AccessShowsLeaf, PaddedShowsKind, PlanIsWhole, ShowsPlanAlone, CheapestAccepts, CheapestShows, ShowsNotConsecutive, SeenIsLawful, CutIsLawful, JoinedIsLawful, PrintsAnswer};

/// Being the same bag is an equivalence, and is kept where lists are joined, mapped and filtered.
pub fn bags_are_kept<A, B>()
    ensures same { (xs : List A) → Same xs xs }
    ensures turned { (xs ys : List A) → Same xs ys → Same ys xs }
    ensures chained { (xs ys zs : List A) → Same xs ys → Same ys zs → Same xs zs }
    ensures joined { (xs ys us vs : List A) → Same xs ys → Same us vs → Same (xs ++ us) (ys ++ vs) }
    ensures mapped { (f : A → B) (xs ys : List A) → Same xs ys → Same (map f xs) (map f ys) }
    ensures filtered { (p : A → Bool) (xs ys : List A) → Same xs ys →
        Same (filter p xs) (filter p ys) }
{}

/// The tables in place and the tables as bags go on alike, unless the stash of an index is full.
pub fn settles_as_step()
    ensures { (d : Draws) (p : Public) (m : ℕ) (ts : Tables) (stmt : Stmt) →
        SettlesAsStep d p m ts stmt }
{}

/// The answers of a session over tables in place are SQL's answers over the same tables as bags, and so are the tables
/// after it, until 2^63 accesses were asked or a stash is full; where a plan is forced or results are padded, a SELECT of rows may be
/// refused for that alone.
pub fn sessions_are_bagwise()
    ensures { SessionsAreBagwise }
{}

/// Where the store never fails, a session whose INSERTs are served together answers what it answers one by one, and leaves the
/// same tables, slot by slot, until 2^63 accesses were asked.
pub fn batches_answer_alike()
    ensures { BatchesAnswerAlike }
{}

/// A statement leaves the tables in place, with as many slots as they are to have, distinct primary keys, columns that
/// name their tables, and indexes that stand.
pub fn keeps_in_place()
    ensures { (d : Draws) (p : Public) (m : ℕ) (ts : Tables) (stmt : Stmt) →
        KeepsInPlace d p m ts stmt }
{}

/// What is seen of a statement tells no more than its kind, the number of its rows, its plan and a leaf.
pub fn seen_laws()
    ensures kind_alone { ShowsKindAlone }
    ensures leaf { AccessShowsLeaf }
    ensures padded { PaddedShowsKind }
    ensures plan_is_whole { PlanIsWhole }
    ensures plan_alone { ShowsPlanAlone }
    ensures cheapest_shows { CheapestShows }
    ensures cheapest_accepts { CheapestAccepts }
    ensures one_refusal_shows { ShowsNotConsecutive }
    ensures lawful { SeenIsLawful }
    ensures cut_is_lawful { CutIsLawful }
    ensures joined_is_lawful { JoinedIsLawful }
{}

/// What is seen of an access that met a full stash is lawful, after its reads.
pub fn full_is_lawful()
    ensures { FullIsLawful }
{}

/// Each plan's result has the selected rows, each as often.
pub fn results_have_selected()
    ensures small { (test : Row → Bool) (slots : Slots) →
        rows (small_slots test slots) ≡ filter test (rows slots) }
    ensures large { (test : Row → Bool) (slots : Slots) →
        rows (large_slots test slots) ≡ filter test (rows slots) }
    ensures continuous { (k : ℕ) (test : Row → Bool) (slots : Slots) → 0 < k →
        length (selected test slots) ≤ k →
        is_consecutive (selected test slots) ≡ true →
        Same (filter test (rows slots)) (rows (continuous_slots k test slots)) }
    ensures hash { (k n : ℕ) (test : Row → Bool) (slots : Slots) → 0 < k →
        unplaced k n (selected test slots) ≡ None →
        Same (filter test (rows slots)) (rows (hash_slots k n test slots)) }
{}

/// The joined slots have the pairs, where the left keys are distinct.
pub fn joined_pairs()
    ensures { (i j pack room : ℕ) (left right : Slots) → AreDistinct i (rows left) → 1 ≤ pack →
        1 ≤ buffered_blocks pack room →
        Same (pairs i j (rows left) (rows right)) (rows (joined i j pack room left right)) }
{}

/// What a SELECT of rows prints from its result is its answer, by each plan and over a join.
pub fn prints_answer()
    ensures { PrintsAnswer }
{}

/// A statement that is not refused before its first access names columns that there are, by their places;
/// its cells fit their columns, and what it makes is within its sizes; where it accesses no index, the tables of its rows
/// are flat.
pub fn accepted_laws()
    ensures rows { PlacesFit }
    ensures totals { TotalsPlacesFit }
    ensures joins { JoinsFit }
    ensures sets { SetsFit }
    ensures conditions { ConditionsFit }
    ensures buckets { BucketsFit }
    ensures flat { NamesFlat }
{}

/// Where no two tables have one name, a statement changes what stands at its table's name, and no other.
pub fn moving_laws()
    ensures moves { (name : List ℕ) (region : ℕ) (ts : List Table) → Moves name region ts }
    ensures creates { CreatesNew }
    ensures drops { DropsOne }
{}

/// In whichever order the tables stand, a statement is refused, answered and seen alike, and leaves them alike.
pub fn order_is_nothing()
    ensures { OrderIsNothing }
{}

/// Being the same tables, in whichever order, is an equivalence of those of which no two have one name.
pub fn alike_tables()
    ensures same { (ts : Tables) → AreApart (headings ts) → AreAlike ts ts }
    ensures turned { (ts us : Tables) → AreAlike ts us → AreAlike us ts }
    ensures chained { (ts us vs : Tables) → AreAlike ts us → AreAlike us vs → AreAlike ts vs }
{}
