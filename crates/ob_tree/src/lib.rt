//! The pure model of an index by Path ORAM, and its laws.
#![tactic(auto)]

ghost use Rattle.std.specs.Prelude.{◌≡◌, ◌≢◌, ◌<◌, ◌≤◌, ℕ, ◌+◌, ◌*◌, ◌-◌, ◌/◌, ◌^◌, ◌==◌, Option, Some, None, List, [], ◌∷◌, ◌++◌, suc, Bool, true, false, replicate, length, map, take, drop, slice_index_or};
ghost use Rattle.std.specs.List.{All, AllPairs};
ghost use Rattle.ob_row.specs.Bags.{Same};
ghost use Rattle.ob_row.specs.Rows.{Row, keys_repeat};
ghost use Rattle.ob_path.specs.Paths.{above, path_up, is_on_path};
ghost use Rattle.ob_tree.specs.Drawing.{Event, numbers_read};
ghost use Rattle.ob_row.specs.Keys.{row_key, InRange};
ghost use Rattle.ob_path.specs.Rows.{firsts, except_firsts, by_key, slots_of, Single};
ghost use Rattle.ob_path.specs.States.{State, Represents, Stands, map_of, held, leaf_of, bucket};
ghost use Rattle.ob_path.specs.Access.{Op, Done, Found, Duplicate, OutOfRange, Went, Evicted, key_of, applied, access, evict, evicted, leaf_read, take_path, fits_by};
ghost use Rattle.ob_tree.specs.Runs.{run, created, map_after, map_answer, KeepsKey, AllKeep, RunsAsMap, ReadsDraws, leaf_at, draws_read, last_given, insert_from, small_ops};
ghost use Rattle.ob_tree.specs.Slotwise.{laid, slot_tests, laid_slots, left_behind};
ghost use Rattle.ob_tree.specs.Places.{tests, InPlace};
ghost use Rattle.ob_tree.specs.Scripts.{numbers, read_script, access_script};

/// A row and its key.
pub trait Keyed {
    ghost key: { Self → ℕ };
}

/// A bucket's rows and those left are the rows that there were, and so are the rows in order.
pub fn bags<R: Keyed>()
    ensures taken { (n : ℕ) (p : R → Bool) (all : List R) → Same (firsts n p all
        ++ except_firsts n p all) all }
    ensures ordered { (all : List R) → Same (by_key R.key all) all }
{}

/// A new index has no row.
pub fn stands_empty<R: Keyed>()
    ensures { (h t : ℕ) (leaves : List ℕ) → ((k : ℕ) → k < length leaves
        → slice_index_or leaves k 0 < 2 ^ h)
        → Represents {R = R} R.key h (created h t leaves) (λ k. None) }
{}

/// An access that goes on answers as the map does, and stands for the map after.
pub fn answers_as_map<R: Keyed>()
    ensures got { (h draw : ℕ) (s : State R) (m : ℕ → Option R) (op : Op R) (w : Went R)
        → Represents R.key h s m → KeepsKey R.key op
        → access R.key h s op draw ≡ Some w → w.got ≡ map_answer R.key (length s.leaves) op m }
    ensures represents { (h draw : ℕ) (s : State R) (m : ℕ → Option R) (op : Op R) (w : Went R)
        → Represents R.key h s m → KeepsKey R.key op
        → access R.key h s op draw ≡ Some w
        → Represents R.key h w.state (map_after R.key (length s.leaves) op m) }
    ensures bag { (h draw : ℕ) (s : State R) (m : ℕ → Option R) (op : Op R) (w : Went R)
        → Represents R.key h s m
        → access R.key h s op draw ≡ Some w
        → Same (held w.state) (applied R.key (length s.leaves) op (held s)) }
    ensures run { (h : ℕ) (s : State R) (m : ℕ → Option R) (ops : List (Op R × ℕ))
        → Represents R.key h s m → AllKeep R.key ops
        → RunsAsMap R.key h (length s.leaves) m ops (run R.key h s ops) }
{}

/// Leaves stay leaves, whatever the rows and the draw.
pub fn leaves_stay<R: Keyed>()
    ensures read { (h draw k : ℕ) (s : State R) → ((j : ℕ) → j < length s.leaves
        → leaf_of s j < 2 ^ h) → leaf_read h s k draw < 2 ^ h }
    ensures after { (h draw : ℕ) (s : State R) (op : Op R) (w : Went R) → ((j : ℕ)
        → j < length s.leaves → leaf_of s j < 2 ^ h)
        → access R.key h s op draw ≡ Some w → (j : ℕ) → j < length w.state.leaves
        → leaf_of w.state j < 2 ^ h }
    ensures count { (h draw : ℕ) (s : State R) (op : Op R) (w : Went R) → access R.key h s op draw
        ≡ Some w → length w.state.leaves ≡ length s.leaves }
{}

/// The stash is full exactly where more rows are left than it has slots.
pub fn full_exactly<R: Keyed>()
    ensures full { (h draw : ℕ) (s : State R) (op : Op R)
        → length s.stash < length (evicted R.key h s op draw).left → access R.key h s op draw
        ≡ None }
    ensures only { (h draw : ℕ) (s : State R) (op : Op R) → access R.key h s op draw ≡ None
        → length s.stash < length (evicted R.key h s op draw).left }
    ensures stash { (h draw : ℕ) (s : State R) (op : Op R) (w : Went R) → access R.key h s op draw
        ≡ Some w → length w.state.stash ≡ length s.stash }
{}

/// Each leaf read is that of the draw that its key had at its last access or at the creation, and no draw is read twice.
pub fn reads_draws<R: Keyed>()
    ensures leaves { (h next : ℕ) (s : State R) (d : ℕ → ℕ) (given : List ℕ) (ops : List (Op R))
        → s.leaves ≡ map (leaf_at h d) given
        → ReadsDraws R.key h s d next given ops }
    ensures last { (next i : ℕ) (given ks : List ℕ) → i < length ks
        → slice_index_or ks i 0 < length given
        → slice_index_or (draws_read next given ks) i 0
        ≡ last_given next (slice_index_or ks i 0) (slice_index_or given (slice_index_or ks i 0)
        0) (take i ks) }
    ensures own { (next i : ℕ) (given ks : List ℕ) → i < length ks
        → length given ≤ slice_index_or ks i 0
        → slice_index_or (draws_read next given ks) i 0 ≡ next + i }
    ensures once { (first n : ℕ) (ks : List ℕ)
        → AllPairs (λ a b. a ≢ b) (draws_read (first + n) (numbers first n) ks) }
{}

/// No draw of a session is read twice, whatever indexes are made and accessed in it.
pub fn session_reads_apart()
    ensures { (events : List Event) → AllPairs (λ a b. a ≢ b) (numbers_read 0 [] events) }
{}

/// Rows of which no two have one number have distinct keys at this place.
pub fn keys_apart()
    ensures { (n place : ℕ) (all : List Row) → Single (row_key n place) all
        → keys_repeat (Some place) all ≡ false }
{}

/// Rows of distinct keys, of which each is one of the n keys, have distinct numbers.
pub fn keys_single()
    ensures { (n place : ℕ) (all : List Row) → InRange n place all
        → keys_repeat (Some place) all ≡ false → Single (row_key n place) all }
{}

/// The length of an access's script, and of its reads.
pub fn script_lengths()
    ensures reads { (t h leaf : ℕ) → length (read_script t h leaf) ≡ t + 4 * (h + 1) }
    ensures all { (t h leaf : ℕ) → length (access_script t h leaf) ≡ 2 * t + 8 * (h + 1) }
{}

/// A path goes from the root to the leaf by children, and two paths have a bucket in common only at one height.
pub fn paths_go_down()
    ensures left { (b : ℕ) → above (2 * b + 1) ≡ b }
    ensures right { (b : ℕ) → above (2 * b + 2) ≡ b }
    ensures buckets { (h leaf j : ℕ) → leaf < 2 ^ h → j ≤ h → slice_index_or (path_up h leaf) j 0
        ≡ (2 ^ h + leaf) / 2 ^ j - 1 }
    ensures meet { (h a b j : ℕ) → a < 2 ^ h → b < 2 ^ h → j ≤ h
        → is_on_path h b (slice_index_or (path_up h a) j 0) ≡ (a / 2 ^ j == b / 2 ^ j) }
{}

/// Rows may be taken in any order, and a bucket's rows picked one by one: each time the least that fits.
pub fn picks_one_by_one<R: Keyed>()
    ensures any_order { (xs ys : List R) → Single R.key xs → Same xs ys → by_key R.key xs
        ≡ by_key R.key ys }
    ensures least { (p : R → Bool) (row : R) (rest all : List R) → Single R.key all
        → Same all (row ∷ rest) → p row ≡ true
        → All (λ (other : R). p other ≡ true → R.key row ≤ R.key other) rest
        → (firsts 1 p (by_key R.key all) ≡ row ∷ []) × (except_firsts 1 p (by_key R.key all)
        ≡ by_key R.key rest) }
    ensures none { (n : ℕ) (p : R → Bool) (all : List R) → All (λ (row : R). p row ≡ false) all
        → (firsts n p (by_key R.key all) ≡ []) × (except_firsts n p (by_key R.key all)
        ≡ by_key R.key all) }
    ensures more { (n : ℕ) (p : R → Bool) (all : List R) → (firsts (suc n) p all ≡ firsts 1 p all
        ++ firsts n p (except_firsts 1 p all))
        × (except_firsts (suc n) p all ≡ except_firsts n p (except_firsts 1 p all)) }
{}

/// The tree after an eviction, by its slots and buckets: off the path as it was, and each bucket of the path with the rows that it took.
pub fn slots_behind<R>()
    ensures untouched { (h leaf p : ℕ) (fits : ℕ → R → Bool) (e : Evicted R) → leaf < 2 ^ h
        → length e.tree ≡ 4 * (2 ^ (h + 1) - 1)
        → is_on_path h leaf (p / 4) ≡ false
        → slice_index_or (evict fits (path_up h leaf) e).tree p None
        ≡ slice_index_or e.tree p None }
    ensures filled { (h leaf j : ℕ) (fits : ℕ → R → Bool) (e : Evicted R) → leaf < 2 ^ h
        → length e.tree ≡ 4 * (2 ^ (h + 1) - 1) → j ≤ h
        → bucket (evict fits (path_up h leaf) e).tree (slice_index_or (path_up h leaf) j 0)
        ≡ slots_of 4 (firsts 4 (fits (slice_index_or (path_up h leaf) j 0)) (evict fits (take j
        (path_up h leaf)) e).left) }
{}

/// What goes to buckets and stash may be chosen slot by slot; the stash is full exactly where a row is left behind.
pub fn laid_slot_by_slot<R>()
    ensures slots { (fits : ℕ → R → Bool) (bs : List ℕ) (t : ℕ) (e : Evicted R)
        → length (evict fits bs e).left ≤ t
        → laid_slots (slot_tests fits bs t) e.left ≡ laid fits bs t e.left }
    ensures behind { (fits : ℕ → R → Bool) (bs : List ℕ) (t : ℕ) (e : Evicted R)
        → length (left_behind (slot_tests fits bs t) e.left) ≡ length (evict fits bs e).left - t }
    ensures tree { (h leaf t j : ℕ) (fits : ℕ → R → Bool) (e : Evicted R) → leaf < 2 ^ h
        → length e.tree ≡ 4 * (2 ^ (h + 1) - 1) → j ≤ h
        → bucket (laid fits (path_up h leaf) t e.left) j
        ≡ bucket (evict fits (path_up h leaf) e).tree (slice_index_or (path_up h leaf) j 0) }
    ensures stash { (fits : ℕ → R → Bool) (bs : List ℕ) (t : ℕ) (e : Evicted R)
        → drop (4 * length bs) (laid fits bs t e.left) ≡ slots_of t (evict fits bs e).left }
{}

/// Two indexes of one map have one bag of rows. What stands for a map has distinct keys in range, each row in its place, and the other way round.
pub fn one_map_one_bag<R: Keyed>()
    ensures bag { (h g : ℕ) (s t : State R) (m : ℕ → Option R) → Represents R.key h s m
        → Represents R.key g t m → Same (held s) (held t) }
    ensures map { (h : ℕ) (s : State R) → Stands R.key h s → Represents R.key h s (map_of R.key s) }
    ensures taken { (h draw : ℕ) (s : State R) (m : ℕ → Option R) (op : Op R)
        → Represents R.key h s m → KeepsKey R.key op
        → Single R.key (applied R.key (length s.leaves) op (take_path h s (leaf_read h s (key_of
        R.key op) draw))) }
    ensures stands { (h : ℕ) (s : State R) (m : ℕ → Option R) → Represents R.key h s m
        → Stands R.key h s }
{}

/// With 32 keys, a stash of one and all draws 0, keys 0 to 24 go in, and the insert of 25 stops after 25 reads.
pub fn stash_fills()
    ensures gots { (run (λ (k : ℕ). k) 5 (created 5 1 (replicate 32 0)) (insert_from 0 26)).gots
        ≡ replicate 25 Done }
    ensures full { (run (λ (k : ℕ). k) 5 (created 5 1 (replicate 32 0)) (insert_from 0 26)).full
        ≡ true }
    ensures reads { length (read_script 1 5 0) ≡ 25 }
{}

/// With 4 keys and a stash of two: a row that is put in under another leaf lies where the two paths part.
pub fn small_session()
    ensures gots { (run (λ (k : ℕ). k) 2 (created 2 2 (0 ∷ 1 ∷ 2 ∷ 3 ∷ [])) small_ops).gots
        ≡ Done ∷ Found 3 ∷ OutOfRange ∷ Duplicate ∷ OutOfRange ∷ [] }
    ensures first { slice_index_or (run (λ (k : ℕ). k) 2 (created 2 2 (0 ∷ 1 ∷ 2 ∷ 3 ∷ []))
        (take 1 small_ops)).state.tree 8 None ≡ Some 3 }
    ensures then { slice_index_or (run (λ (k : ℕ). k) 2 (created 2 2 (0 ∷ 1 ∷ 2 ∷ 3 ∷ []))
        (take 2 small_ops)).state.tree 0 None ≡ Some 3 }
    ensures script { length (access_script 2 2 0) ≡ 28 }
{}

/// A loop over the slots of a buffer by heights above the leaf leaves what an eviction over the buckets of the path does.
pub fn heights_are_paths<R: Keyed>()
    ensures laid { (h leaf t : ℕ) (lf : R → ℕ) (leaves : List ℕ) (e : Evicted R) → leaf < 2 ^ h
        → All (InPlace R.key lf h leaves) e.left
        → length (evict (fits_by R.key h leaves) (path_up h leaf) e).left ≤ t
        → laid_slots (tests lf leaf h 0 (4 * (h + 1) + t)) e.left
        ≡ laid (fits_by R.key h leaves) (path_up h leaf) t e.left }
    ensures full { (h leaf t : ℕ) (lf : R → ℕ) (leaves : List ℕ) (e : Evicted R) → leaf < 2 ^ h
        → All (InPlace R.key lf h leaves) e.left
        → length (left_behind (tests lf leaf h 0 (4 * (h + 1) + t)) e.left)
        ≡ length (evict (fits_by R.key h leaves) (path_up h leaf) e).left - t }
{}
