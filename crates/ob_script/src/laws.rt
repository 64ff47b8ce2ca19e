//! Laws of the scripts.
ghost use Rattle.std.specs.Prelude.{◌≡◌, ◌≢◌, ◌≤◌, ◌<◌, ◌+◌, ◌++◌, ◌*◌, ◌^◌, ℕ, Bool, List, [], None, Some, true, false, length};
ghost use Rattle.ob_base.specs.declared.access.Access.{Access};
ghost use Rattle.ob_base.specs.declared.config.Plan.{Plan};
ghost use Rattle.ob_base.specs.declared.config.Plan.TheVariants.{Continuous};
ghost use Rattle.ob_base.specs.declared.config.Planner.TheVariants.{Cheapest};
ghost use Rattle.ob_base.specs.declared.config.Public.{Public};
ghost use Rattle.ob_base.specs.declared.seen.Seen.{Seen};
ghost use Rattle.ob_base.specs.declared.skeleton.Skeleton.{Skeleton};
ghost use Rattle.ob_base.specs.Accesses.{makes};
ghost use Rattle.ob_script.specs.Saved.{ChangesFlat, left_by, left_then, run_next, run_script, saved_public, whole_run};
ghost use Rattle.ob_base.specs.Plans.{choose, choose_padded};
ghost use Rattle.ob_script.specs.declared.extent.Extent.{Extent};
ghost use Rattle.ob_script.specs.Script.{made_by, result_part, save_part, script};
ghost use Rattle.ob_script.specs.Sizes.{IsPublic, IsWithin};
ghost use Rattle.ob_script.specs.Trace.{next};
ghost use Rattle.std.specs.Int.{div_ceil};
ghost use Rattle.ob_base.specs.Indexes.{tree_blocks};
ghost use Rattle.ob_base.specs.Numbers.{blocks_for};
ghost use Rattle.ob_script.specs.Parts.{closing_part, count_part, create_part, insert_part, rewrite_part, small_part, large_part, continuous_part, hash_part, emission_part, join_part, access_part, index_part};

use ob_base::End;

/// How many accesses each part of a statement asks.
pub fn part_lengths()
    ensures create { (g blocks width : ℕ) → length (create_part g blocks width) ≡ 1 + blocks }
    ensures insert { (t g blocks width : ℕ) (behind : List Access) →
        length (insert_part t g blocks width behind) ≡ 3 * blocks + 1 + length behind }
    ensures rewrite { (t g blocks width : ℕ) (behind : List Access) →
        length (rewrite_part t g blocks width behind) ≡ 2 * blocks + 1 + length behind }
    ensures closing { (region tables : ℕ) → length (closing_part region tables) ≡ tables + 2 }
    ensures count { (t blocks : ℕ) → length (count_part t blocks) ≡ blocks }
    ensures small { (t g blocks results buffered width : ℕ) → 0 < buffered →
        length (small_part t g blocks results buffered width)
        ≡ 1 + (div_ceil results buffered * blocks + results) }
    ensures large { (t g blocks width : ℕ) →
        length (large_part t g blocks width) ≡ 1 + 4 * blocks }
    ensures continuous { (t g pack n k width : ℕ) → 0 < pack →
        length (continuous_part t g pack n k width)
        ≡ 1 + blocks_for pack k + (blocks_for pack n + 2 * n) }
    ensures hash { (t g pack n k depth width : ℕ) → 0 < pack →
        length (hash_part t g pack n k depth width)
        ≡ 1 + k * depth + (blocks_for pack n + 4 * depth * n) }
    ensures emission { (g blocks : ℕ) → length (emission_part g blocks) ≡ blocks + 1 }
    ensures join { (a b g lefts rights buffered width : ℕ) → 0 < buffered →
        length (join_part a b g lefts rights buffered width)
        ≡ 1 + (div_ceil lefts buffered * (2 * rights) + lefts) }
    ensures access { (tree stash slots height leaf : ℕ) →
        length (access_part tree stash slots height leaf) ≡ 2 * slots + 8 * (height + 1) }
    ensures index { (tree stash slots height width : ℕ) →
        length (index_part tree stash slots height width) ≡ tree_blocks height + slots + 2 }
{}

/// How many regions each part of a statement asks for: one where it writes to a new region, else none.
pub fn part_makes()
    ensures create { (g blocks width : ℕ) → makes (create_part g blocks width) ≡ 1 }
    ensures insert { (t g blocks width : ℕ) (behind : List Access) →
        makes (insert_part t g blocks width behind) ≡ 1 + makes behind }
    ensures rewrite { (t g blocks width : ℕ) (behind : List Access) →
        makes (rewrite_part t g blocks width behind) ≡ 1 + makes behind }
    ensures closing { (region tables : ℕ) → makes (closing_part region tables) ≡ 1 }
    ensures count { (t blocks : ℕ) → makes (count_part t blocks) ≡ 0 }
    ensures small { (t g blocks results buffered width : ℕ) →
        makes (small_part t g blocks results buffered width) ≡ 1 }
    ensures large { (t g blocks width : ℕ) → makes (large_part t g blocks width) ≡ 1 }
    ensures continuous { (t g pack n k width : ℕ) →
        makes (continuous_part t g pack n k width) ≡ 1 }
    ensures hash { (t g pack n k depth width : ℕ) →
        makes (hash_part t g pack n k depth width) ≡ 1 }
    ensures emission { (g blocks : ℕ) → makes (emission_part g blocks) ≡ 0 }
    ensures join { (a b g lefts rights buffered width : ℕ) →
        makes (join_part a b g lefts rights buffered width) ≡ 1 }
    ensures access { (tree stash slots height leaf : ℕ) →
        makes (access_part tree stash slots height leaf) ≡ 0 }
    ensures index { (tree stash slots height width : ℕ) →
        makes (index_part tree stash slots height width) ≡ 2 }
{}

/// A statement that was served with the one before it asks nothing and leaves no region, and what is public stays.
pub fn joined_asks_nothing()
    ensures asks { (p : Public) (s : Skeleton) (seen : Seen) → seen.end ≡ End.Batched
        → script p s seen ≡ [] }
    ensures leaves { (p : Public) (s : Skeleton) (seen : Seen) → seen.end ≡ End.Batched
        → left_then p s seen.end ≡ None }
    ensures stays { (p : Public) (s : Skeleton) (seen : Seen) → seen.end ≡ End.Batched
        → next p s seen ≡ p }
{}

/// As many buffers of blocks hold the blocks of so many rows, as buffers of rows hold the rows.
pub fn buffers_by_rows()
    ensures { (n pack buffered : ℕ) → 0 < pack → 0 < buffered →
        div_ceil (blocks_for pack n) buffered ≡ div_ceil n (pack * buffered) }
{}

/// No statement asks 2^49 accesses or more.
pub fn scripts_are_short()
    ensures { (p : Public) (s : Skeleton) (seen : Seen) → IsPublic p →
        (seen.end ≢ End.Static → IsWithin p s seen) → length (script p s seen) < 2 ^ 49 }
{}

/// What `Cheapest` chooses for `k` rows of a region asks for no more than any plan that may be taken: each but Continuous, and
/// that, too, where the rows lie side by side.
pub fn cheapest_is_shortest()
    ensures rows { (p : Public) (k g : ℕ) (t : Extent) (consecutive : Bool) (plan : Plan) →
        IsPublic p → (plan ≡ Continuous → consecutive ≡ true) →
        length (result_part p (Some
        (choose Cheapest p.pack p.buffer t.slots k consecutive)) k g t)
        ≤ length (result_part p (Some plan) k g t) }
    ensures padded { (p : Public) (q g : ℕ) (t : Extent) (plan : Plan) →
        IsPublic p → plan ≢ Continuous →
        length (result_part p (Some
        (choose_padded Cheapest p.pack p.buffer t.slots q)) q g t)
        ≤ length (result_part p (Some plan) q g t) }
{}

/// Where tables aren't saved a statement's script is the engine's part alone. Where they are, a closing follows each change
/// of flat tables that comes to its end, and then what is discarded; the change makes as many regions as `made_by` says.
pub fn saved_scripts()
    ensures unsaved { (p : Public) (s : Skeleton) (seen : Seen) → p.save ≡ false
        → run_script p s seen ≡ script p s seen }
    ensures unsaved_next { (p : Public) (s : Skeleton) (seen : Seen) → p.save ≡ false
        → run_next p s seen ≡ next p s seen }
    ensures saved { (p : Public) (s : Skeleton) (seen : Seen) → p.save ≡ true
        → ChangesFlat p s → seen.end ≡ End.Whole
        → script p s seen ≡ run_script p s seen ++ save_part p s (left_by p s) }
    ensures saved_next { (p : Public) (s : Skeleton) (seen : Seen) → p.save ≡ true
        → ChangesFlat p s → seen.end ≡ End.Whole
        → next p s seen ≡ saved_public (run_next p s seen) }
    ensures made { (p : Public) (s : Skeleton) (seen : Seen) → p.save ≡ true
        → ChangesFlat p s → makes (whole_run p s seen) ≡ made_by s }
{}
