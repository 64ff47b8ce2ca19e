//! A tree of sealed buckets, each of which names the blocks of its children, over two places a bucket: laws.
#![tactic(auto)]

ghost use Rattle.std.specs.Prelude.{◌≡◌, ◌≢◌, ◌<◌, ◌≤◌, ℕ, ◌+◌, ◌-◌, ◌*◌, ◌^◌, List, [], ◌∷◌, ◌++◌, Bool, true, false, not, length, map, Option, Some, None, slice_index_or};
ghost use Rattle.ob_path.specs.Paths.{path};
ghost use Rattle.ob_path.specs.States.{State, bucket};
ghost use Rattle.ob_path.specs.Access.{Op, Went, access, leaf_read, key_of};
ghost use Rattle.std.specs.List.{AllPairs};
ghost use Rattle.ob_linked.specs.declared.version.Version.{Version};
ghost use Rattle.ob_tree.specs.Runs.{run};
ghost use Rattle.ob_linked.specs.Ahead.{Text, Rested, woken, served, named, given};
ghost use Rattle.ob_linked.specs.Leaves.{Event, Accessed, Killed, Made, IsMended, NoneHas, numbers_read, renewed};
ghost use Rattle.ob_linked.specs.Linked.{Body, Block, Cells, Tree, Turn, body_at, block_at, blocks_of, IsStoredIn, Reads, GoesDown, GoesUp, AreApart, IsSealed, AreOf, OnlySpares, Life, Stands, rewritten, turned, turned_all, Saves, IsTreeOf, is_among, with_block, with_blocks, side_behind, paths_of, spare_at};

mod memory;
mod reading;
mod version;
mod writing;

pub use memory::{Laid, MemBuckets};
pub use reading::{Contents, Opens, ReadErr, read_path};
pub use version::Version;
pub use writing::{Buckets, Failed, Step, write_path};

/// Whatever others put into the region: what opens on the way down from the version of a bucket is what the tree has,
/// so long as they can put nothing that was never sealed, and no two blocks were sealed for one place and version. From
/// the root on that is a path: so who keeps the root's version keeps all of the tree.
pub fn root_tells_path<A>()
    ensures { (made : List (Block A)) → AreApart made → (n : ℕ) (t : Tree A) → IsSealed made n t
        → (cells : Cells A) → AreOf made cells → (b : ℕ) (below : List ℕ) → GoesDown n b below
        → (bodies : List (Body A)) → Reads cells b (t.version b) below bodies
        → bodies ≡ map (body_at t) (b ∷ below) }
{}

/// A tree lies where it lay while others of its places than it needs are written, in whichever way: whole, in part, or
/// with something else. The blocks of a path's buckets that are written anew go to such places.
pub fn old_tree_stays<A>()
    ensures stays { (n : ℕ) (t : Tree A) (path : List ℕ) (old new : Cells A) → IsStoredIn n t old
        → OnlySpares t path old new → IsStoredIn n t new }
    ensures writes { (t : Tree A) (done rest : List ℕ) (rows : ℕ → A) (run : ℕ) (number : ℕ → ℕ)
        (cells : Cells A) → OnlySpares t (done ++ rest) cells
        (with_blocks cells (blocks_of (turned t (done ++ rest) rows run number) done)) }
    ensures torn { (t : Tree A) (path : List ℕ) (old new : Cells A) (b : ℕ) (s : Block A)
        → OnlySpares t path old new → is_among path b ≡ true
        → s.at ≡ spare_at t b → OnlySpares t path old (with_block new s) }
{}

/// Once all blocks of a path are written, the tree with that path lies there, whichever of its places each bucket took.
pub fn new_tree_lies<A>()
    ensures { (n : ℕ) (t : Tree A) (path : List ℕ) (rows : ℕ → A) (version : ℕ → Version)
        (cells : Cells A) → IsStoredIn n t cells → GoesUp path
        → IsStoredIn n (rewritten t path rows version)
        (with_blocks cells (blocks_of (rewritten t path rows version) path)) }
{}

/// Over any accesses, marks and kills, in whichever order: the tree that the mark names lies there, and so does the one
/// that is in use, both of blocks of which no two were sealed for one place and version. So whoever keeps the version of
/// the root reads a path of either as it is, whatever others put in the place of what lies there (`root_tells_path`).
pub fn trees_outlive_runs<A>()
    ensures { (n : ℕ) (m t m2 t2 : Tree A) (c c2 : Cells A) (s s2 : List (Block A))
        → Life m t c s m2 t2 c2 s2 → Stands n m t c s → Stands n m2 t2 c2 s2 }
{}

/// At which place a bucket lies follows from the paths that were written since, and from nothing else.
pub fn sides_are_of_paths<A>()
    ensures { (turns : List (Turn A)) (t : Tree A) (b : ℕ) → ((turned_all t turns).version b).side
        ≡ side_behind (t.version b).side (paths_of turns) b }
{}

/// The path of a leaf goes down from the root, so that it can be read by the root's version alone; and with each of its
/// buckets it has the one above, so that it can be written.
pub fn paths_can_be_read()
    ensures down { (h leaf : ℕ) → leaf < 2 ^ h → (below : List ℕ) × (path h leaf ≡ 0 ∷ below)
        × GoesDown (2 ^ (h + 1) - 1) 0 below }
    ensures up { (h leaf : ℕ) → leaf < 2 ^ h → GoesUp (path h leaf) }
{}

/// An access of an index writes the path that it has read to the other places of its buckets: then the index after it lies
/// there, and after each of these writes the index before it does.
pub fn access_is_saved<R>()
    ensures { (key : R → ℕ) (h draw : ℕ) (s : State R) (op : Op R) (w : Went R)
        → length s.tree ≡ 4 * (2 ^ (h + 1) - 1) → leaf_read h s (key_of key op) draw < 2 ^ h
        → access key h s op draw ≡ Some w
        → (t : Tree (List (Option R))) (cells : Cells (List (Option R)))
        → IsTreeOf (2 ^ (h + 1) - 1) t s.tree → IsStoredIn (2 ^ (h + 1) - 1) t cells
        → (run : ℕ) (number : ℕ → ℕ)
        → Saves h (leaf_read h s (key_of key op) draw) t w.state run number cells }
{}

/// No draw is read twice over many runs, of which any may be killed, so long as after each kill keys are renewed until none
/// has the draw that was read.
pub fn runs_read_apart()
    ensures { (events : List Event) → IsMended 0 [] None events
        → AllPairs (λ a b. a ≢ b) (numbers_read 0 [] events) }
{}

/// For that it is enough to know the leaf that was read, which whoever watches knows: the keys of that leaf are renewed. Here
/// a draw's leaf is any number that follows from the draw.
pub fn leaf_is_enough()
    ensures { (leaf : ℕ → ℕ) (draw next : ℕ) (given ks : List ℕ) → draw < next
        → ((j : ℕ) → j < length given → leaf (slice_index_or given j 0) ≡ leaf draw
        → is_among ks j ≡ true)
        → NoneHas draw (renewed given ks next) }
{}

/// Without that a key whose access was killed shows its draw again: of two keys the first is accessed, that isn't saved, and it is
/// accessed in the next run.
pub fn unmended_reads_twice()
    ensures { numbers_read 0 [] (Made 2 ∷ Killed 0 ∷ Accessed 0 ∷ []) ≡ 0 ∷ 0 ∷ [] }
{}

/// Whichever runs are killed, and wherever: the texts on an index are answered as one run answers the operations that the
/// marks named, in their order. Each text that was answered is one of these.
pub fn killed_runs_answer_as_one<R>()
    ensures { (key : R → ℕ) (h : ℕ) (texts : List (Text R)) (r : Rested R) (s : State R)
        → woken key h r ≡ Some s
        → (served key h r texts).answers ≡ given texts (run key h s (named texts)).gots }
{}
