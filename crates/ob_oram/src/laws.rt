//! Laws of an index beside others, and of how it is accessed.
ghost use Rattle.std.specs.Prelude.{◌≡◌, ◌≢◌, ◌<◌, ◌+◌, ◌^◌, ◌++◌, ℕ, List, Err, map};
ghost use Rattle.std.specs.List.{AllPairs};
ghost use Rattle.ob_base.specs.declared.access.Access.{Access};
ghost use Rattle.ob_row.specs.Rows.{Row};
ghost use Rattle.ob_script.specs.Parts.{access_part};
ghost use Rattle.ob_store.specs.State.{FalseRead};
ghost use Rattle.ob_tree.specs.Runs.{draws_read, leaf_at};
ghost use Rattle.ob_tree.specs.Scripts.{numbers};
ghost use Rattle.ob_path.specs.States.{State};
ghost use Rattle.ob_vault.specs.Calls.{Lasts, two};
ghost use Rattle.ob_vault.specs.State.{World};
ghost use Rattle.ob_vault.specs.Tied.{ReadsIn};
ghost use Rattle.ob_oram.specs.declared.fault.OramErr.{OramErr as Stop};
ghost use Rattle.ob_oram.specs.declared.index.Index.{Index as AnIndex};
ghost use Rattle.ob_oram.specs.declared.op.Op.{Op as AnOp};
ghost use Rattle.ob_oram.specs.Accessing.{Accesses, leaf_read};
ghost use Rattle.ob_oram.specs.Indexes.{IsEnded, IsIndex, LiesAs, leaves_of};
ghost use Rattle.ob_oram.specs.Scripts.{access_script, read_script};
ghost use Rattle.ob_oram.specs.Sequences.{AreAccesses, AreDrawn, Step, keys_asked, leaves_read};
ghost use Rattle.ob_oram.specs.Short.{AccessShort};

/// An index of which a pass touched neither region stands and lies as before.
pub fn index_lasts()
    ensures stands { (q r : ℕ) (index : AnIndex) (old new : World) → Lasts (two q r) old new
        → (two q r index.tree → ⊥) → (two q r index.stash → ⊥)
        → IsIndex index old → IsIndex index new }
    ensures lies { (q r : ℕ) (index : AnIndex) (old new : World) (s : State Row)
        → Lasts (two q r) old new → (two q r index.tree → ⊥) → (two q r index.stash → ⊥)
        → LiesAs index s old → LiesAs index s new }
{}

/// The accesses of an index are those of its script, which is one of numbers alone.
pub fn scripts_join()
    ensures { (index : AnIndex) (leaf : ℕ) → leaf < 2 ^ index.height → access_script index leaf
        ≡ access_part index.tree index.stash index.slots index.height leaf }
{}

/// Whatever the store answers, an access that gives up has asked a first part of its script.
pub fn access_short()
    ensures { (e : Stop) (index left : AnIndex) (op : AnOp) (draw : ℕ) (old new : World)
        → Accesses index left op draw (Err e) old new
        → AccessShort e index (leaf_read index op draw) old new }
{}

/// A changed block that an access has read is one of its reads, which come before all writes.
pub fn access_begun()
    ensures { (lie : FalseRead) (index : AnIndex) (leaf : ℕ) (before : List Access)
        → ReadsIn lie (before ++ access_script index leaf)
        → ReadsIn lie (before ++ read_script index leaf) }
{}

/// Accesses of an index, of which the last may have stopped, read the leaves of the draws that their keys had last,
/// whatever the store answers. No draw is read twice, and none is accessed that has ended.
pub fn accesses_read_draws()
    ensures leaves { (index : AnIndex) (steps : List Step) (d : ℕ → ℕ) (next : ℕ) (given : List ℕ)
        → AreAccesses index steps → AreDrawn d next steps
        → leaves_of index ≡ map (leaf_at index.height d) given → leaves_read index steps
        ≡ map (leaf_at index.height d)
        (draws_read next given (keys_asked index.capacity steps)) }
    ensures once { (first n : ℕ) (steps : List Step) → AllPairs (λ a b. a ≢ b)
        (draws_read (first + n) (numbers first n) (keys_asked n steps)) }
    ensures ended { (index : AnIndex) (w : World) → IsEnded index → IsIndex index w → ⊥ }
{}
