//! Laws of the store in memory.
ghost use Rattle.std.specs.Prelude.{◌≡◌, true, Some, None, []};
ghost use Rattle.ob_store.specs.Calls.{IsQuiet};

use crate::memory::MemStore;
use crate::store::BlockStore;

/// It tells what it holds, and no read gave anything except what was written last; no call has failed, unless a
/// region of an earlier run was asked for.
pub fn memory_is_honest()
    ensures tells { (m : MemStore) → (⟦<MemStore as BlockStore>⟧.state m).tells ≡ true }
    ensures honest { (m : MemStore) → (⟦<MemStore as BlockStore>⟧.state m).lie ≡ None }
    ensures quiet { (m : MemStore) → (⟦<MemStore as BlockStore>⟧.state m).disturbed ≡ Some []
        → IsQuiet (⟦<MemStore as BlockStore>⟧.state m) }
{}
