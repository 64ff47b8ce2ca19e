//! Laws of a store that others change.
ghost use Rattle.std.specs.Prelude.{◌≡◌, true, IsSome};
ghost use Rattle.ob_meddle.specs.Shows.{list_of, Shows};

use crate::store::MeddledStore;
use ob_store::BlockStore;

/// When its changes show, where it says what others do: in its counts of failed calls, and in its lie.
pub fn changes_show()
    ensures { (m : MeddledStore) → IsSome (⟦<MeddledStore as BlockStore>⟧.state m).disturbed
        → Shows (list_of m) (⟦<MeddledStore as BlockStore>⟧.state m) }
{}

/// It tells what was written to it, and the first read that gave something else.
pub fn meddled_tells()
    ensures { (m : MeddledStore) → (⟦<MeddledStore as BlockStore>⟧.state m).tells ≡ true }
{}
