//! The region in which a table lay.
ghost use Rattle.std.specs.Prelude.{◌≡◌};
ghost use Rattle.ob_vault.specs.declared.region.Region.{Region};
ghost use Rattle.ob_vault.specs.Tied.{Lives};
ghost use Rattle.ob_vault.specs.Places.{at};
ghost use Rattle.ob_flat.specs.Words.{HasSpare, moved};
ghost use Rattle.ob_mutate.specs.Mutating.{LeavesFormer};

use ob_flat::Flat;
use ob_store::BlockStore;
use ob_vault::{Revisions, Vault};

/// What becomes of the region in which a table lay, once it lies in another.
#[derive(Clone, Copy, Debug, PartialEq, Eq)]
pub enum Former {
    /// It is discarded, whatever the store answers to that.
    Discard,
    /// The vault forgets it, and it stays in the store until the caller has it discarded.
    Keep,
}

/// Discards the region in which a table lay, whatever the store answers to that, or has the vault forget it.
pub fn leave<S: BlockStore, R: Revisions>(
    store: &mut S,
    vault: &mut Vault<R>,
    region: u64,
    former: Former,
)
    requires spare { HasSpare 1 (at R.state vault.old (S.state store.old)) }
    requires lives { (shape : Region)
        × Lives region shape (at R.state vault.old (S.state store.old)) }
    ensures leaves { LeavesFormer former region
        (at R.state vault.old (S.state store.old)) (at R.state vault.new (S.state store.new)) }
{
    match former {
        Former::Discard => {
            let _ = vault.drop_region(store, region);
        }
        Former::Keep => vault.forget(region),
    }
}

// Gives a table a fresh region, and discards its old one, or leaves it in the store.
pub(crate) fn move_table<S: BlockStore, R: Revisions>(
    store: &mut S,
    vault: &mut Vault<R>,
    flat: &mut Flat,
    fresh: u64,
    former: Former,
)
    requires spare { HasSpare 1 (at R.state vault.old (S.state store.old)) }
    requires lives { (shape : Region)
        × Lives flat.old.region shape (at R.state vault.old (S.state store.old)) }
    ensures flat { flat.new ≡ moved flat.old fresh }
    ensures leaves { LeavesFormer former flat.old.region
        (at R.state vault.old (S.state store.old)) (at R.state vault.new (S.state store.new)) }
{
    leave(store, vault, flat.region, former);
    flat.region = fresh;
}
