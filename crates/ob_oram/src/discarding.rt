//! An index, taken out of the store.
ghost use Rattle.ob_vault.specs.Places.{at};
ghost use Rattle.ob_flat.specs.Words.{HasSpare};
ghost use Rattle.ob_oram.specs.Indexes.{IsStored};
ghost use Rattle.ob_oram.specs.Discards.{DiscardsIndex};

use crate::index::Index;
use ob_flat::OpErr;
use ob_store::BlockStore;
use ob_vault::{Revisions, Vault};

/// Takes the two regions of an index out of the vault and the store, the tree's and then the stash's, whatever the
/// store answers. `Failed`, where one of them failed, is counted by the store's slips.
pub fn discard<S: BlockStore, R: Revisions>(
    store: &mut S,
    vault: &mut Vault<R>,
    index: Index,
) -> Result<(), OpErr>
    requires spare { HasSpare 2 (at R.state vault.old (S.state store.old)) }
    requires stored { IsStored index (at R.state vault.old (S.state store.old)) }
    ensures discards { DiscardsIndex index result
        (at R.state vault.old (S.state store.old)) (at R.state vault.new (S.state store.new)) }
{
    let tree = vault.drop_region(store, index.tree);
    let stash = vault.drop_region(store, index.stash);
    tree?;
    stash?;
    Ok(())
}
