//! A table in its region.
ghost use Rattle.ob_vault.specs.declared.region.Region.{Region};
ghost use Rattle.ob_vault.specs.Tied.{Lives};
ghost use Rattle.ob_vault.specs.Places.{at};
ghost use Rattle.ob_flat.specs.Words.{HasSpare};
ghost use Rattle.ob_flat.specs.Discards.{Discards};

use crate::fault::OpErr;
use ob_base::Schema;
use ob_store::BlockStore;
use ob_vault::{Revisions, Vault};

/// A table: its schema, its number of slots, and the region that holds them, from slot 0 on, as many in
/// each block as the room says. The slots of the last block behind the capacity stay dummies.
#[derive(Drop)]
pub struct Flat {
    pub schema: Schema,
    pub capacity: u32,
    pub region: u64,
}

/// Takes a table's region out of the vault and the store, whatever the store answers. `Failed` is
/// counted by the store's slips.
pub fn discard<S: BlockStore, R: Revisions>(
    store: &mut S,
    vault: &mut Vault<R>,
    flat: Flat,
) -> Result<(), OpErr>
    requires spare { HasSpare 1 (at R.state vault.old (S.state store.old)) }
    requires lives { (shape : Region)
        × Lives flat.region shape (at R.state vault.old (S.state store.old)) }
    ensures discards { Discards flat.region result
        (at R.state vault.old (S.state store.old)) (at R.state vault.new (S.state store.new)) }
{
    vault.drop_region(store, flat.region)?;
    Ok(())
}
