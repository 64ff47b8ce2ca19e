//! Blocks that are changed in place.
ghost use Rattle.std.specs.Prelude.{◌≤◌, ◌<◌, ◌+◌, ◌^◌, ℕ, OnOk, MatchResult, length};
ghost use Rattle.ob_base.specs.Schemas.{Columns, width};
ghost use Rattle.ob_vault.specs.Numbers.{spent};
ghost use Rattle.ob_vault.specs.Places.{at};
ghost use Rattle.ob_vault.specs.Rows.{SameSizes, Wide};
ghost use Rattle.ob_row.specs.Slots.{Slots};
ghost use Rattle.ob_flat.specs.Slots.{Spelt, AreSlots};
ghost use Rattle.ob_flat.specs.Words.{HasSpare, FitBlock};
ghost use Rattle.ob_flat.specs.Reworks.{MayRework, Reworks};

use crate::fault::OpErr;
use crate::flat::Flat;
use ob_base::Schema;
use ob_room::ClearRow;
use ob_row::Malformed;
use ob_store::BlockStore;
use ob_vault::{Revisions, Vault};

/// What a pass makes of one block of a table that it changes in place.
pub trait Rework {
    /// What the slots of a block, the first of which has this index, become, and what it becomes itself.
    ghost Makes: { Columns → Self → Self → ℕ → Slots → Slots → Type 0 };

    /// What is true of it in a table of this schema.
    ghost Suits: { Self → Columns → Type 0 };

    /// Changes the rows of a block, the first of which has this index, or refuses them where one is
    /// malformed.
    fn rework(
        &mut self,
        first: u32,
        schema: &Schema,
        rows: &mut [ClearRow],
    ) -> Result<(), Malformed>
        requires wide { Wide (width schema.now) rows.old }
        requires index { first + length rows.old ≤ 2147483648 }
        requires suits { Suits self.old schema.now }
        ensures rows { SameSizes rows.old rows.new }
        ensures suits { OnOk result (Suits self.new schema.now) }
        ensures spells { OnOk result (AreSlots schema.now rows.new) }
        ensures told { (slots : Slots) → Spelt schema.now slots rows.old
            → MatchResult result
            (λ _. (made : Slots) × Makes schema.now self.old self.new first slots made
            × Spelt schema.now made rows.new)
            (λ _. ⊥) };
}

/// Reads a block of a table, changes it, and writes it to its place again, through these rows, of which
/// there are as many as a block has. `Failed` where the store failed, and `Tampered` where the block is
/// not what was written there last, or has a malformed row.
pub fn rework_block<S: BlockStore, R: Revisions, W: Rework>(
    store: &mut S,
    vault: &mut Vault<R>,
    rows: &mut [ClearRow],
    flat: &Flat,
    place: u32,
    work: &mut W,
) -> Result<(), OpErr>
    requires spare { HasSpare 2 (at R.state vault.old (S.state store.old)) }
    requires few { spent (at R.state vault.old (S.state store.old)) + 1 < 2 ^ 63 + 2 ^ 60 }
    requires table { MayRework (length rows.old) flat.now place
        (at R.state vault.old (S.state store.old)) }
    requires fit { FitBlock flat.now.schema rows.old }
    requires suits { W.Suits work.old flat.now.schema }
    ensures rows { SameSizes rows.old rows.new }
    ensures reworks { Reworks (length rows.old) flat.now place
        (W.Makes flat.now.schema work.old work.new) (W.Suits work.new flat.now.schema)
        result (at R.state vault.old (S.state store.old))
        (at R.state vault.new (S.state store.new)) }
{
    vault.get(store, flat.region, place, rows)?;
    let first = place * rows.len() as u32;
    match work.rework(first, &flat.schema, rows) {
        Ok(()) => {}
        Err(Malformed) => {
            return Err(OpErr::Tampered {
                region: flat.region,
                place,
            });
        }
    }
    vault.put(store, flat.region, place, rows)?;
    Ok(())
}
