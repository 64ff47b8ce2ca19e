//! Malformed rows are refused.
ghost use Rattle.std.specs.Prelude.{OnOk, OnErr};
ghost use Rattle.ob_base.specs.Schemas.{width};
ghost use Rattle.ob_vault.specs.Rows.{Wide};
ghost use Rattle.ob_row.specs.Slots.{Slots};
ghost use Rattle.ob_flat.specs.Slots.{Spelt, AreSlots};

use ob_base::Schema;
use ob_room::ClearRow;
use ob_row::{Malformed, read};

/// Refuses rows of which one is malformed.
pub fn check_rows(schema: &Schema, rows: &[ClearRow]) -> Result<(), Malformed>
    requires wide { Wide (width schema.now) rows.now }
    ensures read { OnOk result (AreSlots schema.now rows.now) }
    ensures told { (slots : Slots) → Spelt schema.now slots rows.now → OnErr result ⊥ }
{
    for z in 0..rows.len() {
        match read(schema, &rows[z]) {
            Ok(_) => {}
            Err(malformed) => return Err(malformed),
        }
    }
    Ok(())
}
