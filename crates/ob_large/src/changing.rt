//! What the two passes of Large make of slots.
ghost use Rattle.std.specs.Prelude.{◌≡◌};

use ob_base::Schema;
use ob_flat::{Change, Rework, change_rows, clear_row};
use ob_room::ClearRow;
use ob_row::{Malformed, Pred, holds, read};

// Leaves each row as it is.
#[derive(Drop)]
pub(crate) struct Unchanged;

impl Change for Unchanged {
    ghost use Rattle.std.specs.Prelude.{⊤, false, refl};

    ghost to = { λ same i slot. slot };

    ghost picks = { λ same slot. false };

    ghost Suits = { λ same columns. ⊤ };

    ghost none = { λ same. refl };

    ghost keeps = { λ same columns i slot suits fits. fits };

    fn change(&self, _i: u32, schema: &Schema, row: &mut ClearRow) -> Result<bool, Malformed> {
        read(schema, row)?;
        Ok(false)
    }
}

// Makes a dummy of each row that doesn't make the condition true.
#[derive(Drop)]
pub(crate) struct Unselected<'a> {
    pub(crate) pred: &'a Pred,
}

impl<'a> Change for Unselected<'a> {
    ghost use Rattle.std.specs.Prelude.{⊤, refl};
    ghost use Rattle.ob_row.specs.Slots.{is_selected, kept};
    ghost use Rattle.ob_row.specs.Truth.{is_true};
    ghost use Rattle.ob_large.specs.Keeping.{kept_fits};

    ghost to = { λ other i slot. kept (is_true other.pred.now) slot };

    ghost picks = { λ other slot. is_selected (is_true other.pred.now) slot };

    ghost Suits = { λ other columns. ⊤ };

    ghost none = { λ other. refl };

    ghost keeps = { λ other columns i slot suits fits.
        kept_fits columns (is_true other.pred.now) slot fits };

    #[tactic(auto, using(crate::proofs::Wiped::wiped))]
    fn change(&self, _i: u32, schema: &Schema, row: &mut ClearRow) -> Result<bool, Malformed> {
        let selected = holds(self.pred, schema, row)?;
        if !selected {
            clear_row(row);
        }
        Ok(selected)
    }
}

impl<'a> Rework for Unselected<'a> {
    ghost use Rattle.std.specs.Prelude.{◌≡◌, ⊤, map};
    ghost use Rattle.ob_row.specs.Slots.{kept};
    ghost use Rattle.ob_row.specs.Truth.{is_true};

    ghost Makes = { λ columns old new first slots made.
        made ≡ map (kept (is_true old.pred.now)) slots };

    ghost Suits = { λ other columns. ⊤ };

    fn rework(
        &mut self,
        first: u32,
        schema: &Schema,
        rows: &mut [ClearRow],
    ) -> Result<(), Malformed> {
        change_rows(self, first, schema, rows)?;
        Ok(())
    }
}
