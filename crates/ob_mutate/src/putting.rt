//! The rows of a batch, put into the slots that are free.
ghost use Rattle.std.specs.Prelude.{◌≡◌, ◌<◌, ℕ, List, [], Option, Some, IfSome, IfNone, length, slice_index_or};
ghost use Rattle.ob_row.specs.Rows.{Row};
ghost use Rattle.ob_mutate.specs.Batches.{AreAscending, ArePlaces, put_into, rows_of};

use ob_base::{Items, Schema};
use ob_flat::Change;
use ob_room::ClearRow;
use ob_row::{Cell, Malformed, encode, read};

// The row that goes to the slot of an index, if there is one.
fn row_for<'a>(batch: &'a [Items<Cell>], free: &[u32], taken: &[u32], i: u32) -> Option<&'a [Cell]>
    requires rise { (below : ℕ) × AreAscending 0 below free.now }
    requires places { ArePlaces (length batch.now) taken.now }
    ensures some { IfSome result (λ cells. (slot : Option Row)
        → put_into free.now (rows_of batch.now taken.now) i slot ≡ Some cells.now) }
    ensures inside { IfSome result (λ cells. (j : ℕ) × (j < length batch.now)
        × (cells.now ≡ slice_index_or batch.now j [])) }
    ensures none { IfNone result ((slot : Option Row)
        → put_into free.now (rows_of batch.now taken.now) i slot ≡ slot) }
{
    match free.binary_search(&i) {
        Ok(k) => {
            if k < taken.len() {
                Some(batch[taken[k] as usize].as_slice())
            } else {
                None
            }
        }
        Err(_) => None,
    }
}

// Puts rows of a batch into free slots, the first of those that are taken into the first of these.
#[derive(Drop)]
pub(crate) struct Puts<'a> {
    pub(crate) batch: &'a [Items<Cell>],
    pub(crate) free: &'a [u32],
    pub(crate) taken: &'a [u32],
}

impl<'a> Change for Puts<'a> {
    ghost use Rattle.std.specs.Prelude.{ℕ, false, refl, length};
    ghost use Rattle.ob_mutate.specs.Batches.{AreAscending, AreFit, ArePlaces, put_into, put_into_fits, rows_of};

    ghost to = { λ put i slot.
        put_into put.free.now (rows_of put.batch.now put.taken.now) i slot };

    ghost picks = { λ put slot. false };

    ghost Suits = { λ put columns. ((below : ℕ) × AreAscending 0 below put.free.now)
        × ArePlaces (length put.batch.now) put.taken.now × AreFit columns put.batch.now };

    ghost none = { λ put. refl };

    ghost keeps = { λ put columns i slot suits fits.
        put_into_fits columns put.free.now put.batch.now put.taken.now i slot
        suits.1 suits.2 fits };

    fn change(&self, i: u32, schema: &Schema, row: &mut ClearRow) -> Result<bool, Malformed> {
        read(schema, row)?;
        if let Some(cells) = row_for(self.batch, self.free, self.taken, i) {
            encode(schema, cells, row);
        }
        Ok(false)
    }
}
