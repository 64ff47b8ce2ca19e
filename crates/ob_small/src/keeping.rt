//! A block's selected rows, kept.
ghost use Rattle.std.specs.Prelude.{◌≤◌, ◌+◌, length};
ghost use Rattle.ob_base.specs.Schemas.{width};
ghost use Rattle.ob_vault.specs.Rows.{SameSizes, Wide};
ghost use Rattle.ob_row.specs.Truth.{is_true};
ghost use Rattle.ob_small.specs.Keeping.{KeepsRow, KeepsRows};

use ob_base::Schema;
use ob_flat::copy_row;
use ob_room::ClearRow;
use ob_row::{Malformed, Pred, holds};

// Keeps a selected row, before which there are so many: the first row that is kept is the one of number
// `from`, and none is kept from number `k` on.
fn keep_row(schema: &Schema, row: &ClearRow, seen: u32, from: u32, k: u32, kept: &mut [ClearRow])
    requires row { width schema.now ≤ length row.now }
    requires wide { Wide (width schema.now) kept.old }
    ensures size { SameSizes kept.old kept.new }
    ensures keeps { KeepsRow schema.now row.now seen from k kept.old kept.new }
{
    if from <= seen && seen < k {
        let i = (seen - from) as usize;
        if i < kept.len() {
            copy_row(schema, row, &mut kept[i]);
        }
    }
}

// Keeps the selected rows of a block, and answers how many there are with those before it.
pub(crate) fn keep_rows(
    pred: &Pred,
    schema: &Schema,
    rows: &[ClearRow],
    seen: u32,
    from: u32,
    k: u32,
    kept: &mut [ClearRow],
) -> Result<u32, Malformed>
    requires wide { Wide (width schema.now) rows.now }
    requires kept { Wide (width schema.now) kept.old }
    requires few { seen + length rows.now ≤ 2147483648 }
    ensures size { SameSizes kept.old kept.new }
    ensures keeps { KeepsRows (is_true pred.now) schema.now rows.now seen from k result
        kept.old kept.new }
{
    let mut n = seen;
    for z in 0..rows.len() {
        match holds(pred, schema, &rows[z]) {
            Ok(selected) => {
                if selected {
                    keep_row(schema, &rows[z], n, from, k, kept);
                    n += 1;
                }
            }
            Err(malformed) => return Err(malformed),
        }
    }
    Ok(n)
}
