//! A block's rows, put to their groups.
ghost use Rattle.std.specs.Prelude.{◌≡◌, ◌≤◌, IfOk, length};
ghost use Rattle.ob_base.specs.Schemas.{width};
ghost use Rattle.ob_vault.specs.Rows.{Wide};
ghost use Rattle.ob_row.specs.Spelling.{kind_at};
ghost use Rattle.ob_row.specs.Truth.{is_true};
ghost use Rattle.ob_group.specs.Held.{KeepsGroups, MayGrow};
ghost use Rattle.ob_group.specs.Passes.{AreItems, AreGroupRows, GathersBlock};

use crate::groups::put_row;
use ob_base::Schema;
use ob_order::Buckets;
use ob_room::ClearRow;
use ob_row::{Item, Malformed, Pred, holds};

// Puts the selected rows of a block to their groups, of which there were so many before, and answers how
// many there are.
pub(crate) fn group_rows(
    pred: &Pred,
    schema: &Schema,
    rows: &[ClearRow],
    key: u8,
    items: &[Item],
    buckets: &mut Buckets,
    groups: &mut [ClearRow],
    before: usize,
) -> Result<usize, Malformed>
    requires wide { Wide (width schema.now) rows.now }
    requires items { AreItems schema.now key items.now }
    requires groups { AreGroupRows groups.old }
    requires held { MayGrow (kind_at schema.now key) (length items.now) before (length rows.now)
        groups.old }
    requires kept { KeepsGroups (kind_at schema.now key) before groups.old buckets.old }
    requires most { length groups.old ≤ buckets.old.most }
    ensures most { buckets.new.most ≡ buckets.old.most }
    ensures kept { IfOk result (λ n. KeepsGroups (kind_at schema.now key) n groups.new
        buckets.new) }
    ensures gathers { GathersBlock (is_true pred.now) schema.now key items.now rows.now before
        result groups.old groups.new }
{
    let mut n = before;
    for z in 0..rows.len() {
        match holds(pred, schema, &rows[z]) {
            Ok(selected) => {
                if selected {
                    n = put_row(schema, &rows[z], key, items, buckets, groups, n);
                }
            }
            Err(malformed) => return Err(malformed),
        }
    }
    Ok(n)
}
