//! Rows that are copied, or made dummies.
ghost use Rattle.std.specs.Prelude.{◌≡◌, ◌≤◌, ◌<◌, ◌++◌, ℕ, Option, None, length, drop, replicate};
ghost use Rattle.ob_base.specs.Schemas.{Columns, width};
ghost use Rattle.ob_vault.specs.Rows.{SameSizes, Wide, row_at};
ghost use Rattle.ob_row.specs.Rows.{Row};
ghost use Rattle.ob_row.specs.Spelling.{Begins};

use ob_base::Schema;
use ob_room::ClearRow;
use ob_row::width;

// Writes these bytes over the first ones.
fn copy_front(from: &[u8], to: &mut [u8])
    requires { length from.now ≤ length to.old }
    ensures { to.new ≡ from.now ++ drop (length from.now) to.old }
{
    to[..from.len()].copy_from_slice(from);
}

/// Writes the first bytes of a row, as many as a row of the table has, over those of another.
pub fn copy_row(schema: &Schema, from: &ClearRow, to: &mut ClearRow)
    requires from { width schema.now ≤ length from.now }
    requires to { width schema.now ≤ length to.old }
    ensures size { length to.new ≡ length to.old }
    ensures begins { (slot : Option Row) → Begins schema.now slot from.now
        → Begins schema.now slot to.new }
{
    copy_front(&from.bytes()[..width(schema) as usize], to.bytes_mut());
}

/// Makes a row a dummy: zeros.
pub fn clear_row(row: &mut ClearRow)
    ensures { row.new ≡ replicate (length row.old) 0 }
{
    row.bytes_mut().fill(0);
}

/// Makes each row a dummy.
pub fn clear_rows(rows: &mut [ClearRow])
    ensures size { SameSizes rows.old rows.new }
    ensures none { (columns : Columns) → Wide (width columns) rows.old
        → (i : ℕ) → i < length rows.old → Begins columns None (row_at rows.new i) }
{
    for z in 0..rows.len() {
        clear_row(&mut rows[z]);
    }
}
