//! Rows as the buffer has them.
ghost use Rattle.std.specs.Prelude.{◌≡◌, ◌<◌, ◌≤◌, Option, Some, IfOk, MatchResult, length, replicate, slice_index_or};
ghost use Rattle.ob_base.specs.Schemas.{width};
ghost use Rattle.ob_row.specs.Rows.{Row};
ghost use Rattle.ob_row.specs.Spelling.{Begins};
ghost use Rattle.ob_row.specs.Keys.{key_number as number_of_key};
ghost use Rattle.ob_oram.specs.Indexes.{IsShaped, key_of};
ghost use Rattle.ob_oram.specs.Opens.{OpensRow, keyed_slot, leaves_with};

use crate::held::{Held, Remap};
use crate::index::Index;
use ob_room::ClearRow;
use ob_row::{Malformed, Value, read, value_of};

// A key, where it is one of so many, and else their number.
pub(crate) fn key_number(capacity: u32, key: i64) -> u32
    ensures { result ≡ number_of_key capacity key }
{
    if key >= 0 && key < i64::from(capacity) {
        key as u32
    } else {
        capacity
    }
}

// The key of a row, or how many keys there are where it has none of them.
fn key_in(index: &Index, row: &ClearRow) -> u32
    requires shaped { IsShaped index.now }
    requires wide { width index.now.schema ≤ length row.now }
    requires real { (cells : Row) × Begins index.now.schema (Some cells) row.now }
    ensures { (cells : Row) → Begins index.now.schema (Some cells) row.now
        → result ≡ key_of index.now cells }
{
    match value_of(&index.schema, row, index.key) {
        Value::Int(key) => key_number(index.capacity, key),
        Value::Text(_) => index.capacity,
    }
}

// The leaf of a key of the index.
fn leaf_for(index: &Index, remap: Remap, key: u32) -> u32
    requires shaped { IsShaped index.now }
    requires within { key < index.now.capacity }
    ensures { result ≡ slice_index_or (leaves_with index.now remap) key 0 }
{
    if key == remap.key {
        remap.leaf
    } else {
        index.leaves[key as usize]
    }
}

// Writes zeros over a row.
pub(crate) fn clear(row: &mut ClearRow)
    ensures { row.new ≡ replicate (length row.old) 0 }
{
    row.bytes_mut().fill(0);
}

// What the buffer has of a row that was read: nothing of a dummy, and nothing of one that has no key of the index,
// over which zeros are written.
pub(crate) fn hold(
    index: &Index,
    remap: Remap,
    row: &mut ClearRow,
) -> Result<Option<Held>, Malformed>
    requires shaped { IsShaped index.now }
    requires wide { width index.now.schema ≤ length row.old }
    ensures size { length row.new ≡ length row.old }
    ensures real { IfOk result (λ _. (slot : Option Row) × Begins index.now.schema slot row.old) }
    ensures opens { (slot : Option Row) → Begins index.now.schema slot row.old → MatchResult result
        (λ held. OpensRow index.now remap (keyed_slot index.now slot) held row.new)
        (λ _. ⊥) }
{
    match read(&index.schema, row) {
        Ok(true) => {}
        Ok(false) => return Ok(None),
        Err(malformed) => return Err(malformed),
    }
    let key = key_in(index, row);
    if key < index.capacity {
        Ok(Some(Held {
            key,
            leaf: leaf_for(index, remap, key),
        }))
    } else {
        clear(row);
        Ok(None)
    }
}
