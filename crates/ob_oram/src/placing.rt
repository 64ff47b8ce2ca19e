//! The rows of a buffer put in their places.
ghost use Rattle.std.specs.Prelude.{◌≡◌, ◌<◌, ◌≤◌, ◌+◌, ◌/◌, ℕ, Option, None, length, min, slice_index_or, IsSome, MatchOption};
ghost use Rattle.ob_base.specs.Schemas.{Columns};
ghost use Rattle.ob_row.specs.Rows.{Row};
ghost use Rattle.ob_row.specs.Slots.{Slots};
ghost use Rattle.ob_tree.specs.Places.{lies_at, IsLeast, NoneLies};
ghost use Rattle.ob_oram.specs.Buffers.{held_key, held_leaf, IsBuffer, Sees, Steps, Places};

use crate::held::Held;
use ob_room::ClearRow;

// Whether the paths of two leaves have one bucket at a height above the leaves.
fn lies(row: Held, height: u32, leaf: u32) -> bool
    requires { height < 32 }
    ensures { result ≡ lies_at held_leaf leaf height row }
{
    row.leaf >> height == leaf >> height
}

// The place and key of the least row from a place on that may lie on a leaf's path at a height.
fn least(buffer: &[Option<Held>], from: usize, height: u32, leaf: u32) -> Option<(usize, u32)>
    requires from { from ≤ length buffer.now }
    requires height { height < 32 }
    ensures { MatchOption result
        (NoneLies held_leaf leaf height buffer.now from (length buffer.now))
        (λ b. IsLeast held_key held_leaf leaf height buffer.now from
        (length buffer.now) b.0 b.1) }
{
    let mut best: Option<(usize, u32)> = None;
    for q in from..buffer.len() {
        if let Some(row) = buffer[q] {
            if lies(row, height, leaf) {
                match best {
                    None => best = Some((q, row.key)),
                    Some(b) => {
                        if row.key < b.1 {
                            best = Some((q, row.key));
                        }
                    }
                }
            }
        }
    }
    best
}

// The first empty slot from a place on.
fn gap(buffer: &[Option<Held>], from: usize) -> Option<usize>
    requires { from ≤ length buffer.now }
    ensures { MatchOption result
        ((k : ℕ) → from ≤ k → k < length buffer.now → IsSome (slice_index_or buffer.now k None))
        (λ q. (from ≤ q) × (q < length buffer.now) × (slice_index_or buffer.now q None ≡ None)) }
{
    for q in from..buffer.len() {
        if buffer[q].is_none() {
            return Some(q);
        }
    }
    None
}

// Puts the least row that may lie in slot i there, or else an empty slot; false where there is neither.
fn step(
    buffer: &mut [Option<Held>],
    rows: &mut [ClearRow],
    i: usize,
    height: u32,
    leaf: u32,
) -> bool
    requires inside { i < length buffer.old }
    requires count { length rows.old ≡ length buffer.old }
    requires height { height < 32 }
    ensures count { (length buffer.new ≡ length buffer.old) × (length rows.new ≡ length rows.old) }
    ensures wide { (w : ℕ) → IsBuffer w rows.old → IsBuffer w rows.new }
    ensures sees { (columns : Columns) (key lf : Row → ℕ) (slots : Slots)
        → Sees columns key lf slots buffer.old rows.old
        → (after : Slots) × Sees columns key lf after buffer.new rows.new
        × Steps key lf leaf height i slots after result }
{
    match least(buffer, i, height, leaf) {
        Some(b) => {
            buffer.swap(i, b.0);
            rows.swap(i, b.0);
            true
        }
        None => match gap(buffer, i) {
            Some(q) => {
                buffer.swap(i, q);
                rows.swap(i, q);
                true
            }
            None => false,
        },
    }
}

/// Puts the rows of a buffer into the slots of a leaf's path, from the leaf up, and then into those of the stash, in
/// place: each slot takes the row of the least key that may lie in it, among those left. The buffer has `n` slots,
/// 4 for each height from 0 to `height` and the stash's after them, and one more, for a row that is put in. False
/// where a row is left for which there is no slot.
pub fn place(
    buffer: &mut [Option<Held>],
    rows: &mut [ClearRow],
    n: usize,
    height: u32,
    leaf: u32,
) -> bool
    requires room { length buffer.old ≡ n + 1 }
    requires count { length rows.old ≡ length buffer.old }
    requires height { height < 32 }
    ensures count { (length buffer.new ≡ length buffer.old) × (length rows.new ≡ length rows.old) }
    ensures wide { (w : ℕ) → IsBuffer w rows.old → IsBuffer w rows.new }
    ensures sees { (columns : Columns) (key lf : Row → ℕ) (slots : Slots)
        → Sees columns key lf slots buffer.old rows.old
        → (after : Slots) × Sees columns key lf after buffer.new rows.new
        × Places key lf leaf height n slots after result }
{
    for i in 0..n {
        let above = height_of(i, height);
        if !step(buffer, rows, i, above, leaf) {
            return false;
        }
    }
    match buffer[n] {
        None => true,
        Some(_) => false,
    }
}

// The height above the leaves of a slot of the path, or of the root for those of the stash.
fn height_of(i: usize, height: u32) -> u32
    requires { height < 32 }
    ensures is { result ≡ min (i / 4) height }
    ensures small { result < 32 }
{
    if i / 4 < height as usize {
        (i / 4) as u32
    } else {
        height
    }
}
