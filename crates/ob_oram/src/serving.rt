//! An operation on the rows that lie open.
ghost use Rattle.std.specs.Prelude.{◌≡◌, ◌≢◌, ◌↔◌, ◌<◌, ◌≤◌, ℕ, Option, Some, None, MatchOption, length, slice_index_or};
ghost use Rattle.std.specs.List.{All};
ghost use Rattle.ob_base.specs.Schemas.{width};
ghost use Rattle.ob_vault.specs.Rows.{SameSizes, Wide};
ghost use Rattle.ob_row.specs.Rows.{Row, with_cells};
ghost use Rattle.ob_row.specs.Slots.{Slots};
ghost use Rattle.ob_row.specs.Spelling.{Begins};
ghost use Rattle.ob_oram.specs.declared.held.Remap.{Remap as Remapped};
ghost use Rattle.ob_oram.specs.declared.op.Got.TheVariants as Gots;
ghost use Rattle.ob_oram.specs.Buffers.{HasAt, NoneHas};
ghost use Rattle.ob_base.specs.Indexes.{rows_open};
ghost use Rattle.ob_oram.specs.Indexes.{IsShaped};
ghost use Rattle.ob_row.specs.Keys.{key_number};
ghost use Rattle.ob_oram.specs.Opens.{IsOpen, ServesRows, last_slot};
ghost use Rattle.ob_oram.specs.Ops.{FitsOp, FitsSet, key_of_op};

use crate::held::{Held, Remap};
use crate::index::Index;
use crate::op::{Cells, Got, Op};
use crate::opening::clear;
use ob_base::Schema;
use ob_room::ClearRow;
use ob_row::{Cell, encode, set_cell, value_of};

// The place of the first open row with a key.
fn find(buffer: &[Option<Held>], key: u32) -> Option<usize>
    ensures { MatchOption result (NoneHas key buffer.now) (HasAt key buffer.now) }
{
    for (i, slot) in buffer.iter().enumerate() {
        if let Some(held) = slot {
            if held.key == key {
                return Some(i);
            }
        }
    }
    None
}

// The cells of the row that the first bytes spell.
fn cells_of(schema: &Schema, row: &ClearRow) -> Cells
    requires wide { width schema.now ≤ length row.now }
    requires real { (cells : Row) × Begins schema.now (Some cells) row.now }
    ensures { (cells : Row) → Begins schema.now (Some cells) row.now → result ≡ cells }
{
    let mut cells = Cells::new();
    for i in 0..schema.as_slice().len() {
        cells.push(value_of(schema, row, i as u8).to_cell());
    }
    cells
}

// Writes cells of a row anew, each at its place.
fn set_cells(schema: &Schema, sets: &[(u8, Cell)], row: &mut ClearRow)
    requires wide { width schema.now ≤ length row.old }
    requires fits { (place : ℕ) × All (FitsSet schema.now place) sets.now }
    ensures size { length row.new ≡ length row.old }
    ensures told { (cells : Row) → Begins schema.now (Some cells) row.old
        → Begins schema.now (Some (with_cells sets.now cells)) row.new }
{
    for set in sets {
        set_cell(schema, set.0, &set.1, row);
    }
}

// Does an operation at the row with its key.
fn serve_row(
    index: &Index,
    op: &Op<'_>,
    i: usize,
    buffer: &mut [Option<Held>],
    rows: &mut [ClearRow],
) -> Got
    requires shaped { IsShaped index.now }
    requires op { FitsOp index.now.schema index.now.key op.now }
    requires key { key_number index.now.capacity (key_of_op op.now) < index.now.capacity }
    requires here { HasAt (key_number index.now.capacity (key_of_op op.now)) buffer.old i }
    requires wide { Wide (width index.now.schema) rows.old }
    requires open { (remap : Remapped) × (slots : Slots)
        × IsOpen index.now remap slots buffer.old rows.old }
    ensures rows { SameSizes rows.old rows.new }
    ensures buffer { length buffer.new ≡ length buffer.old }
    ensures range { result ≢ Gots.OutOfRange }
    ensures serves { (remap : Remapped) (slots : Slots)
        → IsOpen index.now remap slots buffer.old rows.old
        → (after : Slots) × IsOpen index.now remap after buffer.new rows.new
        × ServesRows index.now op.now slots after result }
{
    match op {
        Op::Get(_) => Got::Row(cells_of(&index.schema, &rows[i])),
        Op::Insert(_, _) => Got::Duplicate,
        Op::Change(_, sets) => {
            set_cells(&index.schema, sets, &mut rows[i]);
            Got::Done
        }
        Op::Remove(_) => {
            clear(&mut rows[i]);
            buffer[i] = None;
            Got::Done
        }
    }
}

// Does an operation where no row has its key: one that is put in lies in the last slot.
fn serve_none(
    index: &Index,
    op: &Op<'_>,
    remap: Remap,
    buffer: &mut [Option<Held>],
    rows: &mut [ClearRow],
) -> Got
    requires shaped { IsShaped index.now }
    requires op { FitsOp index.now.schema index.now.key op.now }
    requires remap { remap.key ≡ key_number index.now.capacity (key_of_op op.now) }
    requires key { remap.key < index.now.capacity }
    requires none { NoneHas remap.key buffer.old }
    requires buffer { length buffer.old ≡ rows_open index.now.height index.now.slots }
    requires count { length rows.old ≡ rows_open index.now.height index.now.slots }
    requires wide { Wide (width index.now.schema) rows.old }
    ensures rows { SameSizes rows.old rows.new }
    ensures buffer { length buffer.new ≡ length buffer.old }
    ensures range { result ≢ Gots.OutOfRange }
    ensures serves { (slots : Slots) → IsOpen index.now remap slots buffer.old rows.old
        → slice_index_or slots (last_slot index.now) None ≡ None
        → (after : Slots) × IsOpen index.now remap after buffer.new rows.new
        × ServesRows index.now op.now slots after result }
{
    match op {
        Op::Insert(_, cells) => {
            let last = rows.len() - 1;
            encode(&index.schema, cells, &mut rows[last]);
            buffer[last] = Some(Held {
                key: remap.key,
                leaf: remap.leaf,
            });
            Got::Done
        }
        _ => Got::None,
    }
}

// Does an operation among the open rows, the last slot of which is empty.
pub(crate) fn serve(
    index: &Index,
    op: &Op<'_>,
    remap: Remap,
    buffer: &mut [Option<Held>],
    rows: &mut [ClearRow],
) -> Got
    requires shaped { IsShaped index.now }
    requires op { FitsOp index.now.schema index.now.key op.now }
    requires remap { remap.key ≡ key_number index.now.capacity (key_of_op op.now) }
    requires buffer { length buffer.old ≡ rows_open index.now.height index.now.slots }
    requires wide { Wide (width index.now.schema) rows.old }
    requires open { (slots : Slots) × IsOpen index.now remap slots buffer.old rows.old }
    ensures rows { SameSizes rows.old rows.new }
    ensures buffer { length buffer.new ≡ length buffer.old }
    ensures range { (result ≡ Gots.OutOfRange) ↔ (remap.key ≡ index.now.capacity) }
    ensures serves { (slots : Slots) → IsOpen index.now remap slots buffer.old rows.old
        → slice_index_or slots (last_slot index.now) None ≡ None
        → (after : Slots) × IsOpen index.now remap after buffer.new rows.new
        × ServesRows index.now op.now slots after result }
{
    if remap.key >= index.capacity {
        return Got::OutOfRange;
    }
    match find(buffer, remap.key) {
        Some(i) => serve_row(index, op, i, buffer, rows),
        None => serve_none(index, op, remap, buffer, rows),
    }
}
