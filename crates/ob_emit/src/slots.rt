//! The emission of a block's slots.
ghost use Rattle.std.specs.Prelude.{◌≡◌, ◌≤◌, ◌<◌, ◌+◌, length};
ghost use Rattle.std.specs.List.{All};
ghost use Rattle.ob_base.specs.Schemas.{width};
ghost use Rattle.ob_vault.specs.Rows.{Wide};
ghost use Rattle.ob_emit.specs.Emitting.{EmitsSlot, EmitsRows, halt_error};

use crate::row::show_cells;
use ob_base::{Emit, EmitErr, Shown};
use ob_flat::{Flat, OpErr};
use ob_room::ClearRow;
use ob_row::{Malformed, read};

// Why not all rows of a block were emitted.
#[derive(Clone, Copy, Debug, PartialEq, Eq)]
pub(crate) enum Halt {
    Malformed,
    Emit(EmitErr),
}

impl Halt {
    // The error of a pass that halted at this block.
    pub(crate) fn error(self, region: u64, place: u32) -> OpErr
        ensures { result ≡ halt_error self region place }
    {
        match self {
            Halt::Malformed => OpErr::Tampered { region, place },
            Halt::Emit(EmitErr::Failed) => OpErr::Sink,
            Halt::Emit(EmitErr::NoMemory) => OpErr::NoMemory,
        }
    }
}

// Emits the row of the slot of index `i`, if it has one and lies below the capacity, and tells whether.
// Its cells are put over the first of these.
fn emit_slot<E: Emit>(
    out: &mut E,
    i: u32,
    flat: &Flat,
    cols: &[u8],
    row: &ClearRow,
    cells: &mut [Shown],
) -> Result<bool, Halt>
    requires wide { width flat.now.schema ≤ length row.now }
    requires few { length cols.now ≤ length cells.old }
    requires within { All (λ i. i < length flat.now.schema) cols.now }
    ensures size { length cells.new ≡ length cells.old }
    ensures emits { EmitsSlot E.grew E.cut E.faults flat.now cols.now i row.now result
        out.old out.new }
{
    match read(&flat.schema, row) {
        Ok(real) => {
            if real && i < flat.capacity {
                show_cells(&flat.schema, cols, row, cells);
                match out.row(&cells[..cols.len()]) {
                    Ok(()) => Ok(true),
                    Err(error) => Err(Halt::Emit(error)),
                }
            } else {
                Ok(false)
            }
        }
        Err(Malformed) => Err(Halt::Malformed),
    }
}

// Emits the rows of a block, the first slot of which has this index, and answers how many were emitted
// with those before it. The cells of each are put over the first of these.
pub(crate) fn emit_rows<E: Emit>(
    out: &mut E,
    first: u32,
    seen: u32,
    flat: &Flat,
    cols: &[u8],
    rows: &[ClearRow],
    cells: &mut [Shown],
) -> Result<u32, Halt>
    requires wide { Wide (width flat.now.schema) rows.now }
    requires index { first + length rows.now ≤ 2147483648 }
    requires seen { (seen ≤ first) × (seen ≤ flat.now.capacity) }
    requires few { length cols.now ≤ length cells.old }
    requires within { All (λ i. i < length flat.now.schema) cols.now }
    ensures size { length cells.new ≡ length cells.old }
    ensures emits { EmitsRows E.grew E.cut E.faults flat.now cols.now first seen rows.now result
        out.old out.new }
{
    let mut n = seen;
    for z in 0..rows.len() {
        match emit_slot(out, first + z as u32, flat, cols, &rows[z], cells) {
            Ok(some) => n += u32::from(some),
            Err(halt) => return Err(halt),
        }
    }
    Ok(n)
}
