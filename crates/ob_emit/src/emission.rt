//! The emission of a whole table.
ghost use Rattle.std.specs.Prelude.{◌≡◌, max, length};
ghost use Rattle.ob_base.specs.Schemas.{width};
ghost use Rattle.ob_vault.specs.Places.{at};
ghost use Rattle.ob_vault.specs.Rows.{SameSizes};
ghost use Rattle.ob_blocks.specs.Idle.{IsIdle};
ghost use Rattle.ob_flat.specs.Flats.{FitsRegion, IsWritten};
ghost use Rattle.ob_flat.specs.Words.{HasSpare, FitBlock, blocks_of};
ghost use Rattle.ob_flat.specs.Scans.{MayScan};
ghost use Rattle.ob_emit.specs.Emitting.{AreColumns, Emits, header};

use crate::emitting::emit_blocks;
use crate::head::emit_head;
use ob_base::{Emit, EmitErr};
use ob_flat::{Flat, OpErr};
use ob_room::{ClearRow, RowBuffer};
use ob_store::BlockStore;
use ob_vault::{Revisions, Vault};

// The whole of it over these rows, as many as a block has.
fn emit_table<S: BlockStore, R: Revisions, E: Emit>(
    store: &mut S,
    vault: &mut Vault<R>,
    rows: &mut [ClearRow],
    flat: &Flat,
    cols: &[u8],
    out: &mut E,
) -> Result<u64, OpErr>
    requires spare { HasSpare (blocks_of (length rows.old) flat.now)
        (at R.state vault.old (S.state store.old)) }
    requires table { MayScan (length rows.old) flat.now
        (at R.state vault.old (S.state store.old)) }
    requires fit { FitBlock flat.now.schema rows.old }
    requires columns { AreColumns flat.now.schema cols.now }
    ensures rows { SameSizes rows.old rows.new }
    ensures emits { Emits E.grew E.cut E.faults (length rows.old) flat.now cols.now
        (header flat.now.schema cols.now) result
        (at R.state vault.old (S.state store.old)) (at R.state vault.new (S.state store.new))
        out.old out.new }
{
    match emit_head(&flat.schema, cols, out) {
        Ok(()) => match emit_blocks(store, vault, rows, flat, cols, out) {
            Ok(k) => Ok(u64::from(k)),
            Err(e) => Err(e),
        },
        Err(EmitErr::Failed) => Err(OpErr::Sink),
        Err(EmitErr::NoMemory) => Err(OpErr::NoMemory),
    }
}

/// Emits a table: the header of the columns at these places, and then, reading each block once, in order,
/// the cells of these columns of each row below the capacity, in order of their slots. Answers how many
/// rows there were.
///
/// `Failed` where the store failed; `Tampered` with the place of a block that is not what was written
/// there last, or that has a malformed row; `Sink` where the emitter failed, and `NoMemory` where it had
/// no memory. What was emitted by then is a first part of the whole. It takes no memory itself.
pub fn emit_all<S: BlockStore, R: Revisions, E: Emit>(
    store: &mut S,
    vault: &mut Vault<R>,
    room: &mut RowBuffer,
    flat: &Flat,
    cols: &[u8],
    out: &mut E,
) -> Result<u64, OpErr>
    requires spare { HasSpare (blocks_of room.old.pack flat.now)
        (at R.state vault.old (S.state store.old)) }
    requires flat { IsWritten room.old.pack flat.now (at R.state vault.old (S.state store.old)) }
    requires size { FitsRegion room.old.pack flat.now.schema flat.now.capacity }
    requires room { IsIdle (width flat.now.schema) room.old }
    requires columns { AreColumns flat.now.schema cols.now }
    ensures room { room.new ≡ record room.old { high = max room.old.high room.old.pack } }
    ensures emits { Emits E.grew E.cut E.faults room.old.pack flat.now cols.now
        (header flat.now.schema cols.now) result
        (at R.state vault.old (S.state store.old)) (at R.state vault.new (S.state store.new))
        out.old out.new }
{
    let pack = room.pack();
    let rows = room.open(pack);
    let result = emit_table(store, vault, rows, flat, cols, out);
    room.clear_shelf();
    result
}
