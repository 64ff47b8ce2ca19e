//! The emission of one block.
ghost use Rattle.std.specs.Prelude.{◌≡◌, ◌≤◌, ◌<◌, ◌+◌, ◌*◌, [], length};
ghost use Rattle.ob_vault.specs.Places.{at};
ghost use Rattle.ob_vault.specs.Rows.{SameSizes};
ghost use Rattle.ob_flat.specs.Words.{HasSpare, FitBlock, blocks_of};
ghost use Rattle.ob_flat.specs.Scans.{MayScan};
ghost use Rattle.ob_emit.specs.Emitting.{AreColumns, EmitsBlock, Emits};

use crate::slots::emit_rows;
use ob_base::{Emit, Shown};
use ob_flat::{Flat, OpErr};
use ob_room::ClearRow;
use ob_store::BlockStore;
use ob_vault::{Revisions, Vault};
use std::array;

/// Reads one block of a table into these rows, as many as a block has, and emits the cells of these
/// columns of each row below the capacity, in order of their slots. Answers how many rows were emitted,
/// with the `seen` ones of the blocks before. The cells of each row are put over the first of these.
///
/// `Failed` where the store failed; `Tampered` where the block is not what was written there last, or has
/// a malformed row; `Sink` where the emitter failed, and `NoMemory` where it had no memory. What was
/// emitted by then is a first part of the block's. It takes no memory itself.
pub fn emit_block<S: BlockStore, R: Revisions, E: Emit>(
    store: &mut S,
    vault: &mut Vault<R>,
    rows: &mut [ClearRow],
    flat: &Flat,
    cols: &[u8],
    place: u32,
    seen: u32,
    cells: &mut [Shown],
    out: &mut E,
) -> Result<u32, OpErr>
    requires spare { HasSpare 1 (at R.state vault.old (S.state store.old)) }
    requires table { MayScan (length rows.old) flat.now
        (at R.state vault.old (S.state store.old)) }
    requires within { place < blocks_of (length rows.old) flat.now }
    requires fit { FitBlock flat.now.schema rows.old }
    requires columns { AreColumns flat.now.schema cols.now }
    requires seen { (seen ≤ place * length rows.old) × (seen ≤ flat.now.capacity) }
    requires few { length cols.now ≤ length cells.old }
    ensures rows { SameSizes rows.old rows.new }
    ensures cells { length cells.new ≡ length cells.old }
    ensures spent { (S.state store.old).spare ≤ (S.state store.new).spare + 1 }
    ensures emits { EmitsBlock E.grew E.cut E.faults (length rows.old) flat.now cols.now place seen
        result (at R.state vault.old (S.state store.old))
        (at R.state vault.new (S.state store.new)) out.old out.new }
{
    let first = place * rows.len() as u32;
    vault.get(store, flat.region, place, rows)?;
    match emit_rows(out, first, seen, flat, cols, rows, cells) {
        Ok(n) => Ok(n),
        Err(halt) => Err(halt.error(flat.region, place)),
    }
}

// Reads each block of a table once, in order, into these rows, as many as a block has, and emits the
// rows that it has. Answers how many there are.
pub(crate) fn emit_blocks<S: BlockStore, R: Revisions, E: Emit>(
    store: &mut S,
    vault: &mut Vault<R>,
    rows: &mut [ClearRow],
    flat: &Flat,
    cols: &[u8],
    out: &mut E,
) -> Result<u32, OpErr>
    requires spare { HasSpare (blocks_of (length rows.old) flat.now)
        (at R.state vault.old (S.state store.old)) }
    requires table { MayScan (length rows.old) flat.now
        (at R.state vault.old (S.state store.old)) }
    requires fit { FitBlock flat.now.schema rows.old }
    requires columns { AreColumns flat.now.schema cols.now }
    ensures rows { SameSizes rows.old rows.new }
    ensures emits { Emits E.grew E.cut E.faults (length rows.old) flat.now cols.now [] result
        (at R.state vault.old (S.state store.old)) (at R.state vault.new (S.state store.new))
        out.old out.new }
{
    let pack = rows.len() as u32;
    let blocks = flat.capacity.div_ceil(pack);
    let mut cells: [Shown; 32] = array::from_fn(|_| Shown::Null);
    let mut k = 0;
    for u in 0..blocks {
        k = emit_block(store, vault, rows, flat, cols, u, k, &mut cells, out)?;
    }
    Ok(k)
}
