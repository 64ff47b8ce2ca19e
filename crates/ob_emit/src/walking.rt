//! The reads of an emission, without any rows.
ghost use Rattle.std.specs.Prelude.{◌≡◌, ◌≤◌, ◌<◌, ◌+◌, max, length};
ghost use Rattle.ob_base.specs.Schemas.{width};
ghost use Rattle.ob_vault.specs.Places.{at};
ghost use Rattle.ob_vault.specs.Rows.{SameSizes};
ghost use Rattle.ob_blocks.specs.Idle.{IsIdle};
ghost use Rattle.ob_flat.specs.Flats.{FitsRegion, IsWritten};
ghost use Rattle.ob_flat.specs.Words.{HasSpare, FitBlock, blocks_of};
ghost use Rattle.ob_flat.specs.Scans.{MayScan};
ghost use Rattle.ob_emit.specs.Emitting.{WalksBlock, Walks};

use ob_flat::{Flat, OpErr, Visit, scan_block, scan_blocks};
use ob_room::{ClearRow, RowBuffer};
use ob_row::{Malformed, read};
use ob_store::BlockStore;
use ob_vault::{Revisions, Vault};

// Looks at each row, and keeps nothing of it.
#[derive(Drop)]
pub(crate) struct Look;

impl Visit for Look {
    ghost use Rattle.std.specs.Prelude.{⊤};

    ghost after = { λ flat look i slot. look };

    ghost Suits = { λ flat look i. ⊤ };

    fn visit(&mut self, _i: u32, flat: &Flat, row: &ClearRow) -> Result<(), Malformed> {
        read(&flat.schema, row)?;
        Ok(())
    }
}

/// Makes the read of an emission of one block, into these rows, of which there are as many as a block has,
/// and emits nothing. `Failed` where the store failed, and `Tampered` where the block is not what was
/// written there last, or has a malformed row. It takes no memory.
pub fn walk_block<S: BlockStore, R: Revisions>(
    store: &mut S,
    vault: &mut Vault<R>,
    rows: &mut [ClearRow],
    flat: &Flat,
    place: u32,
) -> Result<(), OpErr>
    requires spare { HasSpare 1 (at R.state vault.old (S.state store.old)) }
    requires table { MayScan (length rows.old) flat.now
        (at R.state vault.old (S.state store.old)) }
    requires within { place < blocks_of (length rows.old) flat.now }
    requires fit { FitBlock flat.now.schema rows.old }
    ensures rows { SameSizes rows.old rows.new }
    ensures spent { (S.state store.old).spare ≤ (S.state store.new).spare + 1 }
    ensures walks { WalksBlock (length rows.old) flat.now place result
        (at R.state vault.old (S.state store.old)) (at R.state vault.new (S.state store.new)) }
{
    scan_block(store, vault, rows, flat, place, &mut Look)
}

fn walk_blocks<S: BlockStore, R: Revisions>(
    store: &mut S,
    vault: &mut Vault<R>,
    rows: &mut [ClearRow],
    flat: &Flat,
) -> Result<(), OpErr>
    requires spare { HasSpare (blocks_of (length rows.old) flat.now)
        (at R.state vault.old (S.state store.old)) }
    requires table { MayScan (length rows.old) flat.now
        (at R.state vault.old (S.state store.old)) }
    requires fit { FitBlock flat.now.schema rows.old }
    ensures rows { SameSizes rows.old rows.new }
    ensures walks { Walks (length rows.old) flat.now result
        (at R.state vault.old (S.state store.old)) (at R.state vault.new (S.state store.new)) }
{
    scan_blocks(store, vault, rows, flat, &mut Look)
}

/// Makes the reads of an emission, and emits nothing. `Failed` where the store failed, and `Tampered`
/// with the place of a block that is not what was written there last, or that has a malformed row. It
/// takes no memory.
pub fn walk<S: BlockStore, R: Revisions>(
    store: &mut S,
    vault: &mut Vault<R>,
    room: &mut RowBuffer,
    flat: &Flat,
) -> Result<(), OpErr>
    requires spare { HasSpare (blocks_of room.old.pack flat.now)
        (at R.state vault.old (S.state store.old)) }
    requires flat { IsWritten room.old.pack flat.now (at R.state vault.old (S.state store.old)) }
    requires size { FitsRegion room.old.pack flat.now.schema flat.now.capacity }
    requires room { IsIdle (width flat.now.schema) room.old }
    ensures room { room.new ≡ record room.old { high = max room.old.high room.old.pack } }
    ensures walks { Walks room.old.pack flat.now result
        (at R.state vault.old (S.state store.old)) (at R.state vault.new (S.state store.new)) }
{
    let pack = room.pack();
    let rows = room.open(pack);
    let result = walk_blocks(store, vault, rows, flat);
    room.clear_shelf();
    result
}
