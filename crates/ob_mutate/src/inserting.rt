//! INSERT of one row.
ghost use Rattle.std.specs.Prelude.{◌≡◌, ◌≢◌, ◌+◌, ◌*◌, max, Option, None, length, is_some, if◌then◌else◌};
ghost use Rattle.ob_base.specs.Schemas.{width};
ghost use Rattle.ob_vault.specs.Places.{at};
ghost use Rattle.ob_vault.specs.Rows.{SameSizes};
ghost use Rattle.ob_vault.specs.Words.{MayAsk, MayStart};
ghost use Rattle.ob_row.specs.Spelling.{FitsColumns};
ghost use Rattle.ob_blocks.specs.Idle.{IsIdle};
ghost use Rattle.ob_flat.specs.Flats.{IsSized, IsMade, IsFlat};
ghost use Rattle.ob_flat.specs.Words.{IsTable, FitBlock, blocks_of, moved};
ghost use Rattle.ob_mutate.specs.Inserting.{insert_answer};
ghost use Rattle.ob_mutate.specs.Mutating.{FillsFresh, Inserts, place_script, inserted_slots};

use crate::searching::{Finds, Search, key_place};
use crate::settling::{Former, move_table};
use ob_base::Schema;
use ob_flat::{Change, Flat, OpErr, make_table, scan_blocks, swap_blocks};
use ob_room::{ClearRow, RowBuffer};
use ob_row::{Cell, Malformed, encode, read};
use ob_store::BlockStore;
use ob_vault::{Order, Revisions, Vault};

/// What an INSERT answers: the row was inserted; a row with its primary key is there; or each slot has a
/// row. Of the last two the first is answered where both hold.
#[derive(Clone, Copy, Debug, PartialEq, Eq)]
pub enum Inserted {
    Done,
    Duplicate,
    Full,
}

// Puts a row into the slot of one index, if there is one.
#[derive(Drop)]
pub(crate) struct Put<'a> {
    target: Option<u32>,
    cells: &'a [Cell],
}

impl<'a> Change for Put<'a> {
    ghost use Rattle.std.specs.Prelude.{false, refl};
    ghost use Rattle.ob_row.specs.Spelling.{FitsColumns};
    ghost use Rattle.ob_mutate.specs.Searches.{put_at, put_fits};

    ghost to = { λ put i slot. put_at put.target put.cells.now i slot };

    ghost picks = { λ put slot. false };

    ghost Suits = { λ put columns. FitsColumns columns put.cells.now };

    ghost none = { λ put. refl };

    ghost keeps = { λ put columns i slot suits fits.
        put_fits columns put.target put.cells.now i slot suits fits };

    fn change(&self, i: u32, schema: &Schema, row: &mut ClearRow) -> Result<bool, Malformed> {
        read(schema, row)?;
        if self.target == Some(i) {
            encode(schema, self.cells, row);
        }
        Ok(false)
    }
}

impl Finds {
    fn answer(self) -> Inserted
        ensures { result ≡ (if self.duplicate then Inserted.Duplicate
            else (if is_some self.free then Inserted.Done else Inserted.Full)) }
    {
        match (self.duplicate, self.free) {
            (true, _) => Inserted::Duplicate,
            (false, Some(_)) => Inserted::Done,
            (false, None) => Inserted::Full,
        }
    }

    // Where the row goes.
    fn target(self) -> Option<u32>
        ensures { result ≡ (if self.duplicate then None else self.free) }
    {
        if self.duplicate { None } else { self.free }
    }
}

// Reads the whole table, and then writes it to the fresh region, with the row in its slot.
fn insert_blocks<S: BlockStore, R: Revisions>(
    store: &mut S,
    vault: &mut Vault<R>,
    rows: &mut [ClearRow],
    flat: &Flat,
    fresh: u64,
    cells: &[Cell],
) -> Result<Inserted, OpErr>
    requires asks { MayAsk (3 * blocks_of (length rows.old) flat.now)
        (at R.state vault.old (S.state store.old)) }
    requires table { IsTable (length rows.old) flat.now (at R.state vault.old (S.state store.old)) }
    requires made { IsMade (length rows.old) (moved flat.now fresh)
        (at R.state vault.old (S.state store.old)) }
    requires apart { flat.now.region ≢ fresh }
    requires fit { FitBlock flat.now.schema rows.old }
    requires cells { FitsColumns flat.now.schema cells.now }
    ensures rows { SameSizes rows.old rows.new }
    ensures fills { FillsFresh (length rows.old) flat.now fresh
        (place_script (length rows.old) flat.now fresh)
        (insert_answer flat.now.schema cells.now) (inserted_slots flat.now cells.now) result
        (at R.state vault.old (S.state store.old)) (at R.state vault.new (S.state store.new)) }
{
    let mut search = Search {
        key: key_place(&flat.schema),
        cells,
        finds: Finds {
            free: None,
            duplicate: false,
        },
    };
    scan_blocks(store, vault, rows, flat, &mut search)?;
    let put = Put {
        target: search.finds.target(),
        cells,
    };
    swap_blocks(store, vault, rows, flat, fresh, &put)?;
    Ok(search.finds.answer())
}

// The whole pass over these rows, as many as a block has.
fn insert_rows<S: BlockStore, R: Revisions>(
    store: &mut S,
    vault: &mut Vault<R>,
    rows: &mut [ClearRow],
    flat: &mut Flat,
    cells: &[Cell],
    former: Former,
) -> Result<Inserted, OpErr>
    requires starts { MayStart (3 * blocks_of (length rows.old) flat.old + 2)
        (at R.state vault.old (S.state store.old)) }
    requires table { IsTable (length rows.old) flat.old (at R.state vault.old (S.state store.old)) }
    requires fit { FitBlock flat.old.schema rows.old }
    requires cells { FitsColumns flat.old.schema cells.now }
    ensures rows { SameSizes rows.old rows.new }
    ensures inserts { Inserts former (length rows.old) flat.old flat.new cells.now result
        (at R.state vault.old (S.state store.old)) (at R.state vault.new (S.state store.new)) }
{
    let pack = rows.len() as u32;
    let fresh = make_table(
        store,
        vault,
        &flat.schema,
        flat.capacity,
        pack,
        Order::Round,
    )?;
    match insert_blocks(store, vault, rows, flat, fresh, cells) {
        Ok(answer) => {
            move_table(store, vault, flat, fresh, former);
            Ok(answer)
        }
        Err(e) => {
            vault.forget(fresh);
            Err(e)
        }
    }
}

/// Inserts a row into the first empty slot of a table. A fresh region is made; each block of the table
/// is read, in order; then each is read again and written to the fresh region, with the row in its slot,
/// or as it was where the row is refused; the table has the fresh region, and of its old one becomes what
/// `former` says.
///
/// `Failed` where the store failed, `Tampered` with the place of a block that is not what was written
/// there last, or that has a malformed row, and `NoMemory` before anything is written. After an error
/// the table is as before, and the fresh region is forgotten.
pub fn insert<S: BlockStore, R: Revisions>(
    store: &mut S,
    vault: &mut Vault<R>,
    room: &mut RowBuffer,
    flat: &mut Flat,
    cells: &[Cell],
    former: Former,
) -> Result<Inserted, OpErr>
    requires starts { MayStart (3 * blocks_of room.old.pack flat.old + 2)
        (at R.state vault.old (S.state store.old)) }
    requires flat { IsFlat room.old.pack flat.old (at R.state vault.old (S.state store.old)) }
    requires size { IsSized flat.old.schema flat.old.capacity }
    requires room { IsIdle (width flat.old.schema) room.old }
    requires cells { FitsColumns flat.old.schema cells.now }
    ensures room { room.new ≡ record room.old { high = max room.old.high room.old.pack } }
    ensures inserts { Inserts former room.old.pack flat.old flat.new cells.now result
        (at R.state vault.old (S.state store.old)) (at R.state vault.new (S.state store.new)) }
{
    let pack = room.pack();
    let rows = room.open(pack);
    let result = insert_rows(store, vault, rows, flat, cells, former);
    room.clear_shelf();
    result
}
