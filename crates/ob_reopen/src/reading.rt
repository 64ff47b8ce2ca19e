//! Closings, read.
ghost use Rattle.std.specs.Prelude.{◌≡◌, ◌≤◌, ◌<◌, ◌+◌, ◌-◌, [], max, length, take, vec_len, vec_capacity};
ghost use Rattle.std.specs.Bool.{OnTrue, OnFalse};
ghost use Rattle.ob_blocks.specs.Idle.{IsIdle};
ghost use Rattle.ob_vault.specs.Places.{at, RowsFit};
ghost use Rattle.ob_vault.specs.Rows.{SameSizes};
ghost use Rattle.ob_reopen.specs.Limits.{IsMarked, AreListed};
ghost use Rattle.ob_reopen.specs.Openings.{IsOpen, Follows, IsRowAt, AddsRow, ReadsBlocks, ReadsClosing};

use crate::closing::Closing;
use crate::fault::OpenErr;
use crate::listed::Listed;
use crate::parsing::{is_head, next_table};
use crate::spelling::TEXT_LEN;
use ob_base::Items;
use ob_room::{ClearRow, RowBuffer};
use ob_store::{BlockStore, Lasting};
use ob_vault::{Order, Revisions, Vault};
use std::alloc::Global;

// Adds what the row at a place of a closing lists to the tables of those before it; false where it can't stand
// there.
fn add_row(closing: Closing, place: u32, row: &ClearRow, listed: &mut Vec<Listed>) -> bool
    requires marked { IsMarked closing }
    requires wide { 1024 ≤ length row.now }
    requires before { AreListed closing listed.old.items }
    requires space { place < 1 + vec_capacity listed.old }
    requires count { vec_len listed.old ≡ place - 1 }
    ensures space { vec_capacity listed.new ≡ vec_capacity listed.old }
    ensures yes { OnTrue result
        (AddsRow closing place (take 1024 row.now) listed.old.items listed.new.items) }
    ensures no { OnFalse result
        (IsRowAt closing listed.old.items place (take 1024 row.now) → ⊥) }
{
    let (text, _) = row.bytes().split_at(TEXT_LEN);
    if place == 0 {
        return is_head(closing, text);
    }
    match next_table(closing, listed, text) {
        Some(next) => {
            listed.push_reserved(next);
            true
        }
        None => false,
    }
}

// Reads the rows of a closing that is open, in order.
fn read_rows<S: BlockStore, R: Revisions>(
    store: &mut S,
    vault: &mut Vault<R>,
    rows: &mut [ClearRow],
    closing: Closing,
    mut listed: Vec<Listed>,
) -> Result<Items<Listed>, OpenErr>
    requires marked { IsMarked closing }
    requires open { IsOpen closing (at R.state vault.old (S.state store.old)) }
    requires fit { RowsFit rows.old 1024 }
    requires one { length rows.old ≡ 1 }
    requires none { listed.items ≡ [] }
    requires space { closing.blocks ≤ 1 + vec_capacity listed }
    ensures rows { SameSizes rows.old rows.new }
    ensures reads { ReadsBlocks closing result
        (at R.state vault.old (S.state store.old)) (at R.state vault.new (S.state store.new)) }
{
    for place in 0..closing.blocks {
        vault.get(store, closing.region, place, rows)?;
        if !add_row(closing, place, &rows[0], &mut listed) {
            return Err(OpenErr::Tampered {
                region: closing.region,
                place,
            });
        }
    }
    Ok(Items::from_vec(listed))
}

// Opens a closing, and reads its rows into this one.
fn open_rows<S: Lasting, R: Revisions>(
    alloc: Global,
    store: &mut S,
    vault: &mut Vault<R>,
    rows: &mut [ClearRow],
    closing: Closing,
) -> Result<Items<Listed>, OpenErr>
    requires marked { IsMarked closing }
    requires follows { Follows closing (at R.state vault.old (S.state store.old)) }
    requires fit { RowsFit rows.old 1024 }
    requires one { length rows.old ≡ 1 }
    ensures rows { SameSizes rows.old rows.new }
    ensures reads { ReadsClosing closing result
        (at R.state vault.old (S.state store.old)) (at R.state vault.new (S.state store.new)) }
{
    let Ok(listed) = Vec::with_capacity(alloc, closing.blocks as usize - 1) else {
        return Err(OpenErr::NoMemory);
    };
    vault.resume(
        store,
        closing.region,
        closing.blocks,
        TEXT_LEN as u32,
        Order::Round,
        closing.number,
    )?;
    read_rows(store, vault, rows, closing, listed)
}

/// Opens the region of a closing, and reads which tables it lists, in order of their names. The vault is one that
/// goes on from the run that was closed so.
///
/// `NoMemory` before a block is read, with nothing asked or the opening alone. `Failed` where the store failed, or keeps no such region. `Tampered` with the
/// place of a block that is not the one that was written there, or that spells no closing.
pub fn read_closing<S: Lasting, R: Revisions>(
    alloc: Global,
    store: &mut S,
    vault: &mut Vault<R>,
    room: &mut RowBuffer,
    closing: Closing,
) -> Result<Items<Listed>, OpenErr>
    requires marked { IsMarked closing }
    requires follows { Follows closing (at R.state vault.old (S.state store.old)) }
    requires room { IsIdle 1024 room.old }
    ensures room { room.new ≡ record room.old { high = max room.old.high 1 } }
    ensures reads { ReadsClosing closing result
        (at R.state vault.old (S.state store.old)) (at R.state vault.new (S.state store.new)) }
{
    let _ = room.pack();
    let rows = room.open(1);
    let result = open_rows(alloc, store, vault, rows, closing);
    room.clear_shelf();
    result
}
