//! Closings, written.
ghost use Rattle.std.specs.Prelude.{◌≡◌, ◌<◌, ◌≤◌, ◌+◌, ◌-◌, ◌^◌, max, length, take};
ghost use Rattle.std.specs.List.{All};
ghost use Rattle.ob_blocks.specs.Idle.{IsIdle};
ghost use Rattle.ob_vault.specs.Places.{at, RowsFit};
ghost use Rattle.ob_vault.specs.Rows.{SameSizes};
ghost use Rattle.ob_vault.specs.Tied.{IsOwn, Lives, OnTurn};
ghost use Rattle.ob_vault.specs.Words.{MayAsk};
ghost use Rattle.ob_reopen.specs.declared.listed.Listed.{Listed as Entry};
ghost use Rattle.ob_reopen.specs.Closings.{region_of, row_of};
ghost use Rattle.ob_reopen.specs.Writings.{FillsClosing, WritesClosing};

use crate::closing::Closing;
use crate::fault::{CloseErr, close_error};
use crate::listed::Listed;
use crate::spelling::{TEXT_LEN, put_head, put_table};
use ob_room::{ClearRow, RowBuffer};
use ob_store::BlockStore;
use ob_vault::{Order, Revisions, Vault, VaultErr};

// Writes what stands at a place of the closing in this region.
fn put_text(region: u64, listed: &[Listed], place: u32, text: &mut [u8])
    requires region { region < 2 ^ 64 - 1 }
    requires few { length listed.now ≤ 64 }
    requires within { place ≤ length listed.now }
    requires columns { All (λ (t : Entry). length t.table.heading.schema ≤ 16) listed.now }
    requires size { length text.old ≡ 1024 }
    ensures { text.new ≡ row_of region listed.now place }
{
    if place == 0 {
        put_head(region + 1, listed.len() as u32, text);
    } else {
        put_table(&listed[place as usize - 1], text);
    }
}

// The same, and zeros after it.
fn fill_row(region: u64, listed: &[Listed], place: u32, bytes: &mut [u8])
    requires region { region < 2 ^ 64 - 1 }
    requires few { length listed.now ≤ 64 }
    requires within { place ≤ length listed.now }
    requires columns { All (λ (t : Entry). length t.table.heading.schema ≤ 16) listed.now }
    requires wide { 1024 ≤ length bytes.old }
    ensures text { take 1024 bytes.new ≡ row_of region listed.now place }
    ensures size { length bytes.new ≡ length bytes.old }
{
    let (text, behind) = bytes.split_at_mut(TEXT_LEN);
    put_text(region, listed, place, text);
    behind.fill(0);
}

fn put_row(region: u64, listed: &[Listed], place: u32, row: &mut ClearRow)
    requires region { region < 2 ^ 64 - 1 }
    requires few { length listed.now ≤ 64 }
    requires within { place ≤ length listed.now }
    requires columns { All (λ (t : Entry). length t.table.heading.schema ≤ 16) listed.now }
    requires wide { 1024 ≤ length row.old }
    ensures text { take 1024 row.new ≡ row_of region listed.now place }
    ensures size { length row.new ≡ length row.old }
{
    fill_row(region, listed, place, row.bytes_mut());
}

// Writes each row of a closing to its place, in order.
fn put_rows<S: BlockStore, R: Revisions>(
    store: &mut S,
    vault: &mut Vault<R>,
    rows: &mut [ClearRow],
    region: u64,
    listed: &[Listed],
) -> Result<(), VaultErr>
    requires asks { MayAsk (length listed.now + 1) (at R.state vault.old (S.state store.old)) }
    requires region { region < 2 ^ 64 - 1 }
    requires few { length listed.now ≤ 64 }
    requires columns { All (λ (t : Entry). length t.table.heading.schema ≤ 16) listed.now }
    requires lives { Lives region (region_of (length listed.now + 1))
        (at R.state vault.old (S.state store.old)) }
    requires turn { OnTurn region (region_of (length listed.now + 1)) 0
        (at R.state vault.old (S.state store.old)) }
    requires own { IsOwn region (at R.state vault.old (S.state store.old)) }
    requires fit { RowsFit rows.old 1024 }
    requires one { length rows.old ≡ 1 }
    ensures rows { SameSizes rows.old rows.new }
    ensures fills { FillsClosing region listed.now result
        (at R.state vault.old (S.state store.old)) (at R.state vault.new (S.state store.new)) }
{
    for place in 0..listed.len() as u32 + 1 {
        put_row(region, listed, place, &mut rows[0]);
        vault.put(store, region, place, rows)?;
    }
    Ok(())
}

// Makes a closing, and writes it by a row.
fn close_rows<S: BlockStore, R: Revisions>(
    store: &mut S,
    vault: &mut Vault<R>,
    rows: &mut [ClearRow],
    listed: &[Listed],
    pack: u8,
) -> Result<Closing, CloseErr>
    requires asks { MayAsk (2 + length listed.now)
        (at R.state vault.old (S.state store.old)) }
    requires few { length listed.now ≤ 64 }
    requires columns { All (λ (t : Entry). length t.table.heading.schema ≤ 16) listed.now }
    requires fit { RowsFit rows.old 1024 }
    requires one { length rows.old ≡ 1 }
    ensures rows { SameSizes rows.old rows.new }
    ensures writes { WritesClosing pack listed.now result
        (at R.state vault.old (S.state store.old)) (at R.state vault.new (S.state store.new)) }
{
    let blocks = listed.len() as u32 + 1;
    let region = match vault.make(store, blocks, TEXT_LEN as u32, Order::Round) {
        Ok(region) => region,
        Err(e) => return Err(close_error(e)),
    };
    match put_rows(store, vault, rows, region, listed) {
        Ok(()) => Ok(Closing {
            region,
            blocks,
            number: vault.number(region, 0),
            pack,
        }),
        Err(e) => {
            vault.forget(region);
            Err(close_error(e))
        }
    }
}

/// Makes a region that lists these tables: a block for its head, and one for each of them. `Failed` where the
/// store failed, or `NoMemory` before anything is written; the region is forgotten then.
pub fn write_closing<S: BlockStore, R: Revisions>(
    store: &mut S,
    vault: &mut Vault<R>,
    room: &mut RowBuffer,
    listed: &[Listed],
) -> Result<Closing, CloseErr>
    requires asks { MayAsk (2 + length listed.now)
        (at R.state vault.old (S.state store.old)) }
    requires few { length listed.now ≤ 64 }
    requires columns { All (λ (t : Entry). length t.table.heading.schema ≤ 16) listed.now }
    requires room { IsIdle 1024 room.old }
    ensures room { room.new ≡ record room.old { high = max room.old.high 1 } }
    ensures writes { WritesClosing room.old.pack listed.now result
        (at R.state vault.old (S.state store.old)) (at R.state vault.new (S.state store.new)) }
{
    let pack = room.pack() as u8;
    let rows = room.open(1);
    let result = close_rows(store, vault, rows, listed, pack);
    room.clear_shelf();
    result
}
