//! Tables full of rows.
ghost use Rattle.std.specs.Prelude.{◌≡◌, ◌≤◌, ◌<◌, ◌+◌, ◌^◌, max, IfOk, OnOk, length};
ghost use Rattle.ob_base.specs.Accesses.{write_at};
ghost use Rattle.ob_base.specs.Lists.{each};
ghost use Rattle.ob_base.specs.Schemas.{width};
ghost use Rattle.ob_store.specs.Calls.{ChangesNothing};
ghost use Rattle.ob_vault.specs.declared.region.Order.TheVariants.{Round};
ghost use Rattle.ob_vault.specs.Calls.{Went, one};
ghost use Rattle.ob_vault.specs.Places.{at};
ghost use Rattle.ob_vault.specs.Rows.{SameSizes, Wide};
ghost use Rattle.ob_vault.specs.Tied.{IsOwn, Lives, OnTurn};
ghost use Rattle.ob_vault.specs.Words.{MayAsk, StartsAnew};
ghost use Rattle.ob_flat.specs.declared.flat.Flat.{Flat as Table};
ghost use Rattle.ob_flat.specs.Flats.{IsSized, IsFlat, table_region};
ghost use Rattle.ob_flat.specs.Words.{FitBlock, blocks_of};
ghost use Rattle.ob_pass_bench.specs.Tables.{AreColumns, IsOpen, MayRun};

use crate::schemas::cells_of;
use ob_base::Schema;
use ob_flat::{Flat, OpErr, clear_row, make_table};
use ob_room::{ClearRow, RowBuffer};
use ob_row::encode;
use ob_store::BlockStore;
use ob_vault::{Order, Revisions, Vault};
use std::alloc::Global;
use std::io::{self, Input, Print};

/// Makes room in the store's list for so many accesses.
pub(crate) fn make_room<S: BlockStore>(store: &mut S, n: u64) -> Result<(), OpErr>
    ensures rests { ChangesNothing (S.state store.old) (S.state store.new) }
    ensures spare { OnOk result (n ≤ (S.state store.new).spare) }
    ensures few { OnOk result (length (S.state store.new).asked < 2 ^ 59) }
{
    if store.reserve(n).is_err() || store.count() >= 1 << 59 {
        return Err(OpErr::NoMemory);
    }
    Ok(())
}

// Waits for a line.
fn skip_line<H: Input + AllocGlobal>(host: &H) -> io::Result<()> {
    let mut line = String::new(host.alloc());
    host.read_line(&mut line)?;
    Ok(())
}

// Tells that all is filled, and waits for a line.
fn tell_ready<H: Input + Print + AllocGlobal>(host: &H) -> io::Result<()> {
    println!(host; "ready")?;
    skip_line(host)
}

/// Tells what a pass gave, and waits until that is heard.
pub(crate) fn tell<H: Input + Print + AllocGlobal>(host: &H, given: u64) -> io::Result<()> {
    println!(host; "{given}")?;
    skip_line(host)
}

/// Tells whoever measures that all is filled, and waits until that is heard.
pub(crate) fn wait<H: Input + Print + AllocGlobal>(host: &H) -> Result<(), OpErr> {
    match tell_ready(host) {
        Ok(()) => Ok(()),
        Err(_) => Err(OpErr::Sink),
    }
}

// Spells the row of this index, or a dummy where the table has no such row.
fn fill_row(
    alloc: Global,
    schema: &Schema,
    i: u32,
    full: u32,
    row: &mut ClearRow,
) -> Result<(), OpErr>
    requires { width schema.now ≤ length row.old }
    ensures { length row.new ≡ length row.old }
{
    if i >= full {
        clear_row(row);
        return Ok(());
    }
    match cells_of(alloc, schema, i) {
        Ok(cells) => {
            encode(schema, cells.as_slice(), row);
            Ok(())
        }
        Err(_) => Err(OpErr::NoMemory),
    }
}

// Spells the rows of a block, the first of which has this index.
fn fill_rows(
    alloc: Global,
    schema: &Schema,
    first: u32,
    full: u32,
    rows: &mut [ClearRow],
) -> Result<(), OpErr>
    requires wide { Wide (width schema.now) rows.old }
    requires index { first + length rows.old ≤ 2147483648 }
    ensures { SameSizes rows.old rows.new }
{
    for z in 0..rows.len() {
        match fill_row(alloc, schema, first + z as u32, full, &mut rows[z]) {
            Ok(()) => {}
            Err(e) => return Err(e),
        }
    }
    Ok(())
}

// Writes each block of a table of which none was written, through these rows.
fn fill_table<S: BlockStore, R: Revisions>(
    alloc: Global,
    store: &mut S,
    vault: &mut Vault<R>,
    rows: &mut [ClearRow],
    flat: &Flat,
    full: u32,
) -> Result<(), OpErr>
    requires asks { MayAsk (blocks_of (length rows.old) flat.now)
        (at R.state vault.old (S.state store.old)) }
    requires lives { Lives flat.now.region
        (table_region Round (length rows.old) flat.now.schema flat.now.capacity)
        (at R.state vault.old (S.state store.old)) }
    requires own { IsOwn flat.now.region (at R.state vault.old (S.state store.old)) }
    requires turn { OnTurn flat.now.region
        (table_region Round (length rows.old) flat.now.schema flat.now.capacity) 0
        (at R.state vault.old (S.state store.old)) }
    requires size { IsSized flat.now.schema flat.now.capacity }
    requires pack { (1 ≤ length rows.old) × (length rows.old ≤ 16) }
    requires fit { FitBlock flat.now.schema rows.old }
    ensures rows { SameSizes rows.old rows.new }
    ensures ok { OnOk result (Went
        (each (blocks_of (length rows.old) flat.now) (write_at flat.now.region))
        (one flat.now.region) (at R.state vault.old (S.state store.old))
        (at R.state vault.new (S.state store.new))) }
    ensures flat { OnOk result (IsFlat (length rows.old) flat.now
        (at R.state vault.new (S.state store.new))) }
{
    let pack = rows.len() as u32;
    for u in 0..flat.capacity.div_ceil(pack) {
        match fill_rows(alloc, &flat.schema, u * pack, full, rows) {
            Ok(()) => {}
            Err(e) => return Err(e),
        }
        vault.put(store, flat.region, u, rows)?;
    }
    Ok(())
}

/// A table of so many slots, of which the first ones have rows.
pub(crate) fn filled<S: BlockStore, R: Revisions>(
    alloc: Global,
    store: &mut S,
    vault: &mut Vault<R>,
    room: &mut RowBuffer,
    schema: &Schema,
    capacity: u32,
    full: u32,
) -> Result<Flat, OpErr>
    requires ready { StartsAnew (at R.state vault.old (S.state store.old)) }
    requires size { IsSized schema.now capacity }
    requires columns { AreColumns schema.now }
    requires place { IsOpen schema.now room.old }
    ensures value { IfOk result (λ flat. (flat.schema ≡ schema.now) × (flat.capacity ≡ capacity)) }
    ensures room { OnOk result (room.new
        ≡ record room.old { high = max room.old.high room.old.pack }) }
    ensures runs { IfOk result (λ flat. MayRun room.new flat
        (at R.state vault.new (S.state store.new))) }
    ensures beside { OnOk result ((other : Table)
        → MayRun room.old other (at R.state vault.old (S.state store.old))
        → MayRun room.new other (at R.state vault.new (S.state store.new))) }
{
    make_room(store, 1 + u64::from(capacity))?;
    let pack = room.pack();
    let region = make_table(store, vault, schema, capacity, pack, Order::Round)?;
    let flat = Flat {
        schema: schema.copied(),
        capacity,
        region,
    };
    let rows = room.open(pack);
    let result = fill_table(alloc, store, vault, rows, &flat, full);
    room.clear_shelf();
    match result {
        Ok(()) => Ok(flat),
        Err(e) => Err(e),
    }
}
