//! One pass over a table of its own.
ghost use Rattle.std.specs.Prelude.{◌≤◌, ◌+◌, ◌*◌};
ghost use Rattle.ob_vault.specs.Places.{at};
ghost use Rattle.ob_vault.specs.Words.{StartsAnew};
ghost use Rattle.ob_flat.specs.Flats.{IsSized};
ghost use Rattle.ob_pass_bench.specs.Tables.{AreColumns, IsOpen, MayRun};

use crate::answers::{count_aggregate, emission, groups, printing, total};
use crate::filling::{filled, make_room, tell, wait};
use crate::joining::join_keys;
use crate::mutations::{count_half, delete_half, insert_one, update_half};
use crate::schemas::{FEW, SCATTERED, schema_of};
use crate::selects::{continuous, hash, large, small};
use ob_base::Schema;
use ob_flat::{Flat, OpErr, create, discard};
use ob_room::RowBuffer;
use ob_seal::Keys;
use ob_store::{BlockStore, MemStore};
use ob_vault::{BaseRevs, Revisions, Vault};
use std::alloc::Global;
use std::io::{Input, Print};

/// A pass by its letter, the bytes of a row, the rows of a block, the slots of the table, the rows that may
/// be open, how many are selected, and how many slots have rows, from the first on.
#[derive(Clone, Copy, Debug, PartialEq, Eq)]
pub(crate) struct Case {
    pub(crate) pass: u8,
    pub(crate) width: u32,
    pub(crate) pack: u32,
    pub(crate) slots: u32,
    pub(crate) rows: u32,
    pub(crate) k: u32,
    pub(crate) full: u32,
}

// Joins a table of numbers with another, or only fills them.
fn run_join<H: Input + Print + AllocGlobal, S: BlockStore, R: Revisions>(
    host: &H,
    store: &mut S,
    vault: &mut Vault<R>,
    room: &mut RowBuffer,
    schemas: (&Schema, &Schema),
    case: &Case,
) -> Result<u64, OpErr>
    requires ready { StartsAnew (at R.state vault.old (S.state store.old)) }
    requires left { AreColumns schemas.0.now }
    requires left_place { IsOpen schemas.0.now room.old }
    requires right { AreColumns schemas.1.now }
    requires right_place { IsOpen schemas.1.now room.old }
    requires slots { case.now.slots ≤ 65536 }
    requires number { (1 ≤ case.now.k) × (case.now.k ≤ case.now.slots) }
{
    let alloc = host.alloc();
    let left = filled(alloc, store, vault, room, schemas.0, case.k, case.full)?;
    let right = filled(alloc, store, vault, room, schemas.1, case.slots, case.full)?;
    if case.pass == b't' {
        return Ok(0);
    }
    wait(host)?;
    join_keys(store, vault, room, alloc, &left, &right)
}

// Makes a table whose slots are empty.
fn run_create<H: Input + Print + AllocGlobal, S: BlockStore, R: Revisions>(
    host: &H,
    store: &mut S,
    vault: &mut Vault<R>,
    room: &mut RowBuffer,
    schema: &Schema,
    slots: u32,
) -> Result<u64, OpErr>
    requires ready { StartsAnew (at R.state vault.old (S.state store.old)) }
    requires size { IsSized schema.now slots }
    requires place { IsOpen schema.now room.old }
{
    wait(host)?;
    make_room(store, 1 + u64::from(slots))?;
    let flat = create(store, vault, room, schema, slots)?;
    Ok(u64::from(flat.capacity))
}

// Gives a table up.
fn run_discard<S: BlockStore, R: Revisions>(
    store: &mut S,
    vault: &mut Vault<R>,
    room: &mut RowBuffer,
    flat: Flat,
) -> Result<u64, OpErr>
    requires runs { MayRun room.old flat (at R.state vault.old (S.state store.old)) }
{
    make_room(store, 1)?;
    discard(store, vault, flat)?;
    Ok(u64::from(room.pack()))
}

// Runs the pass over a filled table.
fn run_pass<S: BlockStore, R: Revisions>(
    alloc: Global,
    store: &mut S,
    vault: &mut Vault<R>,
    room: &mut RowBuffer,
    flat: &mut Flat,
    case: &Case,
) -> Result<u64, OpErr>
    requires runs { MayRun room.old flat.old (at R.state vault.old (S.state store.old)) }
    requires number { (1 ≤ case.now.k) × (case.now.k ≤ flat.old.capacity) }
{
    match case.pass {
        b'c' => count_half(store, vault, room, flat),
        b'o' => count_aggregate(store, vault, room, flat),
        b'i' => insert_one(alloc, store, vault, room, flat),
        b'u' => update_half(store, vault, room, flat),
        b'd' => delete_half(store, vault, room, flat),
        b'S' => small(store, vault, room, flat, case.k),
        b'L' => large(store, vault, room, flat, case.k),
        b'C' => continuous(store, vault, room, flat, case.k),
        b'H' => hash(store, vault, room, flat, case.k, false),
        b'h' => hash(store, vault, room, flat, case.k, true),
        b'a' => total(store, vault, room, flat),
        b'g' | b'G' => groups(alloc, store, vault, room, flat),
        b'e' => emission(store, vault, room, flat),
        b'p' => printing(alloc, store, vault, room, flat),
        _ => Ok(0),
    }
}

// Fills what the case asks for, and runs its pass.
fn run_case<H: Input + Print + AllocGlobal, S: BlockStore, R: Revisions>(
    host: &H,
    store: &mut S,
    vault: &mut Vault<R>,
    room: &mut RowBuffer,
    schemas: (&Schema, &Schema),
    case: &Case,
) -> Result<u64, OpErr>
    requires ready { StartsAnew (at R.state vault.old (S.state store.old)) }
    requires left { AreColumns schemas.0.now }
    requires left_place { IsOpen schemas.0.now room.old }
    requires right { AreColumns schemas.1.now }
    requires right_place { IsOpen schemas.1.now room.old }
    requires slots { case.now.slots ≤ 65536 }
    requires number { (1 ≤ case.now.k) × (case.now.k ≤ case.now.slots) }
{
    match case.pass {
        b'j' | b't' => return run_join(host, store, vault, room, schemas, case),
        b'n' => return run_create(host, store, vault, room, schemas.1, case.slots),
        _ => {}
    }
    // (an INSERT finds an empty slot, and each row of a GROUP BY of scattered numbers is a group of its own)
    let full = match case.pass {
        b'i' => case.full.min(case.slots - 1),
        b'G' => case.full.min(case.k),
        _ => case.full.min(case.slots),
    };
    let mut flat = filled(
        host.alloc(),
        store,
        vault,
        room,
        schemas.1,
        case.slots,
        full,
    )?;
    if case.pass != b's' {
        wait(host)?;
    }
    if case.pass == b'x' {
        return run_discard(store, vault, room, flat);
    }
    run_pass(host.alloc(), store, vault, room, &mut flat, case)
}

// Runs a case over a store in memory, tells what it gave, and gives the memory of rows and table back once that
// was heard.
fn run_alone<H: Input + Print + AllocGlobal>(
    host: &H,
    schemas: (&Schema, &Schema),
    case: &Case,
) -> Option<()>
    requires left { AreColumns schemas.0.now }
    requires right { AreColumns schemas.1.now }
    requires pack { (1 ≤ case.now.pack) × (case.now.pack ≤ 16) }
    requires rows { (3 * case.now.pack + 1 ≤ case.now.rows) × (case.now.rows ≤ 65536) }
    requires slots { case.now.slots ≤ 65536 }
    requires number { (1 ≤ case.now.k) × (case.now.k ≤ case.now.slots) }
{
    let alloc = host.alloc();
    let Ok(mut room) = RowBuffer::new(alloc, case.rows, 1024, case.pack) else {
        return None;
    };
    let mut store = MemStore::new(alloc);
    let mut vault: Vault<BaseRevs> = Vault::new(alloc, Keys::derive(&[5; 32]));
    match run_case(host, &mut store, &mut vault, &mut room, schemas, case) {
        Ok(given) => tell(host, given).ok(),
        Err(_) => None,
    }
}

/// Runs a case; or none where there is no such case, or memory ran out.
pub(crate) fn run<H: Input + Print + AllocGlobal>(host: &H, case: &Case) -> Option<()> {
    if case.pack < 1 || case.pack > 16 || case.rows < 3 * case.pack + 1 || case.rows > 65_536 {
        return None;
    }
    if case.slots > 65_536 || case.k < 1 || case.k > case.slots {
        return None;
    }
    let second = if case.pass == b'G' { SCATTERED } else { FEW };
    let numbers = schema_of(17, second)?;
    let schema = schema_of(case.width, second)?;
    run_alone(host, (&numbers, &schema), case)
}
