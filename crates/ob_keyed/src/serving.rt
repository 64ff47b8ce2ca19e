//! A statement, as one access of an index.
ghost use Rattle.std.specs.Prelude.{◌≡◌, ◌≤◌, ℕ, List, max, OnErr, OnOk, IfOk};
ghost use Rattle.ob_base.specs.Indexes.{rows_open};
ghost use Rattle.ob_base.specs.Schemas.{width};
ghost use Rattle.ob_blocks.specs.Idle.{IsIdle};
ghost use Rattle.ob_vault.specs.Places.{at};
ghost use Rattle.ob_vault.specs.Words.{MayStart};
ghost use Rattle.ob_oram.specs.Indexes.{IsIndex};
ghost use Rattle.ob_oram.specs.Ops.{FitsOp};
ghost use Rattle.ob_oram.specs.Scripts.{script_length};
ghost use Rattle.ob_sql.specs.declared.stmt.Stmt.TheVariants.{Insert, Update, Delete, SelectRows as RowsStmt};
ghost use Rattle.ob_keyed.specs.Asking.{IsOn};
ghost use Rattle.ob_keyed.specs.Serving.{Gone, GoneBy};

use crate::asking::{key_of, set_cells, sought_key};
use crate::keyed::Keyed;
use ob_base::{Items, Name, NoMemory};
use ob_mean::new_row;
use ob_oram::{Index, Op};
use ob_room::RowBuffer;
use ob_sql::{Cond, Literal, SelectRows, Set, Stmt};
use ob_store::BlockStore;
use ob_vault::{Revisions, Vault};
use std::alloc::Global;

// An access, and the leaf that it shows.
fn access<S: BlockStore, R: Revisions>(
    store: &mut S,
    vault: &mut Vault<R>,
    room: &mut RowBuffer,
    index: &mut Index,
    op: &Op<'_>,
    draw: u64,
) -> Keyed
    requires starts { MayStart (script_length index.old)
        (at R.state vault.old (S.state store.old)) }
    requires index { IsIndex index.old (at R.state vault.old (S.state store.old)) }
    requires op { FitsOp index.old.schema index.old.key op.now }
    requires room { IsIdle (width index.old.schema) room.old }
    requires rows { rows_open index.old.height index.old.slots ≤ room.old.rows }
    ensures room { room.new ≡ record room.old {
      high = max room.old.high (rows_open index.old.height index.old.slots);
    } }
    ensures gone { Gone index.old index.new op.now draw result
        (at R.state vault.old (S.state store.old)) (at R.state vault.new (S.state store.new)) }
{
    let leaf = index.leaf_of(op, draw);
    let result = ob_oram::access(store, vault, room, index, op, draw);
    Keyed { leaf, result }
}

// A row is put in.
fn insert_row<S: BlockStore, R: Revisions>(
    alloc: Global,
    store: &mut S,
    vault: &mut Vault<R>,
    room: &mut RowBuffer,
    index: &mut Index,
    columns: &Option<Items<Name>>,
    values: &[Literal],
    draw: u64,
) -> Result<Keyed, NoMemory>
    requires starts { MayStart (script_length index.old)
        (at R.state vault.old (S.state store.old)) }
    requires index { IsIndex index.old (at R.state vault.old (S.state store.old)) }
    requires stmt { (table : List ℕ) × IsOn index.old (Insert table columns.now values.now) }
    requires room { IsIdle (width index.old.schema) room.old }
    requires rows { rows_open index.old.height index.old.slots ≤ room.old.rows }
    ensures room { OnOk result (room.new ≡ record room.old {
      high = max room.old.high (rows_open index.old.height index.old.slots);
    }) }
    ensures gone { (table : List ℕ) → IfOk result (λ keyed.
        GoneBy (Insert table columns.now values.now) index.old index.new draw keyed
        (at R.state vault.old (S.state store.old)) (at R.state vault.new (S.state store.new))) }
    ensures memory { OnErr result ((index.new ≡ index.old) × (room.new ≡ room.old)
        × (vault.new ≡ vault.old) × (store.new ≡ store.old)) }
{
    let Ok(cells) = new_row(alloc, &index.schema, columns, values) else {
        return Err(NoMemory);
    };
    let key = key_of(&index.schema, cells.as_slice(), index.key);
    Ok(access(
        store,
        vault,
        room,
        index,
        &Op::Insert(key, cells.as_slice()),
        draw,
    ))
}

// Cells of the row of a key are set.
fn update_row<S: BlockStore, R: Revisions>(
    alloc: Global,
    store: &mut S,
    vault: &mut Vault<R>,
    room: &mut RowBuffer,
    index: &mut Index,
    sets: &[Set],
    cond: &Option<Cond>,
    draw: u64,
) -> Result<Keyed, NoMemory>
    requires starts { MayStart (script_length index.old)
        (at R.state vault.old (S.state store.old)) }
    requires index { IsIndex index.old (at R.state vault.old (S.state store.old)) }
    requires stmt { (table : List ℕ) × IsOn index.old (Update table sets.now cond.now) }
    requires room { IsIdle (width index.old.schema) room.old }
    requires rows { rows_open index.old.height index.old.slots ≤ room.old.rows }
    ensures room { OnOk result (room.new ≡ record room.old {
      high = max room.old.high (rows_open index.old.height index.old.slots);
    }) }
    ensures gone { (table : List ℕ) → IfOk result (λ keyed.
        GoneBy (Update table sets.now cond.now) index.old index.new draw keyed
        (at R.state vault.old (S.state store.old)) (at R.state vault.new (S.state store.new))) }
    ensures memory { OnErr result ((index.new ≡ index.old) × (room.new ≡ room.old)
        × (vault.new ≡ vault.old) × (store.new ≡ store.old)) }
{
    let key = sought_key(&index.schema, cond);
    let Ok(cells) = set_cells(alloc, sets, index.schema.as_slice()) else {
        return Err(NoMemory);
    };
    Ok(access(
        store,
        vault,
        room,
        index,
        &Op::Change(key, cells.as_slice()),
        draw,
    ))
}

// The row of a key is taken out.
fn delete_row<S: BlockStore, R: Revisions>(
    store: &mut S,
    vault: &mut Vault<R>,
    room: &mut RowBuffer,
    index: &mut Index,
    cond: &Option<Cond>,
    draw: u64,
) -> Keyed
    requires starts { MayStart (script_length index.old)
        (at R.state vault.old (S.state store.old)) }
    requires index { IsIndex index.old (at R.state vault.old (S.state store.old)) }
    requires stmt { (table : List ℕ) × IsOn index.old (Delete table cond.now) }
    requires room { IsIdle (width index.old.schema) room.old }
    requires rows { rows_open index.old.height index.old.slots ≤ room.old.rows }
    ensures room { room.new ≡ record room.old {
      high = max room.old.high (rows_open index.old.height index.old.slots);
    } }
    ensures gone { (table : List ℕ) → GoneBy (Delete table cond.now) index.old index.new draw result
        (at R.state vault.old (S.state store.old)) (at R.state vault.new (S.state store.new)) }
{
    let key = sought_key(&index.schema, cond);
    access(store, vault, room, index, &Op::Remove(key), draw)
}

// The row of a key is looked for.
fn select_row<S: BlockStore, R: Revisions>(
    store: &mut S,
    vault: &mut Vault<R>,
    room: &mut RowBuffer,
    index: &mut Index,
    select: &SelectRows,
    draw: u64,
) -> Keyed
    requires starts { MayStart (script_length index.old)
        (at R.state vault.old (S.state store.old)) }
    requires index { IsIndex index.old (at R.state vault.old (S.state store.old)) }
    requires stmt { IsOn index.old (RowsStmt select.now) }
    requires room { IsIdle (width index.old.schema) room.old }
    requires rows { rows_open index.old.height index.old.slots ≤ room.old.rows }
    ensures room { room.new ≡ record room.old {
      high = max room.old.high (rows_open index.old.height index.old.slots);
    } }
    ensures gone { GoneBy (RowsStmt select.now) index.old index.new draw result
        (at R.state vault.old (S.state store.old)) (at R.state vault.new (S.state store.new)) }
{
    let key = sought_key(&index.schema, &select.cond);
    access(store, vault, room, index, &Op::Get(key), draw)
}

/// How many accesses a statement asks for.
pub fn accesses(index: &Index) -> u64
    requires { (index.now.height ≤ 24) × (index.now.slots ≤ 1024) }
    ensures { result ≡ script_length index.now }
{
    2 * u64::from(index.slots) + 8 * (u64::from(index.height) + 1)
}

/// Carries out a statement that is not refused before its first access, on the index of the table that it names.
///
/// Want of memory comes before the access, and leaves all as it was.
pub fn serve<S: BlockStore, R: Revisions>(
    alloc: Global,
    store: &mut S,
    vault: &mut Vault<R>,
    room: &mut RowBuffer,
    index: &mut Index,
    stmt: &Stmt,
    draw: u64,
) -> Result<Keyed, NoMemory>
    requires starts { MayStart (script_length index.old)
        (at R.state vault.old (S.state store.old)) }
    requires index { IsIndex index.old (at R.state vault.old (S.state store.old)) }
    requires stmt { IsOn index.old stmt.now }
    requires room { IsIdle (width index.old.schema) room.old }
    requires rows { rows_open index.old.height index.old.slots ≤ room.old.rows }
    ensures room { OnOk result (room.new ≡ record room.old {
      high = max room.old.high (rows_open index.old.height index.old.slots);
    }) }
    ensures gone { IfOk result (λ keyed. GoneBy stmt.now index.old index.new draw keyed
        (at R.state vault.old (S.state store.old)) (at R.state vault.new (S.state store.new))) }
    ensures memory { OnErr result ((index.new ≡ index.old) × (room.new ≡ room.old)
        × (vault.new ≡ vault.old) × (store.new ≡ store.old)) }
{
    match stmt {
        Stmt::Insert {
            columns,
            values,
            ..
        } => insert_row(
            alloc,
            store,
            vault,
            room,
            index,
            columns,
            values.as_slice(),
            draw,
        ),
        Stmt::Update { sets, cond, .. } => update_row(
            alloc,
            store,
            vault,
            room,
            index,
            sets.as_slice(),
            cond,
            draw,
        ),
        Stmt::Delete { cond, .. } => Ok(delete_row(store, vault, room, index, cond, draw)),
        Stmt::SelectRows(select) => Ok(select_row(store, vault, room, index, select, draw)),
        Stmt::Create { .. } | Stmt::Drop { .. } | Stmt::SelectTotals(_) => unreachable!(),
    }
}
