//! INSERT.
ghost use Rattle.std.specs.Prelude.{◌≡◌, [], ◌∷◌, ◌++◌, ℕ, IfOk, OnErr, position};
ghost use Rattle.std.specs.List.{list_any};
ghost use Rattle.ob_base.specs.Schemas.{key_place};
ghost use Rattle.ob_row.specs.Rows.{agree_at, has_key};
ghost use Rattle.ob_sql.specs.declared.stmt.Stmt.TheVariants.{Insert};
ghost use Rattle.ob_mean.specs.Step.{new_row, has_own_key, room_refusal, insert_refusal, late_refusal, followed, accepted_next};

use crate::tables::{Database, Held, Tuple};
use crate::truth::agree_at;
use ob_base::{Column, Heading, Items, Name, NoMemory, Refusal, Schema, Shape};
use ob_row::Cell;
use ob_sql::Literal;
use std::alloc::Global;

fn key_position(columns: &[Column]) -> Option<usize>
    ensures { result ≡ position (λ c. c.key) columns.now }
{
    columns.iter().position(|column| column.key)
}

// The place of the primary key, if there is one.
#[tactic(auto, using(ob_mean::proofs::SourceLemmas::key_position))]
fn key_place(schema: &Schema) -> Option<usize>
    ensures { result ≡ key_place schema.now }
{
    key_position(schema.as_slice())
}

fn has_row(i: usize, row: &[Cell], rows: &[Tuple]) -> bool
    ensures { result ≡ list_any (agree_at i i row.now) rows.now }
{
    match rows.split_first() {
        None => false,
        Some((other, rows)) => { agree_at(i, i, row, other.as_slice()) || has_row(i, row, rows) }
    }
}

// Whether a row with this primary key is among the rows.
fn has_key(schema: &Schema, row: &[Cell], rows: &[Tuple]) -> bool
    ensures { result ≡ has_key (key_place schema.now) row.now rows.now }
{
    match key_place(schema) {
        None => false,
        Some(i) => has_row(i, row, rows),
    }
}

// The row that an INSERT gives.
fn new_row(
    alloc: Global,
    schema: &Schema,
    names: &Option<Items<Name>>,
    values: &[Literal],
) -> Result<Tuple, NoMemory>
    ensures { IfOk result (λ row. row ≡ new_row schema.now names.now values.now) }
{
    let cells = ob_mean::new_row(alloc, schema, names, values)?;
    Ok(Tuple { cells })
}

// Whether a row has one of the keys of an index.
fn has_own_key(heading: &Heading, row: &[Cell]) -> bool
    ensures { result ≡ has_own_key heading.now row.now }
{
    match row.get(key_place(&heading.schema).unwrap_or(0)) {
        Some(Cell::Int(key)) => *key >= 0 && *key < i64::from(heading.capacity),
        _ => false,
    }
}

// Why a row that is new finds no room: the table has no slot left, or no row of the index has this key.
fn room_refusal(held: &Held, row: &[Cell]) -> Option<Refusal>
    ensures { result ≡ room_refusal held.now row.now }
{
    match held.heading.shape {
        Shape::Flat if held.rows.len() == held.heading.capacity as usize => Some(Refusal::Full),
        Shape::Indexed if !has_own_key(&held.heading, row) => Some(Refusal::KeyRange),
        _ => None,
    }
}

// Adds a row, or says why it is refused.
fn insert_row(held: &mut Held, row: Tuple) -> Result<Option<Refusal>, NoMemory>
    ensures refusal { IfOk result (λ r. r ≡ insert_refusal held.old row) }
    ensures next { IfOk result
        (λ r. held.new
        ≡ followed r
        (record { heading = held.old.heading; held = held.old.held ++ row ∷ [] }) held.old) }
    ensures err { OnErr result (held.new ≡ held.old) }
{
    if has_key(&held.heading.schema, row.as_slice(), held.rows.as_slice()) {
        return Ok(Some(Refusal::Duplicate));
    }
    match room_refusal(held, row.as_slice()) {
        Some(refusal) => Ok(Some(refusal)),
        None => match held.rows.push(row) {
            Err(_) => Err(NoMemory),
            Ok(()) => Ok(None),
        },
    }
}

fn insert_held(
    alloc: Global,
    held: &mut Held,
    names: &Option<Items<Name>>,
    values: &[Literal],
) -> Result<Option<Refusal>, NoMemory>
    ensures refusal { IfOk result
        (λ r. r ≡ insert_refusal held.old (new_row held.old.heading.schema names.now values.now)) }
    ensures next { IfOk result
        (λ r. held.new
        ≡ followed r
        (record {
          heading = held.old.heading;
          held = held.old.held
              ++ new_row held.old.heading.schema names.now values.now ∷ [];
        }) held.old) }
    ensures err { OnErr result (held.new ≡ held.old) }
{
    match new_row(alloc, &held.heading.schema, names, values) {
        Err(_) => Err(NoMemory),
        Ok(row) => insert_row(held, row),
    }
}

fn insert_at(
    alloc: Global,
    tables: &mut [Held],
    table: &Name,
    names: &Option<Items<Name>>,
    values: &[Literal],
) -> Result<Option<Refusal>, NoMemory>
    ensures refusal { IfOk result
        (λ r. r ≡ late_refusal 0 tables.old (Insert table.now names.now values.now)) }
    ensures next { IfOk result
        (λ r. tables.new
        ≡ followed r
        (accepted_next tables.old (Insert table.now names.now values.now)) tables.old) }
    ensures err { OnErr result (tables.new ≡ tables.old) }
{
    match tables.split_first_mut() {
        None => Ok(None),
        Some((held, tables)) => {
            if held.heading().name.as_bytes() == table.as_bytes() {
                insert_held(alloc, held, names, values)
            } else {
                match insert_at(alloc, tables, table, names, values) {
                    Err(_) => Err(NoMemory),
                    Ok(refusal) => Ok(refusal),
                }
            }
        }
    }
}

impl Database {
    /// Carries an INSERT out that is not refused early, or refuses it: a row with its primary key exists,
    /// the table is full, or is an index none of whose keys it has. Names are the columns of its list, if it has one. Want of memory leaves the
    /// tables as they were.
    pub fn insert(
        &mut self,
        alloc: Global,
        table: &Name,
        names: &Option<Items<Name>>,
        values: &[Literal],
    ) -> Result<Option<Refusal>, NoMemory>
        ensures refusal { (groups : ℕ) →
            IfOk result
            (λ r. r ≡ late_refusal groups self.old (Insert table.now names.now values.now)) }
        ensures next { IfOk result
            (λ r. self.new
            ≡ followed r
            (accepted_next self.old (Insert table.now names.now values.now)) self.old) }
        ensures err { OnErr result (self.new ≡ self.old) }
    {
        insert_at(alloc, self.tables.as_mut_slice(), table, names, values)
    }
}
