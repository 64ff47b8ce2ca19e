//! UPDATE and DELETE.
ghost use Rattle.std.specs.Prelude.{◌≡◌, count_by, filter, map, not, slice_set};
ghost use Rattle.ob_row.specs.Rows.{with_cells};
ghost use Rattle.ob_row.specs.Truth.{is_true, updated};
ghost use Rattle.ob_sql.specs.declared.stmt.Stmt.TheVariants.{Update, Delete};
ghost use Rattle.ob_mean.specs.declared.answer.Answer.TheVariants.{Changed};
ghost use Rattle.ob_mean.specs.Conditions.{where_at};
ghost use Rattle.ob_mean.specs.Step.{set_cells, accepted_answer, accepted_next};

use crate::tables::{Database, Held, Tuple};
use crate::truth::selects_of;
use ob_base::{Name, Schema};
use ob_mean::set_cell;
use ob_row::Cell;
use ob_sql::{Cond, Set};

// Puts a cell at its place.
#[tactic(auto, using(std::proofs::lemmas::List::set_past))]
fn put_cell(place: usize, cell: Cell, cells: &mut [Cell])
    ensures { cells.new ≡ slice_set cells.old place cell }
{
    if place < cells.len() {
        cells[place] = cell;
    }
}

fn put_cells(sets: &[Set], schema: &Schema, cells: &mut [Cell])
    ensures { cells.new ≡ with_cells (set_cells sets.now schema.now) cells.old }
{
    match sets.split_first() {
        None => {}
        Some((set, sets)) => {
            let (place, cell) = set_cell(set, schema.as_slice());
            put_cell(usize::from(place), cell, cells);
            put_cells(sets, schema, cells);
        }
    }
}

fn update_row(sets: &[Set], cond: &Option<Cond>, schema: &Schema, row: &mut Tuple)
    ensures { row.new
        ≡ updated (where_at cond.now schema.now) (set_cells sets.now schema.now) row.old }
{
    if selects_of(cond, schema, row) {
        put_cells(sets, schema, row.cells.as_mut_slice());
    }
}

fn update_rows(sets: &[Set], cond: &Option<Cond>, schema: &Schema, rows: &mut [Tuple])
    ensures { rows.new
        ≡ map (updated (where_at cond.now schema.now) (set_cells sets.now schema.now)) rows.old }
{
    match rows.split_first_mut() {
        None => {}
        Some((row, rows)) => {
            update_row(sets, cond, schema, row);
            update_rows(sets, cond, schema, rows);
        }
    }
}

// How many rows a WHERE selects.
fn count_selected(cond: &Option<Cond>, schema: &Schema, rows: &[Tuple]) -> usize
    ensures { result ≡ count_by (is_true (where_at cond.now schema.now)) rows.now }
{
    rows.iter()
        .filter(|row| selects_of(cond, schema, row))
        .count()
}

fn delete_rows(cond: &Option<Cond>, schema: &Schema, rows: &mut Vec<Tuple>)
    ensures { rows.new.items
        ≡ filter (λ row. not (is_true (where_at cond.now schema.now) row)) rows.old.items }
{
    rows.retain(|row| !selects_of(cond, schema, row));
}

fn update_held(sets: &[Set], cond: &Option<Cond>, held: &mut Held) -> usize
    ensures count { result
        ≡ count_by (is_true (where_at cond.now held.old.heading.schema)) held.old.held }
    ensures next { held.new
        ≡ record {
          heading = held.old.heading;
          held = map
              (updated (where_at cond.now held.old.heading.schema)
              (set_cells sets.now held.old.heading.schema)) held.old.held;
        } }
{
    let count = count_selected(cond, &held.heading.schema, held.rows.as_slice());
    update_rows(sets, cond, &held.heading.schema, held.rows.as_mut_slice());
    count
}

fn delete_held(cond: &Option<Cond>, held: &mut Held) -> usize
    ensures count { result
        ≡ count_by (is_true (where_at cond.now held.old.heading.schema)) held.old.held }
    ensures next { held.new
        ≡ record {
          heading = held.old.heading;
          held = filter
              (λ row. not (is_true (where_at cond.now held.old.heading.schema) row)) held.old.held;
        } }
{
    let count = count_selected(cond, &held.heading.schema, held.rows.as_slice());
    delete_rows(cond, &held.heading.schema, &mut held.rows);
    count
}

fn update_at(tables: &mut [Held], table: &Name, sets: &[Set], cond: &Option<Cond>) -> usize
    ensures count { Changed result
        ≡ accepted_answer tables.old (Update table.now sets.now cond.now) }
    ensures next { tables.new ≡ accepted_next tables.old (Update table.now sets.now cond.now) }
{
    match tables.split_first_mut() {
        None => 0,
        Some((held, tables)) => {
            if held.heading().name.as_bytes() == table.as_bytes() {
                update_held(sets, cond, held)
            } else {
                update_at(tables, table, sets, cond)
            }
        }
    }
}

fn delete_at(tables: &mut [Held], table: &Name, cond: &Option<Cond>) -> usize
    ensures count { Changed result ≡ accepted_answer tables.old (Delete table.now cond.now) }
    ensures next { tables.new ≡ accepted_next tables.old (Delete table.now cond.now) }
{
    match tables.split_first_mut() {
        None => 0,
        Some((held, tables)) => {
            if held.heading().name.as_bytes() == table.as_bytes() {
                delete_held(cond, held)
            } else {
                delete_at(tables, table, cond)
            }
        }
    }
}

impl Database {
    /// Carries an UPDATE out that is not refused, and says how many rows it changed.
    pub fn update(&mut self, table: &Name, sets: &[Set], cond: &Option<Cond>) -> u64
        ensures answer { Changed result
            ≡ accepted_answer self.old (Update table.now sets.now cond.now) }
        ensures next { self.new ≡ accepted_next self.old (Update table.now sets.now cond.now) }
    {
        update_at(self.tables.as_mut_slice(), table, sets, cond) as u64
    }

    /// Carries a DELETE out that is not refused, and says how many rows it deleted.
    pub fn delete(&mut self, table: &Name, cond: &Option<Cond>) -> u64
        ensures answer { Changed result ≡ accepted_answer self.old (Delete table.now cond.now) }
        ensures next { self.new ≡ accepted_next self.old (Delete table.now cond.now) }
    {
        delete_at(self.tables.as_mut_slice(), table, cond) as u64
    }
}
