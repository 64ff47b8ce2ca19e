//! The rows that a SELECT takes.
ghost use Rattle.std.specs.Prelude.{◌≡◌, ◌++◌, filter, IfOk, OnOk};
ghost use Rattle.ob_base.specs.Stored.{headings};
ghost use Rattle.ob_base.specs.declared.skeleton.Source.TheVariants.{Join};
ghost use Rattle.ob_row.specs.Truth.{is_true};
ghost use Rattle.ob_names.specs.Names.{columns_in};
ghost use Rattle.ob_mean.specs.Conditions.{where_at};
ghost use Rattle.ob_mean.specs.Scopes.{source_scope};
ghost use Rattle.ob_mean.specs.Step.{source_rows, selected_rows, totalled_rows};

use crate::copies::{add_pairs, add_rows};
use crate::tables::{Held, Tuple, columns_at, rows_at};
use crate::truth::selects;
use ob_base::{ColumnName, Name, NoMemory, Source};
use ob_names::Scope;
use ob_sql::{Cond, SelectRows, SelectTotals};
use std::alloc::Global;

/// The columns that the names of a SELECT of rows may mean.
pub(crate) fn scope_of<'a>(tables: &'a [Held], source: &Source) -> Scope<'a>
    ensures { result ≡ source_scope source.now (headings tables.now) }
{
    match source {
        Source::Table(name) => Scope::of_table(columns_at(tables, name)),
        Source::Join { left, right, .. } => {
            Scope::of_join(columns_at(tables, left), columns_at(tables, right))
        }
    }
}

// Adds the joined rows of two tables.
fn add_join(
    alloc: Global,
    tables: &[Held],
    left: &Name,
    right: &Name,
    on: &ColumnName,
    equals: &ColumnName,
    to: &mut Vec<Tuple>,
) -> Result<(), NoMemory>
    ensures { OnOk result
        (to.new.items
        ≡ to.old.items ++ source_rows (Join left.now right.now on.now equals.now) tables.now) }
{
    let scope = Scope::of_join(columns_at(tables, left), columns_at(tables, right));
    let i = scope.left_place(on, equals);
    let j = scope.right_place(on, equals);
    add_pairs(
        alloc,
        i,
        j,
        rows_at(tables, left),
        rows_at(tables, right),
        to,
    )
}

// Adds the rows of the source of a SELECT.
fn add_source(
    alloc: Global,
    tables: &[Held],
    source: &Source,
    to: &mut Vec<Tuple>,
) -> Result<(), NoMemory>
    ensures { OnOk result (to.new.items ≡ to.old.items ++ source_rows source.now tables.now) }
{
    match source {
        Source::Table(name) => add_rows(alloc, rows_at(tables, name), to),
        Source::Join {
            left,
            right,
            on,
            equals,
        } => add_join(alloc, tables, left, right, on, equals, to),
    }
}

fn source_rows(alloc: Global, tables: &[Held], source: &Source) -> Result<Vec<Tuple>, NoMemory>
    ensures { IfOk result (λ rows. rows.items ≡ source_rows source.now tables.now) }
{
    let mut rows = Vec::new(alloc);
    match add_source(alloc, tables, source, &mut rows) {
        Err(_) => Err(NoMemory),
        Ok(()) => Ok(rows),
    }
}

// Keeps the rows that a WHERE selects.
fn keep_selected(cond: &Option<Cond>, scope: &Scope<'_>, rows: &mut Vec<Tuple>)
    ensures { rows.new.items
        ≡ filter (is_true (where_at cond.now (columns_in scope.now))) rows.old.items }
{
    rows.retain(|row| selects(cond, scope, row.as_slice()));
}

/// The rows that a SELECT of rows selects.
#[tactic(auto, using(crate::proofs::SourceLemmas::source_split))]
pub(crate) fn selected_rows(
    alloc: Global,
    tables: &[Held],
    select: &SelectRows,
) -> Result<Vec<Tuple>, NoMemory>
    ensures { IfOk result (λ rows. rows.items ≡ selected_rows select.now tables.now) }
{
    match source_rows(alloc, tables, &select.source) {
        Err(_) => Err(NoMemory),
        Ok(mut rows) => {
            keep_selected(&select.cond, &scope_of(tables, &select.source), &mut rows);
            Ok(rows)
        }
    }
}

/// The rows that a SELECT of totals selects.
#[tactic(auto, using(ob_mean::proofs::CondLemmas::one_table))]
pub(crate) fn totalled_rows(
    alloc: Global,
    tables: &[Held],
    select: &SelectTotals,
) -> Result<Vec<Tuple>, NoMemory>
    ensures { IfOk result (λ rows. rows.items ≡ totalled_rows select.now tables.now) }
{
    let mut rows = Vec::new(alloc);
    match add_rows(alloc, rows_at(tables, &select.table), &mut rows) {
        Err(_) => Err(NoMemory),
        Ok(()) => {
            let columns = columns_at(tables, &select.table);
            keep_selected(&select.cond, &Scope::of_table(columns), &mut rows);
            Ok(rows)
        }
    }
}
