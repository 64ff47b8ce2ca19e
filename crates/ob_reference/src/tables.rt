//! Tables with their rows in memory.
ghost use Rattle.std.specs.Prelude.{◌≡◌, ◌≤◌, [], length};
ghost use Rattle.ob_base.specs.Stored.{headings};
ghost use Rattle.ob_names.specs.Names.{columns_at};
ghost use Rattle.ob_mean.specs.Step.{rows_at};

use ob_base::{Column, Heading, Name};
use ob_row::Cell;
use std::alloc::Global;
use std::marker::Model;

/// The cells of a row, in the order of its table's columns.
#[derive(Drop)]
pub(crate) struct Tuple {
    pub(crate) cells: Vec<Cell>,
}

impl Model for Tuple {
    ghost use Rattle.std.specs.Prelude.{List};
    ghost use Rattle.ob_row.specs.declared.cell.Cell.{Cell};

    ghost Value = { List Cell };

    ghost view = { λ t. t.cells.items };
}

impl Tuple {
    /// Its cells.
    pub(crate) fn as_slice(&self) -> &[Cell]
        ensures { result.now ≡ self.now }
    {
        self.cells.as_slice()
    }
}

/// A table and its rows.
#[derive(Drop)]
pub(crate) struct Held {
    pub(crate) heading: Heading,
    pub(crate) rows: Vec<Tuple>,
}

impl Model for Held {
    ghost use Rattle.std.specs.Prelude.{List};
    ghost use Rattle.ob_base.specs.Stored.{Stored};
    ghost use Rattle.ob_row.specs.Rows.{Row};
    ghost use Rattle.ob_reference.specs.Codes.{stored_code};

    ghost Value = { Stored (List Row) };

    ghost coded = { stored_code };

    ghost view = { λ t. record { heading = t.heading; held = t.rows.items } };
}

impl Held {
    /// What is known of the table without its rows.
    pub(crate) fn heading(&self) -> &Heading
        ensures { result.now ≡ self.now.heading }
    {
        &self.heading
    }

    /// Its rows.
    pub(crate) fn rows(&self) -> &[Tuple]
        ensures { result.now ≡ self.now.held }
    {
        self.rows.as_slice()
    }
}

/// Tables, each with its rows, of which only how often each stands counts.
#[derive(Drop)]
pub struct Database {
    pub(crate) tables: Vec<Held>,
}

impl Model for Database {
    ghost use Rattle.std.specs.Prelude.{List};
    ghost use Rattle.std.specs.Coded.{coded_list};
    ghost use Rattle.ob_base.specs.Stored.{Stored};
    ghost use Rattle.ob_row.specs.Rows.{Row};
    ghost use Rattle.ob_reference.specs.Codes.{stored_code};

    ghost Value = { List (Stored (List Row)) };

    ghost coded = { coded_list stored_code };

    ghost view = { λ db. db.tables.items };
}

impl Database {
    /// No tables.
    pub fn new(alloc: Global) -> Database
        ensures { result ≡ [] }
    {
        Database {
            tables: Vec::new(alloc),
        }
    }
}

/// The columns of a table, or none where there is no such table.
pub(crate) fn columns_at<'a>(tables: &'a [Held], name: &Name) -> &'a [Column]
    ensures value { result.now ≡ columns_at name.now (headings tables.now) }
    ensures few { length result.now ≤ 32 }
{
    match tables.split_first() {
        None => &[],
        Some((table, tables)) => {
            if table.heading().name.as_bytes() == name.as_bytes() {
                table.heading().schema.as_slice()
            } else {
                columns_at(tables, name)
            }
        }
    }
}

/// The rows of a table, or none where there is no such table.
pub(crate) fn rows_at<'a>(tables: &'a [Held], name: &Name) -> &'a [Tuple]
    ensures { result.now ≡ rows_at name.now tables.now }
{
    match tables.split_first() {
        None => &[],
        Some((table, tables)) => {
            if table.heading().name.as_bytes() == name.as_bytes() {
                table.rows()
            } else {
                rows_at(tables, name)
            }
        }
    }
}
