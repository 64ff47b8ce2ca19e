//! Which tables there are.
use crate::draws::Draws;
use std::alloc::{AllocError, Global};
use std::slice;

/// A column as its CREATE has it.
#[derive(Clone, Copy)]
pub struct Column {
    pub name: &'static str,
    pub is_number: bool,
    pub is_key: bool,
    /// Whether its table is an index.
    pub is_indexed: bool,
}

/// The column of a table that isn't there.
const STRANGE: Column = Column {
    name: "id",
    is_number: true,
    is_key: false,
    is_indexed: false,
};

/// A table as its CREATE has it.
#[derive(Drop)]
pub struct Table {
    pub name: &'static str,
    pub columns: Vec<Column>,
}

/// The tables of a session.
#[derive(Drop)]
pub struct Tables {
    tables: Vec<Table>,
    // What stands for the columns of a table that isn't there.
    strange: Column,
}

impl Tables {
    /// None yet.
    pub fn new(alloc: Global) -> Tables {
        Tables {
            tables: Vec::new(alloc),
            strange: STRANGE,
        }
    }

    /// The columns of the table with this name, one where it isn't there.
    pub fn columns(&self, name: &str) -> &[Column] {
        for table in self.tables.iter() {
            if table.name == name {
                return table.columns.as_slice();
            }
        }
        slice::from_ref(&self.strange)
    }

    /// Whether one of them has this name.
    pub fn has(&self, name: &str, column: &str) -> bool {
        for it in self.columns(name) {
            if it.name == column {
                return true;
            }
        }
        false
    }

    /// One of its columns.
    pub fn column(&self, draws: &mut Draws, name: &str) -> Column {
        let columns = self.columns(name);
        match columns.get(draws.below(columns.len())) {
            Some(column) => *column,
            None => STRANGE,
        }
    }

    /// Its key, where it has one.
    pub fn key(&self, name: &str) -> Option<Column> {
        for column in self.columns(name) {
            if column.is_key {
                return Some(*column);
            }
        }
        None
    }

    /// The name of a table, seldom of one that isn't there.
    pub fn drawn(&self, draws: &mut Draws) -> &'static str {
        for table in self.tables.iter() {
            if draws.stays && table.name == draws.last {
                return table.name;
            }
        }
        let at = draws.below(self.tables.len());
        let is_strange = draws.chance(3);
        draws.last = match self.tables.get(at) {
            Some(table) if !is_strange => table.name,
            _ => draws.one(&["nothing", "t9"]),
        };
        draws.last
    }

    /// There is this one more.
    pub fn add(&mut self, table: Table) -> Result<(), AllocError> {
        Ok(self.tables.push(table)?)
    }

    /// There is none of this name any more.
    pub fn remove(&mut self, name: &str) {
        self.tables.retain(|table| table.name != name);
    }
}
