//! Columns and tables.
ghost use Rattle.std.specs.Prelude.{◌≡◌, ◌<◌, ◌≤◌, List, [], ◌∷◌, ◌++◌, length};

use crate::text::Name;
use arrayvec::ArrayVec;
use std::marker::Model;

/// What a column holds: a 64-bit integer, or a text of at most so many bytes.
#[derive(Clone, Copy, Debug, PartialEq, Eq)]
pub enum Kind {
    Int,
    Varchar(u8),
}

/// A column of a table: its table's name and its own, what it holds, and whether it is the primary key.
#[derive(Clone, Debug, PartialEq, Eq, Drop)]
pub struct Column {
    pub table: Name,
    pub name: Name,
    pub kind: Kind,
    pub key: bool,
}

impl Kind {
    ghost use Rattle.ob_base.specs.Schemas.{kind_width};

    /// The bytes that a cell of this kind takes: 8, or as many as its text may have and one for its length.
    pub fn width(self) -> u32
        ensures value { result ≡ kind_width self }
        ensures few { result ≤ 256 }
    {
        match self {
            Kind::Int => 8,
            Kind::Varchar(n) => u32::from(n) + 1,
        }
    }
}

impl Default for Column {
    fn default() -> Column {
        Column {
            table: Name::from_bytes(b""),
            name: Name::from_bytes(b""),
            kind: Kind::Int,
            key: false,
        }
    }
}

impl Column {
    /// The same column.
    pub fn copied(&self) -> Column
        ensures { result ≡ self.now }
    {
        Column {
            table: self.table.copied(),
            name: self.name.copied(),
            kind: self.kind,
            key: self.key,
        }
    }
}

/// The columns of a table, or of a join, in order: at most 32.
#[derive(Drop)]
pub struct Schema {
    columns: ArrayVec<Column, 32>,
}

impl Model for Schema {
    ghost use Rattle.std.specs.Prelude.{◌≤◌, List, length};
    ghost use Rattle.ob_base.specs.declared.schema.Column.{Column};

    ghost Value = { List Column };

    ghost view = { λ s. s.columns.items };

    ghost invariant = { λ s. length s.columns.items ≤ 32 };
}

impl Schema {
    ghost use Rattle.ob_base.specs.Schemas.{width};

    /// No columns.
    pub fn new() -> Schema
        ensures { result ≡ [] }
    {
        Schema {
            columns: ArrayVec::new(),
        }
    }

    /// The columns in order.
    pub fn as_slice(&self) -> &[Column]
        ensures value { result.now ≡ self.now }
        ensures few { length result.now ≤ 32 }
    {
        self.columns.as_slice()
    }

    /// Adds a column at the end.
    pub fn push(&mut self, column: Column)
        requires { length self.old < 32 }
        ensures { self.new ≡ self.old ++ column ∷ [] }
    {
        self.columns.push(column);
    }

    /// The bytes that a row takes: its mark and its cells.
    pub fn width(&self) -> u32
        ensures value { result ≡ width self.now }
        ensures few { result ≤ 8193 }
    {
        let mut bytes = 1;
        for column in self.as_slice() {
            bytes += column.kind.width();
        }
        bytes
    }

    /// The same columns.
    pub fn copied(&self) -> Schema
        ensures { result ≡ self.now }
    {
        let mut schema = Schema::new();
        for column in self.as_slice() {
            schema.push(column.copied());
        }
        schema
    }
}

/// How a table keeps its rows.
#[derive(Clone, Copy, Debug, PartialEq, Eq)]
pub enum Shape {
    /// In slots, over which a statement passes.
    Flat,
    /// In the buckets of a tree and in a stash, of which a statement asks for the path of one key (Path ORAM).
    Indexed,
}

/// What is known of a table without its rows. `capacity` is its number of slots, and of an index its number
/// of keys, from 0 on.
#[derive(Drop)]
pub struct Heading {
    pub name: Name,
    pub schema: Schema,
    pub capacity: u32,
    pub shape: Shape,
}

/// A table and the region that holds its rows: of an index that of its tree, and the next is its stash's.
#[derive(Drop)]
pub struct Table {
    pub heading: Heading,
    pub region: u64,
}
