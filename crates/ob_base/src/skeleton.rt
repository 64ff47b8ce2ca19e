//! Statements without their literals and conditions.
use crate::items::Items;
use crate::schema::Shape;
use crate::text::Name;

/// A column as a statement names it.
#[derive(Drop)]
pub struct ColumnName {
    pub table: Option<Name>,
    pub column: Name,
}

/// A column's kind as CREATE writes it.
#[derive(Clone, Copy, Debug, PartialEq, Eq)]
pub enum NewKind {
    Int,
    Varchar(u32),
}

/// A column as CREATE writes it; `keys` is how often PRIMARY KEY stands there.
#[derive(Drop)]
pub struct NewColumn {
    pub name: Name,
    pub kind: NewKind,
    pub keys: u32,
}

/// Where a SELECT takes its rows from.
#[derive(Drop)]
pub enum Source {
    Table(Name),
    Join {
        left: Name,
        right: Name,
        on: ColumnName,
        equals: ColumnName,
    },
}

/// A statement without its literals and conditions.
#[derive(Drop)]
pub enum Skeleton {
    Create {
        table: Name,
        columns: Items<NewColumn>,
        capacity: u32,
        shape: Shape,
    },
    Insert {
        table: Name,
        columns: Option<Items<Name>>,
    },
    Update {
        table: Name,
        columns: Items<Name>,
    },
    Delete {
        table: Name,
    },
    Drop {
        table: Name,
    },
    /// A SELECT of rows; no columns stand for `*`.
    Rows {
        source: Source,
        columns: Option<Items<ColumnName>>,
    },
    /// A SELECT with aggregates or GROUP BY.
    Groups {
        table: Name,
        columns: Items<ColumnName>,
        key: Option<ColumnName>,
    },
}
