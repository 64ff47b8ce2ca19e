//! Statements as they are written.
use ob_base::{ColumnName, ComparisonOperator, Items, Name, NewColumn, Shape, Source, Text};
use std::marker::Model;

/// A literal; one that no cell holds is kept as such.
#[derive(Debug, PartialEq, Eq, Drop)]
pub enum Literal {
    Int(i64),
    /// An integer outside 64 bits.
    OutOfRange,
    Text(Text),
    /// A text of more than 255 bytes.
    TooLong,
}

/// What a column is compared with.
#[derive(Drop)]
pub enum Against {
    Literal(Literal),
    Column(ColumnName),
}

/// A condition as a tree.
#[derive(Drop)]
pub enum CondTree {
    Compare(ColumnName, ComparisonOperator, Against),
    Not(Box<CondTree>),
    And(Box<CondTree>, Box<CondTree>),
    Or(Box<CondTree>, Box<CondTree>),
}

/// The condition of a WHERE.
#[derive(Drop)]
pub struct Cond {
    tree: CondTree,
}

impl Model for Cond {
    ghost use Rattle.ob_sql.specs.Search.{Search, search_of, search_code};

    ghost Value = { Search };

    ghost coded = { search_code };

    ghost view = { λ c. search_of c.tree };
}

impl Cond {
    ghost use Rattle.std.specs.Prelude.{◌≡◌};
    ghost use Rattle.ob_sql.specs.Search.{search_of};

    /// The condition of a tree.
    pub fn new(tree: CondTree) -> Cond
        ensures { result ≡ search_of tree }
    {
        Cond { tree }
    }

    /// Its tree.
    pub fn tree(&self) -> &CondTree
        ensures { search_of result.now ≡ self.now }
    {
        &self.tree
    }
}

/// What a SELECT of totals lists; a plain column is the one of its GROUP BY.
#[derive(Drop)]
pub enum Listed {
    Column(ColumnName),
    CountAll,
    Count(ColumnName),
    Sum(ColumnName),
    Min(ColumnName),
    Max(ColumnName),
}

/// A column of an UPDATE, and the value that it takes.
#[derive(Drop)]
pub struct Set {
    pub column: Name,
    pub value: Literal,
}

/// A SELECT of the rows of a table or of a join; no list stands for `*`.
#[derive(Drop)]
pub struct SelectRows {
    pub list: Option<Items<ColumnName>>,
    pub source: Source,
    pub cond: Option<Cond>,
}

/// A SELECT of totals of a table: aggregates, or with GROUP BY a row for each group.
#[derive(Drop)]
pub struct SelectTotals {
    pub items: Items<Listed>,
    pub table: Name,
    pub cond: Option<Cond>,
    pub group: Option<ColumnName>,
}

/// A statement of the grammar.
#[derive(Drop)]
pub enum Stmt {
    Create {
        table: Name,
        columns: Items<NewColumn>,
        capacity: u32,
        shape: Shape,
    },
    Insert {
        table: Name,
        columns: Option<Items<Name>>,
        values: Items<Literal>,
    },
    Update {
        table: Name,
        sets: Items<Set>,
        cond: Option<Cond>,
    },
    Delete {
        table: Name,
        cond: Option<Cond>,
    },
    Drop {
        table: Name,
    },
    SelectRows(SelectRows),
    SelectTotals(SelectTotals),
}
