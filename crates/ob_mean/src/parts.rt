//! The parts of a statement that its refusals ask for.
ghost use Rattle.std.specs.Prelude.{◌≡◌, Some};
ghost use Rattle.ob_sql.specs.declared.stmt.Stmt.TheVariants.{SelectRows as RowsStmt, SelectTotals as TotalsStmt};
ghost use Rattle.ob_mean.specs.Parts.{no_parts, parts_of, parts_in, source_in};

use crate::listed::listed;
use ob_base::{ColumnName, Items, Name, NewColumn, Shape, Source};
use ob_sql::{Cond, Listed, Literal, SelectRows, SelectTotals, Set, Stmt};

/// A table that is to be new.
#[derive(Drop)]
pub(crate) struct Created<'a> {
    pub(crate) name: &'a Name,
    pub(crate) columns: &'a [NewColumn],
    pub(crate) capacity: u32,
    pub(crate) shape: Shape,
}

/// The tables that are to exist: none, one, or those of a join with the columns of its ON.
#[derive(Drop)]
pub(crate) enum Tables<'a> {
    Nothing,
    One(&'a Name),
    Joined {
        left: &'a Name,
        right: &'a Name,
        on: &'a ColumnName,
        equals: &'a ColumnName,
    },
}

/// The row of an INSERT: its list of columns, and the values.
#[derive(Drop)]
pub(crate) struct Given<'a> {
    pub(crate) names: &'a Option<Items<Name>>,
    pub(crate) values: &'a [Literal],
}

/// A statement's tables, and what it creates, gives, sets, compares and lists.
#[derive(Drop)]
pub(crate) struct Parts<'a> {
    pub(crate) created: Option<Created<'a>>,
    pub(crate) tables: Tables<'a>,
    pub(crate) given: Option<Given<'a>>,
    pub(crate) sets: &'a [Set],
    pub(crate) cond: Option<&'a Cond>,
    pub(crate) columns: &'a [ColumnName],
    pub(crate) items: &'a [Listed],
    pub(crate) group: Option<&'a ColumnName>,
}

fn tables_of(source: &Source) -> Tables<'_>
    ensures { source_in result ≡ Some source.now }
{
    match source {
        Source::Table(name) => Tables::One(name),
        Source::Join {
            left,
            right,
            on,
            equals,
        } => Tables::Joined {
            left,
            right,
            on,
            equals,
        },
    }
}

// Those of a statement on these tables that has no others.
fn parts_on(tables: Tables<'_>) -> Parts<'_>
    ensures { parts_in result ≡ record no_parts { source = source_in tables.entry } }
{
    Parts {
        created: None,
        tables,
        given: None,
        sets: &[],
        cond: None,
        columns: &[],
        items: &[],
        group: None,
    }
}

fn parts_of_rows(select: &SelectRows) -> Parts<'_>
    ensures { parts_in result ≡ parts_of (RowsStmt select.now) }
{
    Parts {
        cond: select.cond.as_ref(),
        columns: listed(&select.list),
        ..parts_on(tables_of(&select.source))
    }
}

fn parts_of_totals(select: &SelectTotals) -> Parts<'_>
    ensures { parts_in result ≡ parts_of (TotalsStmt select.now) }
{
    Parts {
        cond: select.cond.as_ref(),
        items: select.items.as_slice(),
        group: select.group.as_ref(),
        ..parts_on(Tables::One(&select.table))
    }
}

/// The parts of a statement.
pub(crate) fn parts_of(stmt: &Stmt) -> Parts<'_>
    ensures { parts_in result ≡ parts_of stmt.now }
{
    match stmt {
        Stmt::Create {
            table,
            columns,
            capacity,
            shape,
        } => Parts {
            created: Some(Created {
                name: table,
                columns: columns.as_slice(),
                capacity: *capacity,
                shape: *shape,
            }),
            ..parts_on(Tables::Nothing)
        },
        Stmt::Insert {
            table,
            columns,
            values,
        } => Parts {
            given: Some(Given {
                names: columns,
                values: values.as_slice(),
            }),
            ..parts_on(Tables::One(table))
        },
        Stmt::Update { table, sets, cond } => Parts {
            sets: sets.as_slice(),
            cond: cond.as_ref(),
            ..parts_on(Tables::One(table))
        },
        Stmt::Delete { table, cond } => Parts {
            cond: cond.as_ref(),
            ..parts_on(Tables::One(table))
        },
        Stmt::Drop { table } => parts_on(Tables::One(table)),
        Stmt::SelectRows(select) => parts_of_rows(select),
        Stmt::SelectTotals(select) => parts_of_totals(select),
    }
}
