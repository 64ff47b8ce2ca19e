//! What of a statement a watcher may know.
ghost use Rattle.std.specs.Prelude.{◌≡◌, ◌++◌, IfOk, OnOk, map};
ghost use Rattle.std.specs.List.{flat_map};
ghost use Rattle.ob_sql.specs.declared.stmt.Set.{Set as SetData};
ghost use Rattle.ob_base.specs.declared.skeleton.Skeleton.TheVariants.{Insert, Rows};
ghost use Rattle.ob_sql.specs.Skeleton as outline;

use ob_base::{ColumnName, Items, Name, NewColumn, NoMemory, Skeleton, Source};
use ob_sql::{Listed, SelectRows, SelectTotals, Set, Stmt};
use std::alloc::Global;

fn copied_column(column: &ColumnName) -> ColumnName
    ensures { result ≡ column.now }
{
    let table = match &column.table {
        Some(table) => Some(table.copied()),
        None => None,
    };
    ColumnName {
        table,
        column: column.column.copied(),
    }
}

fn copied_new(column: &NewColumn) -> NewColumn
    ensures { result ≡ column.now }
{
    NewColumn {
        name: column.name.copied(),
        kind: column.kind,
        keys: column.keys,
    }
}

fn copied_source(source: &Source) -> Source
    ensures { result ≡ source.now }
{
    match source {
        Source::Table(name) => Source::Table(name.copied()),
        Source::Join {
            left,
            right,
            on,
            equals,
        } => Source::Join {
            left: left.copied(),
            right: right.copied(),
            on: copied_column(on),
            equals: copied_column(equals),
        },
    }
}

fn new_columns(alloc: Global, columns: &[NewColumn]) -> Result<Items<NewColumn>, NoMemory>
    ensures { IfOk result (λ l. l ≡ columns.now) }
{
    let mut found = Vec::new(alloc);
    for column in columns {
        match found.push(copied_new(column)) {
            Ok(()) => {}
            Err(_) => return Err(NoMemory),
        }
    }
    Ok(Items::from_vec(found))
}

fn names(alloc: Global, names: &[Name]) -> Result<Items<Name>, NoMemory>
    ensures { IfOk result (λ l. l ≡ names.now) }
{
    let mut found = Vec::new(alloc);
    for name in names {
        match found.push(name.copied()) {
            Ok(()) => {}
            Err(_) => return Err(NoMemory),
        }
    }
    Ok(Items::from_vec(found))
}

fn set_names(alloc: Global, sets: &[Set]) -> Result<Items<Name>, NoMemory>
    ensures { IfOk result (λ l. l ≡ map (λ (s : SetData). s.column) sets.now) }
{
    let mut found = Vec::new(alloc);
    for set in sets {
        match found.push(set.column.copied()) {
            Ok(()) => {}
            Err(_) => return Err(NoMemory),
        }
    }
    Ok(Items::from_vec(found))
}

fn column_names(alloc: Global, columns: &[ColumnName]) -> Result<Items<ColumnName>, NoMemory>
    ensures { IfOk result (λ l. l ≡ columns.now) }
{
    let mut found = Vec::new(alloc);
    for column in columns {
        match found.push(copied_column(column)) {
            Ok(()) => {}
            Err(_) => return Err(NoMemory),
        }
    }
    Ok(Items::from_vec(found))
}

// The column that an item names is kept after those before it.
fn keep_named(found: &mut Vec<ColumnName>, item: &Listed) -> Result<(), NoMemory>
    ensures { OnOk result (found.new.items ≡ found.old.items ++ outline.named_by item.now) }
{
    let column = match item {
        Listed::CountAll => return Ok(()),
        Listed::Column(column) => column,
        Listed::Count(column) => column,
        Listed::Sum(column) => column,
        Listed::Min(column) => column,
        Listed::Max(column) => column,
    };
    match found.push(copied_column(column)) {
        Ok(()) => Ok(()),
        Err(_) => Err(NoMemory),
    }
}

/// The columns that items name.
pub(crate) fn named(alloc: Global, items: &[Listed]) -> Result<Items<ColumnName>, NoMemory>
    ensures { IfOk result (λ l. l ≡ flat_map outline.named_by items.now) }
{
    let mut found = Vec::new(alloc);
    for item in items {
        match keep_named(&mut found, item) {
            Ok(()) => {}
            Err(stop) => return Err(stop),
        }
    }
    Ok(Items::from_vec(found))
}

fn of_rows(alloc: Global, select: &SelectRows) -> Result<Skeleton, NoMemory>
    ensures { IfOk result (λ s. s ≡ Rows select.now.source select.now.list) }
{
    let columns = match &select.list {
        Some(columns) => Some(column_names(alloc, columns.as_slice())?),
        None => None,
    };
    Ok(Skeleton::Rows {
        source: copied_source(&select.source),
        columns,
    })
}

fn of_totals(alloc: Global, select: &SelectTotals) -> Result<Skeleton, NoMemory>
    ensures { IfOk result (λ s. s ≡ outline.skeleton (Stmt.SelectTotals select.now)) }
{
    let key = match &select.group {
        Some(column) => Some(copied_column(column)),
        None => None,
    };
    Ok(Skeleton::Groups {
        table: select.table.copied(),
        columns: named(alloc, select.items.as_slice())?,
        key,
    })
}

fn of_insert(
    alloc: Global,
    table: &Name,
    columns: &Option<Items<Name>>,
) -> Result<Skeleton, NoMemory>
    ensures { IfOk result (λ s. s ≡ Insert table.now columns.now) }
{
    let columns = match columns {
        Some(columns) => Some(names(alloc, columns.as_slice())?),
        None => None,
    };
    Ok(Skeleton::Insert {
        table: table.copied(),
        columns,
    })
}

/// The statement without its literals and conditions.
pub fn skeleton(alloc: Global, stmt: &Stmt) -> Result<Skeleton, NoMemory>
    ensures { IfOk result (λ s. s ≡ outline.skeleton stmt.now) }
{
    match stmt {
        Stmt::Create {
            table,
            columns,
            capacity,
            shape,
        } => Ok(Skeleton::Create {
            table: table.copied(),
            columns: new_columns(alloc, columns.as_slice())?,
            capacity: *capacity,
            shape: *shape,
        }),
        Stmt::Insert { table, columns, .. } => of_insert(alloc, table, columns),
        Stmt::Update { table, sets, .. } => Ok(Skeleton::Update {
            table: table.copied(),
            columns: set_names(alloc, sets.as_slice())?,
        }),
        Stmt::Delete { table, .. } => Ok(Skeleton::Delete {
            table: table.copied(),
        }),
        Stmt::Drop { table } => Ok(Skeleton::Drop {
            table: table.copied(),
        }),
        Stmt::SelectRows(select) => of_rows(alloc, select),
        Stmt::SelectTotals(select) => of_totals(alloc, select),
    }
}
