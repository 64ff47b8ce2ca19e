//! What is read, written out with each of its parts in its place: a text between `<` and `>`, and each comparison, NOT, AND
//! and OR in parentheses of its own.
use ob_base::{
    ColumnName, ComparisonOperator, Items, Name, NewColumn, NewKind, Shape, Skeleton, Source,
};
use ob_sql::{Against, Cond, CondTree, Listed, Literal, SelectTotals, Set, Stmt};
use std::alloc::AllocError;

/// A statement.
pub fn statement(out: &mut String, stmt: &Stmt) -> Result<(), AllocError> {
    match stmt {
        Stmt::Create {
            table,
            columns,
            capacity,
            shape,
        } => create(out, table, columns.as_slice(), *capacity, *shape),
        Stmt::Insert {
            table,
            columns,
            values,
        } => {
            into(out, table, columns)?;
            literals(out, values.as_slice())
        }
        Stmt::Update { table, sets, cond } => update(out, table, sets.as_slice(), cond),
        Stmt::Delete { table, cond } => {
            headed(out, "delete ", table)?;
            filter(out, cond)
        }
        Stmt::Drop { table } => headed(out, "drop ", table),
        Stmt::SelectRows(select) => {
            rows(out, &select.list, &select.source)?;
            filter(out, &select.cond)
        }
        Stmt::SelectTotals(found) => totals(out, found),
    }
}

/// What of a statement a watcher may know.
pub fn outline(out: &mut String, skeleton: &Skeleton) -> Result<(), AllocError> {
    match skeleton {
        Skeleton::Create {
            table,
            columns,
            capacity,
            shape,
        } => create(out, table, columns.as_slice(), *capacity, *shape),
        Skeleton::Insert { table, columns } => into(out, table, columns),
        Skeleton::Update { table, columns } => {
            headed(out, "update ", table)?;
            names(out, columns.as_slice())
        }
        Skeleton::Delete { table } => headed(out, "delete ", table),
        Skeleton::Drop { table } => headed(out, "drop ", table),
        Skeleton::Rows { source, columns } => rows(out, columns, source),
        Skeleton::Groups {
            table,
            columns,
            key,
        } => {
            out.push_str("totals")?;
            columns_named(out, columns.as_slice())?;
            headed(out, " from ", table)?;
            group(out, key)
        }
    }
}

fn create(
    out: &mut String,
    table: &Name,
    columns: &[NewColumn],
    capacity: u32,
    shape: Shape,
) -> Result<(), AllocError> {
    headed(out, "create ", table)?;
    for column in columns {
        new_column(out, column)?;
    }
    write!(out, " capacity {capacity}")?;
    match shape {
        Shape::Flat => Ok(()),
        Shape::Indexed => out.push_str(" indexed"),
    }
}

fn into(out: &mut String, table: &Name, columns: &Option<Items<Name>>) -> Result<(), AllocError> {
    headed(out, "insert ", table)?;
    match columns {
        Some(columns) => {
            out.push_str(" columns")?;
            names(out, columns.as_slice())
        }
        None => Ok(()),
    }
}

fn names(out: &mut String, names: &[Name]) -> Result<(), AllocError> {
    for name in names {
        headed(out, " ", name)?;
    }
    Ok(())
}

fn literals(out: &mut String, values: &[Literal]) -> Result<(), AllocError> {
    out.push_str(" values")?;
    for value in values {
        out.push_str(" ")?;
        literal(out, value)?;
    }
    Ok(())
}

fn update(
    out: &mut String,
    table: &Name,
    sets: &[Set],
    cond: &Option<Cond>,
) -> Result<(), AllocError> {
    headed(out, "update ", table)?;
    for set in sets {
        assignment(out, set)?;
    }
    filter(out, cond)
}

fn bytes(out: &mut String, bytes: &[u8]) -> Result<(), AllocError> {
    match str::from_utf8(bytes) {
        Ok(text) => out.push_str(text),
        Err(_) => out.push_str("?"),
    }
}

fn headed(out: &mut String, head: &str, name: &Name) -> Result<(), AllocError> {
    out.push_str(head)?;
    bytes(out, name.as_bytes())
}

fn new_column(out: &mut String, column: &NewColumn) -> Result<(), AllocError> {
    headed(out, " ", &column.name)?;
    match column.kind {
        NewKind::Int => out.push_str(":int")?,
        NewKind::Varchar(size) => write!(out, ":varchar{size}")?,
    }
    let keys = column.keys;
    write!(out, ":{keys}")
}

/// A literal.
pub fn literal(out: &mut String, literal: &Literal) -> Result<(), AllocError> {
    match literal {
        Literal::Int(value) => write!(out, "{value}"),
        Literal::OutOfRange => out.push_str("out-of-range"),
        Literal::Text(text) => {
            out.push_str("<")?;
            bytes(out, text.as_bytes())?;
            out.push_str(">")
        }
        Literal::TooLong => out.push_str("too-long"),
    }
}

fn assignment(out: &mut String, set: &Set) -> Result<(), AllocError> {
    headed(out, " set ", &set.column)?;
    out.push_str(" = ")?;
    literal(out, &set.value)
}

/// The name of a column.
pub fn column(out: &mut String, column: &ColumnName) -> Result<(), AllocError> {
    if let Some(table) = &column.table {
        bytes(out, table.as_bytes())?;
        out.push_str(".")?;
    }
    bytes(out, column.column.as_bytes())
}

fn sign(order: ComparisonOperator) -> &'static str {
    match order {
        ComparisonOperator::Equal => " = ",
        ComparisonOperator::NotEqual => " <> ",
        ComparisonOperator::Less => " < ",
        ComparisonOperator::LessOrEqual => " <= ",
        ComparisonOperator::Greater => " > ",
        ComparisonOperator::GreaterOrEqual => " >= ",
    }
}

fn comparison(
    out: &mut String,
    left: &ColumnName,
    order: ComparisonOperator,
    right: &Against,
) -> Result<(), AllocError> {
    column(out, left)?;
    out.push_str(sign(order))?;
    match right {
        Against::Literal(value) => literal(out, value),
        Against::Column(other) => column(out, other),
    }
}

/// A condition, or `none`.
pub fn condition_or_none(out: &mut String, cond: &Option<Cond>) -> Result<(), AllocError> {
    match cond {
        Some(found) => condition(out, found.tree()),
        None => out.push_str("none"),
    }
}

fn condition(out: &mut String, tree: &CondTree) -> Result<(), AllocError> {
    out.push_str("(")?;
    match tree {
        CondTree::Compare(left, order, right) => comparison(out, left, *order, right)?,
        CondTree::Not(inner) => {
            out.push_str("not ")?;
            condition(out, inner)?;
        }
        CondTree::And(left, right) | CondTree::Or(left, right) => {
            condition(out, left)?;
            out.push_str(match tree {
                CondTree::And(..) => " and ",
                _ => " or ",
            })?;
            condition(out, right)?;
        }
    }
    out.push_str(")")
}

fn filter(out: &mut String, cond: &Option<Cond>) -> Result<(), AllocError> {
    match cond {
        Some(found) => {
            out.push_str(" where ")?;
            condition(out, found.tree())
        }
        None => Ok(()),
    }
}

fn of_column(out: &mut String, head: &str, named: &ColumnName) -> Result<(), AllocError> {
    out.push_str(head)?;
    column(out, named)
}

fn item(out: &mut String, item: &Listed) -> Result<(), AllocError> {
    match item {
        Listed::Column(named) => of_column(out, " ", named),
        Listed::CountAll => out.push_str(" count-all"),
        Listed::Count(named) => of_column(out, " count:", named),
        Listed::Sum(named) => of_column(out, " sum:", named),
        Listed::Min(named) => of_column(out, " min:", named),
        Listed::Max(named) => of_column(out, " max:", named),
    }
}

fn columns_named(out: &mut String, columns: &[ColumnName]) -> Result<(), AllocError> {
    for named in columns {
        of_column(out, " ", named)?;
    }
    Ok(())
}

fn rows(
    out: &mut String,
    list: &Option<Items<ColumnName>>,
    source: &Source,
) -> Result<(), AllocError> {
    out.push_str("select")?;
    match list {
        Some(columns) => columns_named(out, columns.as_slice())?,
        None => out.push_str(" all")?,
    }
    match source {
        Source::Table(name) => headed(out, " from ", name),
        Source::Join {
            left,
            right,
            on,
            equals,
        } => {
            headed(out, " from ", left)?;
            headed(out, " join ", right)?;
            of_column(out, " on ", on)?;
            of_column(out, " = ", equals)
        }
    }
}

fn totals(out: &mut String, select: &SelectTotals) -> Result<(), AllocError> {
    out.push_str("totals")?;
    for listed in select.items.as_slice() {
        item(out, listed)?;
    }
    headed(out, " from ", &select.table)?;
    filter(out, &select.cond)?;
    group(out, &select.group)
}

fn group(out: &mut String, key: &Option<ColumnName>) -> Result<(), AllocError> {
    match key {
        Some(named) => of_column(out, " group ", named),
        None => Ok(()),
    }
}
