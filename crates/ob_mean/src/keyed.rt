//! Statements on an index, which are to ask for one of its keys.
ghost use Rattle.std.specs.Prelude.{◌≡◌, ◌≤◌, Some, length};
ghost use Rattle.ob_base.specs.Stored.{headings_of};
ghost use Rattle.ob_sql.specs.Search.{search_of};
ghost use Rattle.ob_mean.specs.Refusals.{is_index, is_indexed, key_asked, lacks_key, needs_key, source_lacks_key};

use crate::sources::is_key;
use ob_base::{Column, ComparisonOperator, Name, Shape, Source, Table};
use ob_names::{Scope, columns_at, heading_at};
use ob_sql::{Against, Cond, CondTree, Literal, Stmt};

fn is_indexed(shape: Shape) -> bool
    ensures { result ≡ is_indexed shape }
{
    matches!(shape, Shape::Indexed)
}

/// Whether the table of this name is one with an index.
pub fn is_index(tables: &[Table], name: &Name) -> bool
    ensures { result ≡ is_index (headings_of tables.now) name.now }
{
    match heading_at(tables, name) {
        None => false,
        Some(heading) => is_indexed(heading.shape),
    }
}

#[tactic(auto, using(crate::proofs::CondLemmas::one_table))]
fn tree_key(columns: &[Column], tree: &CondTree) -> Option<i64>
    requires { length columns.now ≤ 32 }
    ensures { result ≡ key_asked columns.now (Some (search_of tree.now)) }
{
    match tree {
        CondTree::Compare(name, ComparisonOperator::Equal, Against::Literal(Literal::Int(x))) => {
            if is_key(columns, Scope::of_table(columns).place_of(name)) {
                Some(*x)
            } else {
                None
            }
        }
        _ => None,
    }
}

/// The number that a WHERE asks of the primary key of a table of these columns, if it says nothing else.
pub fn key_asked(columns: &[Column], cond: &Option<Cond>) -> Option<i64>
    requires { length columns.now ≤ 32 }
    ensures { result ≡ key_asked columns.now cond.now }
{
    match cond {
        None => None,
        Some(cond) => tree_key(columns, cond.tree()),
    }
}

fn lacks_key(tables: &[Table], name: &Name, cond: &Option<Cond>) -> bool
    ensures { result ≡ lacks_key (headings_of tables.now) name.now cond.now }
{
    is_index(tables, name) && key_asked(columns_at(tables, name), cond).is_none()
}

fn source_lacks_key(tables: &[Table], source: &Source, cond: &Option<Cond>) -> bool
    ensures { result ≡ source_lacks_key (headings_of tables.now) source.now cond.now }
{
    match source {
        Source::Table(name) => lacks_key(tables, name, cond),
        Source::Join { left, right, .. } => is_index(tables, left) || is_index(tables, right),
    }
}

/// Whether a statement on an index doesn't ask for one of its keys alone.
pub(crate) fn needs_key(tables: &[Table], stmt: &Stmt) -> bool
    ensures { result ≡ needs_key (headings_of tables.now) stmt.now }
{
    match stmt {
        Stmt::Create { .. } | Stmt::Insert { .. } | Stmt::Drop { .. } => false,
        Stmt::Update { table, cond, .. } | Stmt::Delete { table, cond } => {
            lacks_key(tables, table, cond)
        }
        Stmt::SelectRows(select) => source_lacks_key(tables, &select.source, &select.cond),
        Stmt::SelectTotals(select) => is_index(tables, &select.table),
    }
}
