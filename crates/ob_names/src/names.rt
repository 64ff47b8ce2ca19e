//! What the names of a statement mean.
ghost use Rattle.std.specs.Prelude.{◌≡◌, ◌≤◌, ◌<◌, Option, Some, None, length, slice_get, IfSome, IfNone, count_by, position};
ghost use Rattle.ob_base.specs.Stored.{has_table, heading_at};
ghost use Rattle.ob_base.specs.Stored.{headings_of};
ghost use Rattle.ob_names.specs.Names.{columns_in, columns_at, is_named, place_of, unqualified, means_one, left_place, right_place};
ghost use Rattle.ob_names.specs.Kinds.{kind_meant};

use crate::scope::Scope;
use ob_base::{Column, ColumnName, Heading, Kind, Name, Table};

/// The heading of the table of this name, if there is one.
pub fn heading_at<'a>(tables: &'a [Table], name: &Name) -> Option<&'a Heading>
    ensures none { IfNone result (heading_at name.now (headings_of tables.now) ≡ None) }
    ensures some { IfSome result (λ h. heading_at name.now (headings_of tables.now) ≡ Some h.now) }
{
    for table in tables {
        if table.heading.name.as_bytes() == name.as_bytes() {
            return Some(&table.heading);
        }
    }
    None
}

/// Whether there is a table of this name.
#[tactic(auto, using(crate::proofs::NameLemmas::has_table_found))]
pub fn has_table(tables: &[Table], name: &Name) -> bool
    ensures { result ≡ has_table name.now (headings_of tables.now) }
{
    heading_at(tables, name).is_some()
}

/// The columns of the table of this name, or none where there is no such table.
pub fn columns_at<'a>(tables: &'a [Table], name: &Name) -> &'a [Column]
    ensures value { result.now ≡ columns_at name.now (headings_of tables.now) }
    ensures few { length result.now ≤ 32 }
{
    match heading_at(tables, name) {
        Some(heading) => heading.schema.as_slice(),
        None => &[],
    }
}

/// The name of a column, without a table's.
pub fn unqualified(name: &Name) -> ColumnName
    ensures { result ≡ unqualified name.now }
{
    ColumnName {
        table: None,
        column: name.copied(),
    }
}

fn is_named(name: &ColumnName, column: &Column) -> bool
    ensures { result ≡ is_named name.now column.now }
{
    let of_table = match &name.table {
        None => true,
        Some(table) => table.as_bytes() == column.table.as_bytes(),
    };
    of_table && name.column.as_bytes() == column.name.as_bytes()
}

// How many columns a name may mean.
fn count_named(name: &ColumnName, columns: &[Column]) -> usize
    ensures { result ≡ count_by (is_named name.now) columns.now }
{
    columns
        .iter()
        .filter(|column| is_named(name, column))
        .count()
}

// The first column that a name may mean.
fn first_named(name: &ColumnName, columns: &[Column]) -> Option<usize>
    ensures value { result ≡ position (is_named name.now) columns.now }
    ensures within { IfSome result (λ i. i < length columns.now) }
{
    columns.iter().position(|column| is_named(name, column))
}

/// Whether a name means one column of the scope, neither none nor more.
pub fn means_one(name: &ColumnName, scope: &Scope<'_>) -> bool
    ensures { result ≡ means_one (columns_in scope.now) name.now }
{
    let left = scope.left();
    let right = scope.right();
    count_named(name, left) + count_named(name, right) == 1
}

impl Scope<'_> {
    /// The place of the column that a name means, where it means one.
    #[tactic(auto, using(crate::proofs::NameLemmas::meant_first))]
    pub fn place_of(&self, name: &ColumnName) -> usize
        ensures value { result ≡ place_of name.now (columns_in self.now) }
        ensures few { result < 64 }
    {
        let left = self.left();
        match first_named(name, left) {
            Some(i) => i,
            None => match first_named(name, self.right()) {
                Some(i) => left.len() + i,
                None => 0,
            },
        }
    }

    /// The place of the left table's column of ON, whichever side it stands on.
    pub fn left_place(&self, on: &ColumnName, equals: &ColumnName) -> usize
        ensures value { result
            ≡ left_place (length self.now.left) (columns_in self.now) on.now equals.now }
        ensures few { result < 64 }
    {
        let i = self.place_of(on);
        if i < self.left().len() {
            i
        } else {
            self.place_of(equals)
        }
    }

    /// The place of the right table's column of ON, among that table's own.
    pub fn right_place(&self, on: &ColumnName, equals: &ColumnName) -> usize
        ensures value { result
            ≡ right_place (length self.now.left) (columns_in self.now) on.now equals.now }
        ensures few { result < 64 }
    {
        let n = self.left().len();
        let i = self.place_of(on);
        if i < n {
            self.place_of(equals).saturating_sub(n)
        } else {
            i.saturating_sub(n)
        }
    }
}

// The kind of the column that a name means.
pub(crate) fn kind_meant(name: &ColumnName, scope: &Scope<'_>) -> Option<Kind>
    ensures { result ≡ kind_meant name.now (columns_in scope.now) }
{
    column_at(scope, scope.place_of(name)).map(|column| column.kind)
}

/// The column at a place among those of two tables, if there are so many.
#[tactic(auto, using(crate::proofs::NameLemmas::get_front, crate::proofs::NameLemmas::get_back))]
pub fn column_at<'a>(scope: &'a Scope<'_>, i: usize) -> Option<&'a Column>
    ensures none { IfNone result (slice_get (columns_in scope.now) i ≡ None) }
    ensures some { IfSome result (λ c. slice_get (columns_in scope.now) i ≡ Some c.now) }
{
    let left = scope.left();
    if i < left.len() {
        left.get(i)
    } else {
        scope.right().get(i - left.len())
    }
}
