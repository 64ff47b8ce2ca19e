//! Where rows lie.
ghost use Rattle.std.specs.Prelude.{◌≡◌, ◌≤◌, ℕ, List, [], All, IfSome, IfNone, bytes_eq, filter, length, not};
ghost use Rattle.ob_base.specs.declared.schema.Table.{Table};
ghost use Rattle.ob_base.specs.Schemas.{width, kind_width, kind_of, columns_of};
ghost use Rattle.ob_base.specs.Stored.{stored_at, stored_region, stored_regions};
ghost use Rattle.ob_script.specs.Script.{extent_of};
ghost use Rattle.ob_script.specs.Sizes.{IsTable};

use ob_base::{Name, NewColumn, NewKind, Table};

/// Rows in a region of so many slots, each row of this width.
#[derive(Clone, Copy, Debug, PartialEq, Eq)]
pub(crate) struct Extent {
    pub(crate) region: u64,
    pub(crate) slots: u32,
    pub(crate) width: u32,
}

/// The table of this name, if there is one.
pub(crate) fn table_at<'a>(tables: &'a [Table], name: &Name) -> Option<&'a Table>
    requires { All IsTable tables.now }
    ensures none { IfNone result (stored_at name.now (stored_regions tables.now) ≡ None) }
    ensures some { IfSome result (λ t.
        stored_at name.now (stored_regions tables.now) ≡ Some (stored_region t.now)) }
    ensures sized { IfSome result (λ t. IsTable t.now) }
{
    for table in tables {
        if table.heading.name.as_bytes() == name.as_bytes() {
            return Some(table);
        }
    }
    None
}

/// How many tables have another name.
pub(crate) fn others(tables: &[Table], name: &Name) -> u32
    requires few { length tables.now ≤ 64 }
    ensures value { result
        ≡ length (filter (λ (t : Table). not (bytes_eq t.heading.name name.now)) tables.now) }
    ensures few { result ≤ 64 }
{
    let others = tables
        .iter()
        .filter(|table| table.heading.name.as_bytes() != name.as_bytes());
    others.count() as u32
}

/// Where its rows lie.
pub(crate) fn extent_of(table: &Table) -> Extent
    requires { IsTable table.now }
    ensures { result ≡ extent_of (stored_region table.now) }
{
    Extent {
        region: table.region,
        slots: table.heading.capacity,
        width: table.heading.schema.width(),
    }
}

/// The width of a row of a new table.
pub(crate) fn new_width(columns: &[NewColumn]) -> u32
    requires { width (columns_of [] columns.now) ≤ 1024 }
    ensures { (table : List ℕ) → result ≡ width (columns_of table columns.now) }
{
    let cells = columns
        .iter()
        .map(|column| new_kind_width(column.kind))
        .sum::<u64>();
    cells as u32 + 1
}

fn new_kind_width(kind: NewKind) -> u64
    ensures { result ≡ kind_width (kind_of kind) }
{
    match kind {
        NewKind::Int => 8,
        NewKind::Varchar(n) => u64::from(n) + 1,
    }
}
