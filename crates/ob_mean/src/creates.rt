//! The limits of a new table.
ghost use Rattle.std.specs.Prelude.{◌≡◌, ◌≤◌, ◌+◌, ◌++◌, ℕ, List, length, map, sum_by, nat_lt, not, min, true, false};
ghost use Rattle.std.specs.List.{All, list_any};
ghost use Rattle.ob_base.specs.Schemas.{width, kind_width, kind_of, new_column, columns_of};
ghost use Rattle.ob_base.specs.declared.skeleton.NewColumn.{NewColumn};
ghost use Rattle.ob_base.specs.Stored.{headings_of};
ghost use Rattle.ob_base.specs.Indexes.{by_shape};
ghost use Rattle.ob_mean.specs.Refusals.{is_size, is_int, creates_past, index_past, has_int_key, has_wrong_keys, limits_of};

use ob_base::{Column, Kind, Name, NewColumn, NewKind, Public, Schema, Shape, Table, tree_height};

fn is_size(kind: NewKind) -> bool
    ensures { result ≡ is_size kind }
{
    match kind {
        NewKind::Int => true,
        NewKind::Varchar(n) => 1 <= n && n <= 255,
    }
}

fn new_kind_width(kind: NewKind) -> u64
    ensures value { result ≡ kind_width (kind_of kind) }
    ensures few { result ≤ 4294967296 }
{
    match kind {
        NewKind::Int => 8,
        NewKind::Varchar(n) => u64::from(n) + 1,
    }
}

// The bytes of a row's cells.
fn cells_width(columns: &[NewColumn]) -> u64
    requires { length columns.now ≤ 16 }
    ensures { (table : List ℕ) → 1 + result ≡ width (columns_of table columns.now) }
{
    columns
        .iter()
        .map(|column| new_kind_width(column.kind))
        .sum::<u64>()
}

fn has_bad_size(columns: &[NewColumn]) -> bool
    ensures { result ≡ list_any (λ (c : NewColumn). not (is_size c.kind)) columns.now }
{
    columns.iter().any(|column| !is_size(column.kind))
}

/// Whether a new table is past the limits, or there are too many.
pub(crate) fn creates_past(tables: &[Table], columns: &[NewColumn], capacity: u32) -> bool
    ensures { (table : List ℕ) →
        result ≡ creates_past (headings_of tables.now) table columns.now capacity }
{
    capacity < 1
        || capacity > 1_048_576
        || columns.is_empty()
        || columns.len() > 16
        || has_bad_size(columns)
        || cells_width(columns) > 1023
        || tables.len() >= 64
}

/// Whether a table of at most 2^24 keys is an index past the limits.
pub(crate) fn index_past(public: &Public, shape: Shape, capacity: u32) -> bool
    requires { capacity ≤ 16777216 }
    ensures { result ≡ by_shape shape false (index_past (limits_of public.now) capacity) }
{
    let open = u64::from(public.stash) + 4 * (u64::from(tree_height(capacity)) + 1) + 1;
    match shape {
        Shape::Flat => false,
        Shape::Indexed => public.keep || open > u64::from(public.buffer),
    }
}

fn is_int(kind: NewKind) -> bool
    ensures { result ≡ is_int kind }
{
    matches!(kind, NewKind::Int)
}

fn has_int_key(columns: &[NewColumn]) -> bool
    ensures { result ≡ has_int_key columns.now }
{
    columns
        .iter()
        .any(|column| column.keys > 0 && is_int(column.kind))
}

/// Whether PRIMARY KEY stands there more than once, or an index has no INT primary key.
pub(crate) fn has_wrong_keys(columns: &[NewColumn], shape: Shape) -> bool
    ensures { result ≡ has_wrong_keys columns.now shape }
{
    key_count(columns) > 1
        || match shape {
            Shape::Flat => false,
            Shape::Indexed => !has_int_key(columns),
        }
}

// How often it stands there, up to 2.
fn key_count(columns: &[NewColumn]) -> u32
    ensures { result ≡ min 2 (sum_by (λ (c : NewColumn). c.keys) columns.now) }
{
    match columns.split_first() {
        None => 0,
        Some((column, columns)) => (column.keys.min(2) + key_count(columns)).min(2),
    }
}

fn kind_of(kind: NewKind) -> Kind
    requires { is_size kind ≡ true }
    ensures { result ≡ kind_of kind }
{
    match kind {
        NewKind::Int => Kind::Int,
        NewKind::Varchar(n) => Kind::Varchar(n as u8),
    }
}

fn column_of(table: &Name, column: &NewColumn) -> Column
    requires { is_size column.now.kind ≡ true }
    ensures value { result ≡ new_column table.now column.now }
    ensures short { length column.now.name ≤ 32 }
{
    Column {
        table: table.copied(),
        name: Name::from_bytes(column.name.as_bytes()),
        kind: kind_of(column.kind),
        key: column.keys > 0,
    }
}

fn add_columns(table: &Name, columns: &[NewColumn], schema: &mut Schema)
    requires few { length schema.old + length columns.now ≤ 32 }
    requires sizes { list_any (λ (c : NewColumn). not (is_size c.kind)) columns.now ≡ false }
    ensures value { schema.new ≡ schema.old ++ columns_of table.now columns.now }
    ensures names { All (λ (c : NewColumn). length c.name ≤ 32) columns.now }
{
    match columns.split_first() {
        None => {}
        Some((column, columns)) => {
            schema.push(column_of(table, column));
            add_columns(table, columns, schema);
        }
    }
}

/// The schema of a new table, whose sizes are within their limits. Names have at most 32 bytes.
pub fn new_schema(table: &Name, columns: &[NewColumn]) -> Schema
    requires few { length columns.now ≤ 32 }
    requires sizes { list_any (λ (c : NewColumn). not (is_size c.kind)) columns.now ≡ false }
    ensures value { result ≡ columns_of table.now columns.now }
    ensures names { All (λ (c : NewColumn). length c.name ≤ 32) columns.now }
{
    let mut schema = Schema::new();
    add_columns(table, columns, &mut schema);
    schema
}
