//! Where a statement takes its rows from.
ghost use Rattle.std.specs.Prelude.{◌≡◌, ◌≤◌, ◌<◌, ◌+◌, ◌*◌, ◌-◌, [], length, not, position, true, false, Some};
ghost use Rattle.std.specs.Option.{option_map_or};
ghost use Rattle.ob_base.specs.Joins.{joined_slots};
ghost use Rattle.ob_base.specs.Stored.{headings_of};
ghost use Rattle.ob_names.specs.Names.{columns_in, left_place, right_place, lack_columns};
ghost use Rattle.ob_mean.specs.Parts.{source_in};
ghost use Rattle.ob_mean.specs.Refusals.{joins_itself, joins_kinds, joins_past, joins_past_at, join_columns, is_key, is_across, limits_of};
ghost use Rattle.ob_mean.specs.Scopes.{missing_in, scope_in, joins_apart_in, off_key_in};

use crate::parts::Tables;
use ob_base::{Column, ColumnName, Heading, Public, Table};
use ob_names::{Scope, are_alike, columns_at, has_table, heading_at, means_one};
use ob_row::width;

/// Whether a table that is to exist doesn't.
pub(crate) fn lacks_table(tables: &[Table], named: &Tables<'_>) -> bool
    ensures { result ≡ missing_in (headings_of tables.now) (source_in named.now) }
{
    match named {
        Tables::Nothing => false,
        Tables::One(name) => !has_table(tables, name),
        Tables::Joined { left, right, .. } => !has_table(tables, left) || !has_table(tables, right),
    }
}

/// Whether a table is joined with itself.
pub(crate) fn joins_itself(named: &Tables<'_>) -> bool
    ensures { result ≡ option_map_or joins_itself (source_in named.now) false }
{
    match named {
        Tables::Nothing | Tables::One(_) => false,
        Tables::Joined { left, right, .. } => left.as_bytes() == right.as_bytes(),
    }
}

/// The columns of the table, or of those of a join.
pub(crate) fn scope_of<'a>(tables: &'a [Table], named: &Tables<'_>) -> Scope<'a>
    ensures { result ≡ scope_in (headings_of tables.now) (source_in named.now) }
{
    match named {
        Tables::Nothing => Scope::of_table(&[]),
        Tables::One(name) => Scope::of_table(columns_at(tables, name)),
        Tables::Joined { left, right, .. } => {
            Scope::of_join(columns_at(tables, left), columns_at(tables, right))
        }
    }
}

fn is_across(on: &ColumnName, equals: &ColumnName, scope: &Scope<'_>) -> bool
    ensures { result ≡ is_across (length scope.now.left) (columns_in scope.now) on.now equals.now }
{
    let n = scope.left().len();
    let a = scope.place_of(on);
    let b = scope.place_of(equals);
    (a < n && n <= b) || (b < n && n <= a)
}

/// Whether the columns of ON are one of each table.
pub(crate) fn joins_apart(named: &Tables<'_>, scope: &Scope<'_>) -> bool
    ensures { result
        ≡ option_map_or (joins_apart_in scope.now) (source_in named.now) true }
{
    match named {
        Tables::Nothing | Tables::One(_) => true,
        Tables::Joined { on, equals, .. } => is_across(on, equals, scope),
    }
}

/// Whether ON names no column, or more than one.
pub(crate) fn on_lacks(named: &Tables<'_>, scope: &Scope<'_>) -> bool
    ensures { result
        ≡ lack_columns (columns_in scope.now)
        (option_map_or join_columns (source_in named.now) []) }
{
    match named {
        Tables::Nothing | Tables::One(_) => false,
        Tables::Joined { on, equals, .. } => { !means_one(on, scope) || !means_one(equals, scope) }
    }
}

/// Whether the columns of ON are of one kind.
pub(crate) fn joins_kinds(named: &Tables<'_>, scope: &Scope<'_>) -> bool
    ensures { result
        ≡ option_map_or (joins_kinds (columns_in scope.now)) (source_in named.now) true }
{
    match named {
        Tables::Nothing | Tables::One(_) => true,
        Tables::Joined { on, equals, .. } => are_alike(on, equals, scope),
    }
}

// The slots of the joined region of tables of so many slots.
fn joined_slots(public: &Public, n: u32, m: u32) -> u128
    requires pack { 1 ≤ public.now.pack }
    requires buffer { 3 * public.now.pack + 1 ≤ public.now.buffer }
    ensures { result ≡ joined_slots public.now.pack public.now.buffer n m }
{
    let pack = u32::from(public.pack);
    let buffered = (public.buffer - 2 * pack) / pack;
    let chunks = n.div_ceil(pack).div_ceil(buffered);
    let blocks = u128::from(chunks) * u128::from(m.div_ceil(pack));
    blocks * u128::from(pack)
}

#[tactic(auto, using(crate::proofs::SourceLemmas::width_both))]
fn headings_past(public: &Public, left: &Heading, right: &Heading) -> bool
    requires pack { 1 ≤ public.now.pack }
    requires buffer { 3 * public.now.pack + 1 ≤ public.now.buffer }
    ensures { result
        ≡ joins_past_at (limits_of public.now) (Some left.now) (Some right.now) }
{
    u64::from(width(&left.schema)) + u64::from(width(&right.schema)) > 1025
        || joined_slots(public, left.capacity, right.capacity) > 16_777_216
}

/// Whether the joined row or region is past the limits.
pub(crate) fn joins_past(public: &Public, named: &Tables<'_>) -> bool
    requires pack { 1 ≤ public.now.pack }
    requires buffer { 3 * public.now.pack + 1 ≤ public.now.buffer }
    ensures { result
        ≡ option_map_or (joins_past (limits_of public.now) (headings_of public.now.tables))
        (source_in named.now) false }
{
    let tables = public.tables.as_slice();
    match named {
        Tables::Nothing | Tables::One(_) => false,
        Tables::Joined { left, right, .. } => {
            match (heading_at(tables, left), heading_at(tables, right)) {
                (Some(left), Some(right)) => headings_past(public, left, right),
                _ => false,
            }
        }
    }
}

fn key_position(columns: &[Column]) -> Option<usize>
    ensures { result ≡ position (λ c. c.key) columns.now }
{
    columns.iter().position(|column| column.key)
}

/// Whether the column at this place is the primary key.
#[tactic(auto, using(crate::proofs::SourceLemmas::key_position))]
pub(crate) fn is_key(columns: &[Column], i: usize) -> bool
    ensures { result ≡ is_key columns.now i }
{
    match key_position(columns) {
        None => false,
        Some(j) => i == j,
    }
}

fn on_off_key(on: &ColumnName, equals: &ColumnName, scope: &Scope<'_>) -> bool
    ensures { result
        ≡ not (is_key scope.now.left
        (left_place (length scope.now.left) (columns_in scope.now) on.now equals.now)) }
{
    !is_key(scope.left(), scope.left_place(on, equals))
}

/// Whether the left column of ON is not its table's primary key.
pub(crate) fn joins_off_key(named: &Tables<'_>, scope: &Scope<'_>) -> bool
    ensures { result
        ≡ option_map_or (off_key_in scope.now) (source_in named.now) false }
{
    match named {
        Tables::Nothing | Tables::One(_) => false,
        Tables::Joined { on, equals, .. } => on_off_key(on, equals, scope),
    }
}
