//! Which statements are refused before any access.
ghost use Rattle.std.specs.Prelude.{◌≡◌, ◌≤◌, ◌+◌, ◌*◌, ◌||◌, map, not, zip, option_to_list, bytes_eq, slice_get, false};
ghost use Rattle.std.specs.Option.{option_map_or};
ghost use Rattle.std.specs.List.{list_any};
ghost use Rattle.ob_base.specs.declared.schema.Column.{Column};
ghost use Rattle.ob_sql.specs.declared.stmt.Set.{Set};
ghost use Rattle.ob_base.specs.Stored.{headings_of};
ghost use Rattle.ob_names.specs.Names.{columns_in, unqualified, place_of, lack_columns};
ghost use Rattle.ob_names.specs.Kinds.{mistype_columns, overflow_columns};
ghost use Rattle.ob_mean.specs.Parts.{behind, created_in, given_in, parts_in};
ghost use Rattle.ob_mean.specs.Refusals.{early_refusal, first_holding, insert_columns, is_incomplete, limits_of, sets_key};
ghost use Rattle.ob_mean.specs.Scopes.{is_taken, given_names, takes_in, named_in, lacks_in, row_mistyped, mistypes_in, row_overflows, overflows_in, is_past, exceeds_in, keys_are_wrong, breaks_key_in};

use crate::conds::{exceeds, lacks, mistypes};
use crate::creates::{creates_past, has_wrong_keys, index_past};
use crate::keyed::needs_key;
use crate::listed::{columns_lack, items_lack, items_mistype, items_stray};
use crate::parts::{Created, Given, Parts, parts_of};
use crate::sources;
use ob_base::{Column, ColumnName, Name, Public, Refusal, Table};
use ob_names::{
    Named, Scope, column_at, has_name, has_repeats, has_table, lack_column, means_one, mistype,
    overflow, overflows, takes, unqualified,
};
use ob_sql::{Set, Stmt};

fn is_taken(tables: &[Table], created: &Option<Created<'_>>) -> bool
    ensures { result
        ≡ option_map_or (is_taken (headings_of tables.now)) (created_in created.now) false }
{
    match created {
        None => false,
        Some(created) => has_table(tables, created.name) || has_repeats(created.columns),
    }
}

// The names of an INSERT's list.
fn names_of<'a>(given: &Option<Given<'a>>) -> &'a [Name]
    ensures { result.now ≡ given_names (given_in given.now) }
{
    match given {
        None => &[],
        Some(given) => match given.names {
            None => &[],
            Some(names) => names.as_slice(),
        },
    }
}

// A table that is to be new exists, or a name stands twice.
fn takes_name(tables: &[Table], parts: &Parts<'_>) -> bool
    ensures { result ≡ takes_in (headings_of tables.now) (parts_in parts.now) }
{
    is_taken(tables, &parts.created)
        || has_repeats(names_of(&parts.given))
        || has_repeats(parts.sets)
        || sources::joins_itself(&parts.tables)
}

fn group_lacks(group: Option<&ColumnName>, scope: &Scope<'_>) -> bool
    ensures { result ≡ lack_columns (columns_in scope.now) (option_to_list (behind group.entry)) }
{
    match group {
        None => false,
        Some(key) => !means_one(key, scope),
    }
}

#[tactic(auto, using(crate::proofs::CondLemmas::any_append))]
fn names_lack(parts: &Parts<'_>, scope: &Scope<'_>) -> bool
    ensures { result ≡ lack_columns (columns_in scope.now) (named_in (parts_in parts.now)) }
{
    lack_column(names_of(&parts.given), scope)
        || lack_column(parts.sets, scope)
        || columns_lack(parts.columns, scope)
        || sources::on_lacks(&parts.tables, scope)
        || items_lack(parts.items, scope)
        || group_lacks(parts.group, scope)
        || lacks(parts.cond, scope)
}

// A name that no column has there, a plain column that strays, or columns of ON that aren't one of each
// table.
fn lacks_column(parts: &Parts<'_>, scope: &Scope<'_>) -> bool
    ensures { result ≡ lacks_in scope.now (parts_in parts.now) }
{
    names_lack(parts, scope)
        || items_stray(parts.group, parts.items, scope)
        || !sources::joins_apart(&parts.tables, scope)
}

fn sets_mistype(sets: &[Set], scope: &Scope<'_>) -> bool
    ensures { result ≡ mistype_columns (columns_in scope.now)
        (map (λ (s : Set). (unqualified s.column, s.value)) sets.now) }
{
    match sets.split_first() {
        None => false,
        Some((set, sets)) => {
            !takes(&unqualified(&set.column), &set.value, scope) || sets_mistype(sets, scope)
        }
    }
}

fn sets_overflow(sets: &[Set], scope: &Scope<'_>) -> bool
    ensures { result ≡ overflow_columns (columns_in scope.now)
        (map (λ (s : Set). (unqualified s.column, s.value)) sets.now) }
{
    match sets.split_first() {
        None => false,
        Some((set, sets)) => {
            overflows(&unqualified(&set.column), &set.value, scope) || sets_overflow(sets, scope)
        }
    }
}

// The values of an INSERT, of another kind than their columns.
fn values_mistype(given: &Given<'_>, scope: &Scope<'_>) -> bool
    ensures { result ≡ mistype_columns (columns_in scope.now)
        (zip (map unqualified (insert_columns given.now.names.now scope.now.left))
        given.now.values.now) }
{
    match given.names {
        None => mistype(scope.left(), given.values, scope),
        Some(names) => mistype(names.as_slice(), given.values, scope),
    }
}

fn values_overflow(given: &Given<'_>, scope: &Scope<'_>) -> bool
    ensures { result ≡ overflow_columns (columns_in scope.now)
        (zip (map unqualified (insert_columns given.now.names.now scope.now.left))
        given.now.values.now) }
{
    match given.names {
        None => overflow(scope.left(), given.values, scope),
        Some(names) => overflow(names.as_slice(), given.values, scope),
    }
}

// A column that none of the names names.
fn leaves_out<T: Named>(columns: &[Column], names: &[T]) -> bool
    ensures { result
        ≡ list_any
        (λ (c : Column). not (list_any (bytes_eq c.name) (map T.name_of names.now))) columns.now }
{
    columns.iter().any(|column| !has_name(names, &column.name))
}

// The list of an INSERT leaves a column out, or there are more or fewer values than columns.
fn is_incomplete(given: &Given<'_>, columns: &[Column]) -> bool
    ensures { result ≡ is_incomplete columns.now given.now.names.now given.now.values.now }
{
    let left_out = match given.names {
        None => leaves_out(columns, columns),
        Some(names) => leaves_out(columns, names.as_slice()),
    };
    left_out || given.values.len() != columns.len()
}

fn row_mistypes(given: &Option<Given<'_>>, scope: &Scope<'_>) -> bool
    ensures { result
        ≡ option_map_or (row_mistyped (columns_in scope.now) scope.now.left)
        (given_in given.now) false }
{
    match given {
        None => false,
        Some(given) => values_mistype(given, scope) || is_incomplete(given, scope.left()),
    }
}

fn row_overflows(given: &Option<Given<'_>>, scope: &Scope<'_>) -> bool
    ensures { result
        ≡ option_map_or (row_overflows (columns_in scope.now) scope.now.left)
        (given_in given.now) false }
{
    match given {
        None => false,
        Some(given) => values_overflow(given, scope),
    }
}

// A value of another kind than its column.
fn mistypes_any(parts: &Parts<'_>, scope: &Scope<'_>) -> bool
    ensures { result ≡ mistypes_in scope.now (parts_in parts.now) }
{
    row_mistypes(&parts.given, scope)
        || sets_mistype(parts.sets, scope)
        || mistypes(parts.cond, scope)
        || items_mistype(parts.items, scope)
        || !sources::joins_kinds(&parts.tables, scope)
}

// A value that its column doesn't hold.
fn overflows_any(parts: &Parts<'_>, scope: &Scope<'_>) -> bool
    ensures { result ≡ overflows_in scope.now (parts_in parts.now) }
{
    row_overflows(&parts.given, scope) || sets_overflow(parts.sets, scope) || exceeds(parts.cond)
}

fn new_past(public: &Public, created: &Option<Created<'_>>) -> bool
    ensures { result
        ≡ option_map_or (is_past (limits_of public.now) (headings_of public.now.tables))
        (created_in created.now) false }
{
    match created {
        None => false,
        Some(created) => {
            creates_past(public.tables.as_slice(), created.columns, created.capacity)
                || index_past(public, created.shape, created.capacity)
        }
    }
}

// A size past the limits, or too many accesses before it.
fn meets_limit(late: bool, public: &Public, parts: &Parts<'_>) -> bool
    requires pack { 1 ≤ public.now.pack }
    requires buffer { 3 * public.now.pack + 1 ≤ public.now.buffer }
    ensures { result
        ≡ (exceeds_in (limits_of public.now) (headings_of public.now.tables) (parts_in parts.now)
        || late) }
{
    new_past(public, &parts.created)
        || parts.columns.len() > 32
        || parts.items.len() > 32
        || sources::joins_past(public, &parts.tables)
        || late
}

// One of the columns is the primary key.
fn sets_key(sets: &[Set], scope: &Scope<'_>) -> bool
    ensures { result ≡ sets_key (columns_in scope.now) sets.now }
{
    match sets.split_first() {
        None => false,
        Some((set, sets)) => {
            is_key_named(&unqualified(&set.column), scope) || sets_key(sets, scope)
        }
    }
}

fn is_key_named(name: &ColumnName, scope: &Scope<'_>) -> bool
    ensures { result
        ≡ option_map_or (λ (c : Column). c.key)
        (slice_get (columns_in scope.now) (place_of name.now (columns_in scope.now))) false }
{
    match column_at(scope, scope.place_of(name)) {
        None => false,
        Some(column) => column.key,
    }
}

fn new_keys(created: &Option<Created<'_>>) -> bool
    ensures { result ≡ option_map_or keys_are_wrong (created_in created.now) false }
{
    match created {
        None => false,
        Some(created) => has_wrong_keys(created.columns, created.shape),
    }
}

// Wrong keys of a new table, or a change of one.
fn breaks_key_rule(parts: &Parts<'_>, scope: &Scope<'_>) -> bool
    ensures { result ≡ breaks_key_in scope.now (parts_in parts.now) }
{
    new_keys(&parts.created) || sets_key(parts.sets, scope)
}

// The first refusal whose condition holds.
fn first_of(conditions: &[(bool, Refusal)]) -> Option<Refusal>
    ensures { result ≡ first_holding conditions.now }
{
    match conditions.split_first() {
        None => None,
        Some((condition, conditions)) => {
            if condition.0 {
                Some(condition.1)
            } else {
                first_of(conditions)
            }
        }
    }
}

/// The refusal of a statement that comes before any access, the one of the smallest number whose
/// condition holds; `late` says that so many accesses were asked that no statement is served.
pub fn early_refusal(late: bool, public: &Public, stmt: &Stmt) -> Option<Refusal>
    requires pack { 1 ≤ public.now.pack }
    requires buffer { 3 * public.now.pack + 1 ≤ public.now.buffer }
    ensures { result
        ≡ early_refusal late (limits_of public.now) (headings_of public.now.tables) stmt.now }
{
    let tables = public.tables.as_slice();
    let parts = parts_of(stmt);
    let scope = sources::scope_of(tables, &parts.tables);
    first_of(&[
        (
            sources::lacks_table(tables, &parts.tables),
            Refusal::NoTable,
        ),
        (takes_name(tables, &parts), Refusal::NameTaken),
        (lacks_column(&parts, &scope), Refusal::NoColumn),
        (mistypes_any(&parts, &scope), Refusal::WrongType),
        (overflows_any(&parts, &scope), Refusal::ValueRange),
        (meets_limit(late, public, &parts), Refusal::Limit),
        (breaks_key_rule(&parts, &scope), Refusal::KeyRule),
        (
            sources::joins_off_key(&parts.tables, &scope),
            Refusal::JoinKey,
        ),
        (needs_key(tables, stmt), Refusal::NeedsKey),
    ])
}
