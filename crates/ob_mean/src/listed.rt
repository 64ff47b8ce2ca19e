//! What a SELECT lists.
ghost use Rattle.std.specs.Prelude.{◌≡◌, [], not, flat_map, unwrap_or};
ghost use Rattle.std.specs.List.{list_any};
ghost use Rattle.ob_sql.specs.Skeleton.{named_by};
ghost use Rattle.ob_names.specs.Names.{columns_in, lack_columns};
ghost use Rattle.ob_names.specs.Kinds.{are_texts, number_columns, plain_columns};
ghost use Rattle.ob_mean.specs.Parts.{behind};
ghost use Rattle.ob_mean.specs.Refusals.{is_group};

use ob_base::{ColumnName, Items};
use ob_names::{Scope, is_number, means_one};
use ob_sql::Listed;

/// The columns, none for `*`.
pub(crate) fn listed(list: &Option<Items<ColumnName>>) -> &[ColumnName]
    ensures { result.now ≡ unwrap_or list.now [] }
{
    match list {
        None => &[],
        Some(columns) => columns.as_slice(),
    }
}

/// Whether one of these names means no column, or more than one.
pub(crate) fn columns_lack(names: &[ColumnName], scope: &Scope<'_>) -> bool
    ensures { result ≡ lack_columns (columns_in scope.now) names.now }
{
    match names.split_first() {
        None => false,
        Some((name, names)) => !means_one(name, scope) || columns_lack(names, scope),
    }
}

fn item_lacks(item: &Listed, scope: &Scope<'_>) -> bool
    ensures { result ≡ lack_columns (columns_in scope.now) (named_by item.now) }
{
    match item {
        Listed::CountAll => false,
        Listed::Column(name)
        | Listed::Count(name)
        | Listed::Sum(name)
        | Listed::Min(name)
        | Listed::Max(name) => !means_one(name, scope),
    }
}

/// Whether an item names no column, or more than one.
#[tactic(auto, using(crate::proofs::CondLemmas::any_append))]
pub(crate) fn items_lack(items: &[Listed], scope: &Scope<'_>) -> bool
    ensures { result ≡ lack_columns (columns_in scope.now) (flat_map named_by items.now) }
{
    match items.split_first() {
        None => false,
        Some((item, items)) => item_lacks(item, scope) || items_lack(items, scope),
    }
}

fn item_mistypes(item: &Listed, scope: &Scope<'_>) -> bool
    ensures { result ≡ are_texts (columns_in scope.now) (number_columns item.now) }
{
    match item {
        Listed::Sum(name) | Listed::Min(name) | Listed::Max(name) => !is_number(name, scope),
        _ => false,
    }
}

/// Whether an item takes the numbers of a column of texts.
#[tactic(auto, using(crate::proofs::CondLemmas::any_append))]
pub(crate) fn items_mistype(items: &[Listed], scope: &Scope<'_>) -> bool
    ensures { result ≡ are_texts (columns_in scope.now) (flat_map number_columns items.now) }
{
    match items.split_first() {
        None => false,
        Some((item, items)) => { item_mistypes(item, scope) || items_mistype(items, scope) }
    }
}

fn is_group(group: Option<&ColumnName>, name: &ColumnName, scope: &Scope<'_>) -> bool
    ensures { result ≡ is_group (columns_in scope.now) (behind group.entry) name.now }
{
    match group {
        None => false,
        Some(key) => scope.place_of(name) == scope.place_of(key),
    }
}

fn item_strays(group: Option<&ColumnName>, item: &Listed, scope: &Scope<'_>) -> bool
    ensures { result ≡ list_any
        (λ name. not (is_group (columns_in scope.now) (behind group.entry) name))
        (plain_columns item.now) }
{
    match item {
        Listed::Column(name) => !is_group(group, name, scope),
        _ => false,
    }
}

/// Whether a plain column stands there that isn't the one of GROUP BY.
#[tactic(auto, using(crate::proofs::CondLemmas::any_append))]
pub(crate) fn items_stray(group: Option<&ColumnName>, items: &[Listed], scope: &Scope<'_>) -> bool
    ensures { result ≡ list_any
        (λ name. not (is_group (columns_in scope.now) (behind group.entry) name))
        (flat_map plain_columns items.now) }
{
    match items.split_first() {
        None => false,
        Some((item, items)) => {
            item_strays(group, item, scope) || items_stray(group, items, scope)
        }
    }
}
