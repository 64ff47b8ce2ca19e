//! What has a name, and lists of such things.
ghost use Rattle.std.specs.Prelude.{◌≡◌, map, zip, bytes_eq};
ghost use Rattle.std.specs.List.{list_any};
ghost use Rattle.ob_base.specs.Lists.{has_repeats};
ghost use Rattle.ob_sql.specs.declared.stmt.Literal.{Literal};
ghost use Rattle.ob_names.specs.Names.{columns_in, unqualified, lack_columns};
ghost use Rattle.ob_names.specs.Kinds.{mistype_columns, overflow_columns};

use crate::kinds::{overflows, takes};
use crate::names::{means_one, unqualified};
use crate::scope::Scope;
use ob_base::{Column, Name, NewColumn};
use ob_sql::{Literal, Set};

/// A thing of a statement that has a name.
pub trait Named {
    ghost use Rattle.std.specs.Prelude.{◌≡◌, ℕ, List};

    ghost name_of: { Self → List ℕ };

    /// Its name.
    fn name(&self) -> &Name
        ensures { result.now ≡ name_of self.now };
}

impl Named for Name {
    ghost name_of = { λ n. n };

    fn name(&self) -> &Name {
        self
    }
}

impl Named for Column {
    ghost name_of = { λ c. c.name };

    fn name(&self) -> &Name {
        &self.name
    }
}

impl Named for NewColumn {
    ghost name_of = { λ c. c.name };

    fn name(&self) -> &Name {
        &self.name
    }
}

impl Named for Set {
    ghost name_of = { λ s. s.column };

    fn name(&self) -> &Name {
        &self.column
    }
}

/// Whether one of these things has this name.
pub fn has_name<T: Named>(items: &[T], name: &Name) -> bool
    ensures { result ≡ list_any (bytes_eq name.now) (map T.name_of items.now) }
{
    match items.split_first() {
        None => false,
        Some((item, items)) => {
            name.as_bytes() == item.name().as_bytes() || has_name(items, name)
        }
    }
}

/// Whether two of these things have one name.
pub fn has_repeats<T: Named>(items: &[T]) -> bool
    ensures { result ≡ has_repeats bytes_eq (map T.name_of items.now) }
{
    match items.split_first() {
        None => false,
        Some((item, items)) => has_name(items, item.name()) || has_repeats(items),
    }
}

/// Whether the name of one of these things means no column, or more than one.
pub fn lack_column<T: Named>(items: &[T], scope: &Scope<'_>) -> bool
    ensures { result
        ≡ lack_columns (columns_in scope.now) (map unqualified (map T.name_of items.now)) }
{
    match items.split_first() {
        None => false,
        Some((item, items)) => {
            !means_one(&unqualified(item.name()), scope) || lack_column(items, scope)
        }
    }
}

/// Whether a value is of another kind than the column that the name beside it means; what has nothing beside it
/// is left out.
pub fn mistype<T: Named>(items: &[T], values: &[Literal], scope: &Scope<'_>) -> bool
    ensures { result
        ≡ mistype_columns (columns_in scope.now)
        (zip (map unqualified (map T.name_of items.now)) values.now) }
{
    match (items.split_first(), values.split_first()) {
        (Some((item, items)), Some((value, values))) => {
            !takes(&unqualified(item.name()), value, scope) || mistype(items, values, scope)
        }
        _ => false,
    }
}

/// Whether the column that the name beside it means doesn't hold a value; what has nothing beside it is left out.
pub fn overflow<T: Named>(items: &[T], values: &[Literal], scope: &Scope<'_>) -> bool
    ensures { result
        ≡ overflow_columns (columns_in scope.now)
        (zip (map unqualified (map T.name_of items.now)) values.now) }
{
    match (items.split_first(), values.split_first()) {
        (Some((item, items)), Some((value, values))) => {
            overflows(&unqualified(item.name()), value, scope) || overflow(items, values, scope)
        }
        _ => false,
    }
}
