//! The items of a SELECT, by the places of their columns.
ghost use Rattle.std.specs.Prelude.{◌≡◌, ◌≤◌, ◌++◌, length};
ghost use Rattle.ob_names.specs.Names.{columns_in};
ghost use Rattle.ob_mean.specs.Step.{agg_of, item_of};

use ob_base::Column;
use ob_names::Scope;
use ob_row::{Agg, Item};
use ob_sql::Listed;

/// The aggregate of an item, if it is one.
pub fn agg_in(item: &Listed, scope: &Scope<'_>) -> Option<Agg>
    ensures { result ≡ agg_of (columns_in scope.now) item.now }
{
    match item {
        Listed::Column(_) => None,
        Listed::CountAll => Some(Agg::CountAll),
        Listed::Count(name) => Some(Agg::Count(scope.place_of(name) as u8)),
        Listed::Sum(name) => Some(Agg::Sum(scope.place_of(name) as u8)),
        Listed::Min(name) => Some(Agg::Min(scope.place_of(name) as u8)),
        Listed::Max(name) => Some(Agg::Max(scope.place_of(name) as u8)),
    }
}

/// The item of a grouped answer: beside GROUP BY a plain column is the group's own.
pub fn item_in(item: &Listed, scope: &Scope<'_>) -> Item
    ensures { result ≡ item_of (columns_in scope.now) item.now }
{
    match agg_in(item, scope) {
        None => Item::Key,
        Some(agg) => Item::Agg(agg),
    }
}

/// The aggregate of an item, if it is one, among the columns of two tables that are held apart.
pub fn agg_of(item: &Listed, left: &[Column], right: &[Column]) -> Option<Agg>
    requires left { length left.now ≤ 32 }
    requires right { length right.now ≤ 32 }
    ensures { result ≡ agg_of (left.now ++ right.now) item.now }
{
    agg_in(item, &Scope::of_join(left, right))
}

/// The item of a grouped answer among them.
pub fn item_of(item: &Listed, left: &[Column], right: &[Column]) -> Item
    requires left { length left.now ≤ 32 }
    requires right { length right.now ≤ 32 }
    ensures { result ≡ item_of (left.now ++ right.now) item.now }
{
    item_in(item, &Scope::of_join(left, right))
}
