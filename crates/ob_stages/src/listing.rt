//! What a SELECT of totals lists, by the columns of its table.
ghost use Rattle.std.specs.Prelude.{◌≡◌, ◌≤◌, map, take, length};
ghost use Rattle.ob_mean.specs.Step.{item_of};
ghost use Rattle.ob_stages.specs.Totalling.{agg_at};

use ob_base::Column;
use ob_mean::{agg_of, item_of};
use ob_row::{Agg, Item};
use ob_sql::Listed;

// The aggregate of an item; beside other aggregates alone no plain column stands.
fn agg_at(item: &Listed, columns: &[Column]) -> Agg
    requires { length columns.now ≤ 32 }
    ensures { result ≡ agg_at columns.now item.now }
{
    match agg_of(item, columns, &[]) {
        Some(agg) => agg,
        None => Agg::CountAll,
    }
}

/// The aggregates of the items, in the first places of an array that holds those of any answer.
pub fn aggs_at(items: &[Listed], columns: &[Column]) -> [Agg; 32]
    requires few { length items.now ≤ 32 }
    requires columns { length columns.now ≤ 32 }
    ensures size { length result ≡ 32 }
    ensures value { take (length items.now) result ≡ map (agg_at columns.now) items.now }
{
    let mut aggs = [Agg::CountAll; 32];
    for i in 0..items.len() {
        aggs[i] = agg_at(&items[i], columns);
    }
    aggs
}

/// The items of a group's row, likewise.
pub fn items_at(items: &[Listed], columns: &[Column]) -> [Item; 32]
    requires few { length items.now ≤ 32 }
    requires columns { length columns.now ≤ 32 }
    ensures size { length result ≡ 32 }
    ensures value { take (length items.now) result ≡ map (item_of columns.now) items.now }
{
    let mut parts = [Item::Key; 32];
    for i in 0..items.len() {
        parts[i] = item_of(&items[i], columns, &[]);
    }
    parts
}
