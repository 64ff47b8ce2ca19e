//! The places of the columns that a SELECT of rows prints.
ghost use Rattle.std.specs.Prelude.{◌≡◌, ◌≤◌, ◌+◌, ◌++◌, length, map};
ghost use Rattle.ob_base.specs.Lists.{tabulate};
ghost use Rattle.ob_names.specs.Names.{place_of};
ghost use Rattle.ob_mean.specs.Refusals.{listed};
ghost use Rattle.ob_mean.specs.Step.{printed_places};

use arrayvec::ArrayVec;
use ob_base::{Column, ColumnName};
use ob_names::place_of;
use ob_sql::SelectRows;

fn first_places(n: usize) -> ArrayVec<u8, 32>
    requires { n ≤ 32 }
    ensures { result.items ≡ tabulate n (λ i. i) }
{
    let mut places = ArrayVec::new();
    for i in 0..n {
        places.push(i as u8);
    }
    places
}

fn named_places(names: &[ColumnName], left: &[Column], right: &[Column]) -> ArrayVec<u8, 32>
    requires few { length names.now ≤ 32 }
    requires left { length left.now ≤ 32 }
    requires right { length right.now ≤ 32 }
    ensures { result.items ≡ map (λ c. place_of c (left.now ++ right.now)) names.now }
{
    let mut places = ArrayVec::new();
    for name in names {
        places.push(place_of(name, left, right) as u8);
    }
    places
}

/// The places of the columns that a SELECT of rows prints, from 0 on, among those of the left table and then
/// those of the right, which has none where one table is selected from: those of its list, in its order, or
/// without a list all of them. It never fails.
pub fn printed_places(select: &SelectRows, left: &[Column], right: &[Column]) -> ArrayVec<u8, 32>
    requires few { length (listed select.now) ≤ 32 }
    requires columns { length left.now + length right.now ≤ 32 }
    ensures { result.items ≡ printed_places select.now (left.now ++ right.now) }
{
    match &select.list {
        None => first_places(left.len() + right.len()),
        Some(names) => named_places(names.as_slice(), left, right),
    }
}
