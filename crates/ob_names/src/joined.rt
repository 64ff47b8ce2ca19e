//! The places of names among the columns of two tables that are held apart.
ghost use Rattle.std.specs.Prelude.{◌≡◌, ◌≤◌, ◌<◌, ◌++◌, length};
ghost use Rattle.ob_names.specs.Names.{place_of, left_place, right_place};

use crate::scope::Scope;
use ob_base::{Column, ColumnName};

/// The place of the column that a name means, among those of these tables together.
pub fn place_of(name: &ColumnName, left: &[Column], right: &[Column]) -> usize
    requires left { length left.now ≤ 32 }
    requires right { length right.now ≤ 32 }
    ensures value { result ≡ place_of name.now (left.now ++ right.now) }
    ensures few { result < 64 }
{
    Scope::of_join(left, right).place_of(name)
}

/// The place of the left table's column of ON, whichever side it stands on.
pub fn left_place(on: &ColumnName, equals: &ColumnName, left: &[Column], right: &[Column]) -> usize
    requires left { length left.now ≤ 32 }
    requires right { length right.now ≤ 32 }
    ensures value { result
        ≡ left_place (length left.now) (left.now ++ right.now) on.now equals.now }
    ensures few { result < 64 }
{
    Scope::of_join(left, right).left_place(on, equals)
}

/// The place of the right table's column of ON, among that table's own.
pub fn right_place(on: &ColumnName, equals: &ColumnName, left: &[Column], right: &[Column]) -> usize
    requires left { length left.now ≤ 32 }
    requires right { length right.now ≤ 32 }
    ensures value { result
        ≡ right_place (length left.now) (left.now ++ right.now) on.now equals.now }
    ensures few { result < 64 }
{
    Scope::of_join(left, right).right_place(on, equals)
}
