//! The columns that the names of a statement may mean.
ghost use Rattle.std.specs.Prelude.{◌≡◌, ◌≤◌, [], length};

use ob_base::Column;
use std::marker::Model;

/// Those of a table, or of the left one of a join, and those of the right one; at most 32 of each.
#[derive(Drop)]
pub struct Scope<'a> {
    left: &'a [Column],
    right: &'a [Column],
}

impl<'a> Model for Scope<'a> {
    ghost use Rattle.std.specs.Prelude.{◌≤◌, length};
    ghost use Rattle.ob_names.specs.Names.{Scope as ScopeHeld};

    ghost Value = { ScopeHeld };

    ghost view = { λ s. record { left = s.left.now; right = s.right.now } };

    ghost invariant = { λ s. (length s.left.now ≤ 32) × (length s.right.now ≤ 32) };
}

impl<'a> Scope<'a> {
    /// The columns of one table.
    pub fn of_table(columns: &'a [Column]) -> Scope<'a>
        requires { length columns.now ≤ 32 }
        ensures { result ≡ record { left = columns.now; right = [] } }
    {
        Scope {
            left: columns,
            right: &[],
        }
    }

    /// The columns of the two tables of a join.
    pub fn of_join(left: &'a [Column], right: &'a [Column]) -> Scope<'a>
        requires left { length left.now ≤ 32 }
        requires right { length right.now ≤ 32 }
        ensures { result ≡ record { left = left.now; right = right.now } }
    {
        Scope { left, right }
    }

    /// Those of the left table, or of the one.
    pub fn left(&self) -> &[Column]
        ensures value { result.now ≡ self.now.left }
        ensures few { length result.now ≤ 32 }
    {
        self.left
    }

    /// Those of the right table.
    pub fn right(&self) -> &[Column]
        ensures value { result.now ≡ self.now.right }
        ensures few { length result.now ≤ 32 }
    {
        self.right
    }
}
