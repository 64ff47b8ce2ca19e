//! Conditions on the cells of a row.
ghost use Rattle.std.specs.Prelude.{◌≡◌, IfOk};

use crate::cell::Cell;
use ob_base::ComparisonOperator;
use std::alloc::{AllocError, Global};
use std::marker::Model;

/// What a column is compared with: a value, or the column at a place.
#[derive(Debug, PartialEq, Eq, Drop)]
pub enum Operand {
    Cell(Cell),
    Column(u8),
}

#[derive(Drop)]
pub(crate) enum Tree {
    All,
    Compare(u8, ComparisonOperator, Operand),
    Not(Box<Tree>),
    And(Box<Tree>, Box<Tree>),
    Or(Box<Tree>, Box<Tree>),
}

/// A condition on the cells of a row, which it names by place.
#[derive(Drop)]
pub struct Pred {
    pub(crate) tree: Tree,
}

impl Model for Pred {
    ghost use Rattle.ob_row.specs.Condition.{Condition, condition_of, condition_code};

    ghost Value = { Condition };

    ghost coded = { condition_code };

    ghost view = { λ p. condition_of p.tree };
}

impl Pred {
    ghost use Rattle.ob_row.specs.Condition.{All as IsAll, Compare as IsCompare, Not as IsNot, And as IsAnd, Or as IsOr};

    /// True of every row.
    pub fn all() -> Pred
        ensures { result ≡ IsAll }
    {
        Pred { tree: Tree::All }
    }

    /// True where the cell at a place compares so with another.
    pub fn compare(column: u8, operator: ComparisonOperator, with: Operand) -> Pred
        ensures { result ≡ IsCompare column operator with }
    {
        Pred {
            tree: Tree::Compare(column, operator, with),
        }
    }

    /// True where the other is false.
    pub fn not(alloc: Global, p: Pred) -> Result<Pred, AllocError>
        ensures { IfOk result (λ r. r ≡ IsNot p) }
    {
        let Pred { tree } = p;
        Ok(Pred {
            tree: Tree::Not(Box::new(alloc, tree)?),
        })
    }

    /// True where both are true.
    pub fn and(alloc: Global, p: Pred, q: Pred) -> Result<Pred, AllocError>
        ensures { IfOk result (λ r. r ≡ IsAnd p q) }
    {
        let Pred { tree: left } = p;
        let Pred { tree: right } = q;
        Ok(Pred {
            tree: Tree::And(Box::new(alloc, left)?, Box::new(alloc, right)?),
        })
    }

    /// True where one or both are true.
    pub fn or(alloc: Global, p: Pred, q: Pred) -> Result<Pred, AllocError>
        ensures { IfOk result (λ r. r ≡ IsOr p q) }
    {
        let Pred { tree: left } = p;
        let Pred { tree: right } = q;
        Ok(Pred {
            tree: Tree::Or(Box::new(alloc, left)?, Box::new(alloc, right)?),
        })
    }
}
