//! The condition of a WHERE, by the places of its columns.
ghost use Rattle.std.specs.Prelude.{◌≡◌, ◌≤◌, ◌++◌, length, IfOk};
ghost use Rattle.ob_row.specs.Spelling.{IsCell};
ghost use Rattle.ob_sql.specs.Search.{search_of};
ghost use Rattle.ob_names.specs.Names.{columns_in};
ghost use Rattle.ob_mean.specs.Conditions.{literal_cell, operand_at, condition_at, where_at};

use ob_base::{Column, Text};
use ob_names::Scope;
use ob_row::{Cell, Operand, Pred};
use ob_sql::{Against, Cond, CondTree, Literal};
use std::alloc::{AllocError, Global};

/// The cell of a literal; one that no cell holds is refused before.
pub fn literal_cell(literal: &Literal) -> Cell
    ensures value { result ≡ literal_cell literal.now }
    ensures held { IsCell result }
{
    match literal {
        Literal::Int(x) => Cell::Int(*x),
        Literal::Text(text) => Cell::Text(text.copied()),
        Literal::OutOfRange => Cell::Text(Text::from_bytes(b"")),
        Literal::TooLong => Cell::Text(Text::from_bytes(b"")),
    }
}

fn operand_at(with: &Against, scope: &Scope<'_>) -> Operand
    ensures { result ≡ operand_at with.now (columns_in scope.now) }
{
    match with {
        Against::Literal(literal) => Operand::Cell(literal_cell(literal)),
        Against::Column(name) => Operand::Column(scope.place_of(name) as u8),
    }
}

fn condition_at(alloc: Global, tree: &CondTree, scope: &Scope<'_>) -> Result<Pred, AllocError>
    ensures { IfOk result (λ p. p ≡ condition_at (search_of tree.now) (columns_in scope.now)) }
{
    match tree {
        CondTree::Compare(name, order, with) => Ok(Pred::compare(
            scope.place_of(name) as u8,
            *order,
            operand_at(with, scope),
        )),
        CondTree::Not(p) => Pred::not(alloc, condition_at(alloc, p, scope)?),
        CondTree::And(p, q) => {
            let p = condition_at(alloc, p, scope)?;
            let q = condition_at(alloc, q, scope)?;
            Pred::and(alloc, p, q)
        }
        CondTree::Or(p, q) => {
            let p = condition_at(alloc, p, scope)?;
            let q = condition_at(alloc, q, scope)?;
            Pred::or(alloc, p, q)
        }
    }
}

/// The condition of a WHERE over the columns of two tables together; without one it is true of every row.
pub fn where_at(
    alloc: Global,
    cond: &Option<Cond>,
    left: &[Column],
    right: &[Column],
) -> Result<Pred, AllocError>
    requires left { length left.now ≤ 32 }
    requires right { length right.now ≤ 32 }
    ensures { IfOk result (λ p. p ≡ where_at cond.now (left.now ++ right.now)) }
{
    match cond {
        None => Ok(Pred::all()),
        Some(cond) => condition_at(alloc, cond.tree(), &Scope::of_join(left, right)),
    }
}
