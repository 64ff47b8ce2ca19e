//! The names and the comparisons of a condition.
ghost use Rattle.std.specs.Prelude.{◌≡◌, flat_map};
ghost use Rattle.std.specs.Prelude.{Option};
ghost use Rattle.ob_sql.specs.Search.{search_of};
ghost use Rattle.ob_names.specs.Names.{columns_in, lack_columns};
ghost use Rattle.ob_names.specs.Kinds.{comparisons, where_comparisons, comparison_columns, mistype_comparisons, overflow_comparisons};
ghost use Rattle.ob_mean.specs.Parts.{behind};

use ob_base::ColumnName;
use ob_names::{Scope, is_against_too_large, is_wrong_comparison, means_one};
use ob_sql::{Against, Cond, CondTree};

fn comparison_lacks(name: &ColumnName, with: &Against, scope: &Scope<'_>) -> bool
    ensures { result
        ≡ lack_columns (columns_in scope.now) (comparison_columns (name.now, with.now)) }
{
    let lacks = !means_one(name, scope);
    match with {
        Against::Literal(_) => lacks,
        Against::Column(other) => lacks || !means_one(other, scope),
    }
}

#[tactic(auto, using(crate::proofs::CondLemmas::any_append, crate::proofs::CondLemmas::columns_append))]
fn tree_lacks(tree: &CondTree, scope: &Scope<'_>) -> bool
    ensures { result
        ≡ lack_columns (columns_in scope.now)
        (flat_map comparison_columns (comparisons (search_of tree.now))) }
{
    match tree {
        CondTree::Compare(name, _, with) => comparison_lacks(name, with, scope),
        CondTree::Not(p) => tree_lacks(p, scope),
        CondTree::And(p, q) => tree_lacks(p, scope) || tree_lacks(q, scope),
        CondTree::Or(p, q) => tree_lacks(p, scope) || tree_lacks(q, scope),
    }
}

#[tactic(auto, using(crate::proofs::CondLemmas::any_append))]
fn tree_mistypes(tree: &CondTree, scope: &Scope<'_>) -> bool
    ensures { result
        ≡ mistype_comparisons (columns_in scope.now) (comparisons (search_of tree.now)) }
{
    match tree {
        CondTree::Compare(name, _, with) => is_wrong_comparison(name, with, scope),
        CondTree::Not(p) => tree_mistypes(p, scope),
        CondTree::And(p, q) => tree_mistypes(p, scope) || tree_mistypes(q, scope),
        CondTree::Or(p, q) => tree_mistypes(p, scope) || tree_mistypes(q, scope),
    }
}

#[tactic(auto, using(crate::proofs::CondLemmas::any_append))]
fn tree_exceeds(tree: &CondTree) -> bool
    ensures { result ≡ overflow_comparisons (comparisons (search_of tree.now)) }
{
    match tree {
        CondTree::Compare(_, _, with) => is_against_too_large(with),
        CondTree::Not(p) => tree_exceeds(p),
        CondTree::And(p, q) => tree_exceeds(p) || tree_exceeds(q),
        CondTree::Or(p, q) => tree_exceeds(p) || tree_exceeds(q),
    }
}

/// Whether a condition names a column that there isn't, or more than one.
pub(crate) fn lacks(cond: Option<&Cond>, scope: &Scope<'_>) -> bool
    ensures { result
        ≡ lack_columns (columns_in scope.now)
        (flat_map comparison_columns (where_comparisons (behind cond.entry))) }
{
    match cond {
        None => false,
        Some(cond) => tree_lacks(cond.tree(), scope),
    }
}

/// Whether it compares a column with another kind.
pub(crate) fn mistypes(cond: Option<&Cond>, scope: &Scope<'_>) -> bool
    ensures { result
        ≡ mistype_comparisons (columns_in scope.now) (where_comparisons (behind cond.entry)) }
{
    match cond {
        None => false,
        Some(cond) => tree_mistypes(cond.tree(), scope),
    }
}

/// Whether it compares one with a literal that no cell holds.
pub(crate) fn exceeds(cond: Option<&Cond>) -> bool
    ensures { result ≡ overflow_comparisons (where_comparisons (behind cond.entry)) }
{
    match cond {
        None => false,
        Some(cond) => tree_exceeds(cond.tree()),
    }
}
