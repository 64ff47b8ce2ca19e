//! The kinds of literals and of compared columns.
ghost use Rattle.std.specs.Prelude.{◌≡◌};
ghost use Rattle.ob_base.specs.Schemas.{same_kind};
ghost use Rattle.ob_base.specs.declared.schema.Kind.TheVariants.{Int as IntKind};
ghost use Rattle.ob_names.specs.Names.{columns_in};
ghost use Rattle.ob_names.specs.Kinds.{is_of_kind, is_too_large, is_too_large_for, at_kind, against_too_large, is_wrong_comparison};

use crate::names::kind_meant;
use crate::scope::Scope;
use ob_base::{ColumnName, Kind};
use ob_sql::{Against, Literal};

fn same_kind(a: Kind, b: Kind) -> bool
    ensures { result ≡ same_kind a b }
{
    matches!(
        (a, b),
        (Kind::Int, Kind::Int) | (Kind::Varchar(_), Kind::Varchar(_))
    )
}

fn is_of_kind(kind: Kind, literal: &Literal) -> bool
    ensures { result ≡ is_of_kind kind literal.now }
{
    match literal {
        Literal::Int(_) | Literal::OutOfRange => matches!(kind, Kind::Int),
        Literal::Text(_) | Literal::TooLong => matches!(kind, Kind::Varchar(_)),
    }
}

fn is_too_large(literal: &Literal) -> bool
    ensures { result ≡ is_too_large literal.now }
{
    matches!(literal, Literal::OutOfRange | Literal::TooLong)
}

fn is_too_large_for(kind: Kind, literal: &Literal) -> bool
    ensures { result ≡ is_too_large_for kind literal.now }
{
    match (kind, literal) {
        (Kind::Varchar(n), Literal::Text(text)) => text.as_bytes().len() > usize::from(n),
        _ => is_too_large(literal),
    }
}

/// Whether the column that a name means has the kind of this literal.
pub fn takes(name: &ColumnName, literal: &Literal, scope: &Scope<'_>) -> bool
    ensures { result ≡ at_kind (λ k. is_of_kind k literal.now) name.now (columns_in scope.now) }
{
    match kind_meant(name, scope) {
        Some(kind) => is_of_kind(kind, literal),
        None => false,
    }
}

/// Whether the column that a name means doesn't hold this literal.
pub fn overflows(name: &ColumnName, literal: &Literal, scope: &Scope<'_>) -> bool
    ensures { result
        ≡ at_kind (λ k. is_too_large_for k literal.now) name.now (columns_in scope.now) }
{
    match kind_meant(name, scope) {
        Some(kind) => is_too_large_for(kind, literal),
        None => false,
    }
}

/// Whether the column that a name means holds numbers.
pub fn is_number(name: &ColumnName, scope: &Scope<'_>) -> bool
    ensures { result ≡ at_kind (same_kind IntKind) name.now (columns_in scope.now) }
{
    match kind_meant(name, scope) {
        Some(kind) => same_kind(Kind::Int, kind),
        None => false,
    }
}

/// Whether the columns that two names mean are of one kind.
pub fn are_alike(a: &ColumnName, b: &ColumnName, scope: &Scope<'_>) -> bool
    ensures { result
        ≡ at_kind (λ k. at_kind (same_kind k) b.now (columns_in scope.now)) a.now
        (columns_in scope.now) }
{
    match (kind_meant(a, scope), kind_meant(b, scope)) {
        (Some(kind), Some(other)) => same_kind(kind, other),
        _ => false,
    }
}

/// Whether a column is compared with another kind than its own.
pub fn is_wrong_comparison(name: &ColumnName, with: &Against, scope: &Scope<'_>) -> bool
    ensures { result ≡ is_wrong_comparison (columns_in scope.now) (name.now, with.now) }
{
    match with {
        Against::Literal(literal) => !takes(name, literal, scope),
        Against::Column(other) => !are_alike(name, other, scope),
    }
}

/// Whether a column is compared with a literal that no cell holds: an integer outside 64 bits, or a text of more
/// than 255 bytes.
pub fn is_against_too_large(with: &Against) -> bool
    ensures { result ≡ against_too_large with.now }
{
    match with {
        Against::Literal(literal) => is_too_large(literal),
        Against::Column(_) => false,
    }
}
