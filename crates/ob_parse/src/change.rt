//! CREATE, INSERT, UPDATE, DELETE and DROP are read, after their first words.
ghost use Rattle.std.specs.Prelude.{◌≡◌};
ghost use Rattle.ob_parse.specs.Statements.{capped, integer_mark, integer_of};
ghost use Rattle.ob_condition.specs.Reading.{Gives};
ghost use Rattle.ob_parse.specs.StatementReading.{assignment, constrains, constraint, constraints, create, definition, delete, drop_table, insert, kind, names, shape, targets, update, varchar};
ghost use Rattle.ob_condition.specs.Reading.{begins};
ghost use Rattle.ob_grammar.specs.Reader.{token};

use crate::part::{Part, list};
use ob_base::{Items, Name, NewColumn, NewKind, Shape};
use ob_condition::{Fault, constant, expect, name, number, skip, where_part};
use ob_sql::{Literal, Set, Stmt};
use ob_token::{Lexeme, Mark, Token};
use std::alloc::Global;

fn capped(number: u64) -> u32
    ensures { result ≡ capped number }
{
    if number < 4294967295 {
        number as u32
    } else {
        4294967295
    }
}

#[tactic(auto, unfolding(crate::specs::StatementReading::varchar))]
fn varchar(tokens: &[Token]) -> Result<(NewKind, &[Token]), Fault<'_>>
    ensures { Gives (λ k. k) result (varchar tokens.now) }
{
    let rest = expect(tokens, Mark::Open)?;
    let (size, rest) = number(rest)?;
    let rest = expect(rest, Mark::Close)?;
    Ok((NewKind::Varchar(capped(size)), rest))
}

fn integer_of_mark(mark: Mark) -> Option<NewKind>
    ensures { result ≡ integer_mark mark }
{
    match mark {
        Mark::Int => Some(NewKind::Int),
        Mark::Integer => Some(NewKind::Int),
        _ => None,
    }
}

fn integer(tokens: &[Token]) -> Result<(NewKind, &[Token]), Fault<'_>>
    ensures { Gives (λ k. k) result (token integer_of tokens.now) }
{
    let Some((first, rest)) = tokens.split_first() else {
        return Err(Fault::Stuck(tokens));
    };
    let Lexeme::Mark(mark) = &first.lexeme else {
        return Err(Fault::Stuck(tokens));
    };
    match integer_of_mark(*mark) {
        Some(kind) => Ok((kind, rest)),
        None => Err(Fault::Stuck(tokens)),
    }
}

#[tactic(auto, unfolding(crate::specs::StatementReading::kind))]
fn kind(tokens: &[Token]) -> Result<(NewKind, &[Token]), Fault<'_>>
    ensures { Gives (λ k. k) result (kind tokens.now) }
{
    match skip(tokens, Mark::Varchar) {
        Some(rest) => varchar(rest),
        None => integer(tokens),
    }
}

#[tactic(auto, unfolding(crate::specs::StatementReading::constraint))]
fn constraint(tokens: &[Token], keys: u32) -> Result<(u32, &[Token]), Fault<'_>>
    ensures { Gives (λ n. n) result (constraint keys tokens.now) }
{
    match skip(tokens, Mark::Not) {
        Some(rest) => {
            let rest = expect(rest, Mark::Null)?;
            Ok((keys, rest))
        }
        None => {
            let rest = expect(tokens, Mark::Primary)?;
            let rest = expect(rest, Mark::Key)?;
            Ok((keys.saturating_add(1), rest))
        }
    }
}

#[tactic(auto, unfolding(crate::specs::StatementReading::drop_table))]
pub(crate) fn drop_table(tokens: &[Token]) -> Result<(Stmt, &[Token]), Fault<'_>>
    ensures { Gives (λ s. s) result (drop_table tokens.now) }
{
    let rest = expect(tokens, Mark::Table)?;
    let (table, rest) = name(rest)?;
    Ok((Stmt::Drop { table }, rest))
}

#[tactic(auto, unfolding(crate::specs::StatementReading::names))]
fn names<'a>(
    alloc: Global,
    text: &[u8],
    tokens: &'a [Token],
) -> Result<(Items<Name>, &'a [Token]), Fault<'a>>
    ensures { Gives (λ l. l) result (names tokens.now) }
{
    let (found, rest) = list::<Name>(alloc, text, tokens)?;
    let rest = expect(rest, Mark::Close)?;
    Ok((found, rest))
}

#[tactic(auto, unfolding(crate::specs::StatementReading::targets))]
fn targets<'a>(
    alloc: Global,
    text: &[u8],
    tokens: &'a [Token],
) -> Result<(Option<Items<Name>>, &'a [Token]), Fault<'a>>
    ensures { Gives (λ l. l) result (targets tokens.now) }
{
    match skip(tokens, Mark::Open) {
        Some(rest) => {
            let (found, rest) = names(alloc, text, rest)?;
            Ok((Some(found), rest))
        }
        None => Ok((None, tokens)),
    }
}

#[tactic(auto, unfolding(crate::specs::StatementReading::insert))]
pub(crate) fn insert<'a>(
    alloc: Global,
    text: &[u8],
    tokens: &'a [Token],
) -> Result<(Stmt, &'a [Token]), Fault<'a>>
    ensures { Gives (λ s. s) result (insert text.now tokens.now) }
{
    let rest = expect(tokens, Mark::Into)?;
    let (table, rest) = name(rest)?;
    let (columns, rest) = targets(alloc, text, rest)?;
    let rest = expect(rest, Mark::Values)?;
    let rest = expect(rest, Mark::Open)?;
    let (values, rest) = list::<Literal>(alloc, text, rest)?;
    let rest = expect(rest, Mark::Close)?;
    Ok((
        Stmt::Insert {
            table,
            columns,
            values,
        },
        rest,
    ))
}

#[tactic(auto, unfolding(crate::specs::StatementReading::assignment))]
pub(crate) fn assignment<'a>(
    text: &[u8],
    tokens: &'a [Token],
) -> Result<(Set, &'a [Token]), Fault<'a>>
    ensures { Gives (λ s. s) result (assignment text.now tokens.now) }
{
    let (column, rest) = name(tokens)?;
    let rest = expect(rest, Mark::Equal)?;
    let (value, rest) = constant(text, rest)?;
    Ok((Set { column, value }, rest))
}

#[tactic(auto, unfolding(crate::specs::StatementReading::delete))]
pub(crate) fn delete<'a>(
    alloc: Global,
    text: &[u8],
    tokens: &'a [Token],
) -> Result<(Stmt, &'a [Token]), Fault<'a>>
    ensures { Gives (λ s. s) result (delete text.now tokens.now) }
{
    let rest = expect(tokens, Mark::From)?;
    let (table, rest) = name(rest)?;
    let (cond, rest) = where_part(alloc, text, rest)?;
    Ok((Stmt::Delete { table, cond }, rest))
}

// Whether NOT NULL or PRIMARY KEY begins there.
fn begins_constraint(tokens: &[Token]) -> bool
    ensures { result ≡ begins constrains tokens.now }
{
    match tokens.first() {
        Some(first) => match &first.lexeme {
            Lexeme::Mark(mark) => Mark::Not == *mark || Mark::Primary == *mark,
            _ => false,
        },
        None => false,
    }
}

fn constraints(tokens: &[Token]) -> Result<(u32, &[Token]), Fault<'_>>
    ensures { Gives (λ n. n) result (constraints tokens.now) }
{
    let mut keys: u32 = 0;
    let mut rest = tokens;
    'parts: while begins_constraint(rest) {
        match constraint(rest, keys) {
            Ok((more, next)) => {
                keys = more;
                rest = next;
            }
            Err(fault) => return Err(fault),
        }
    }
    Ok((keys, rest))
}

#[tactic(auto, unfolding(crate::specs::StatementReading::definition))]
pub(crate) fn definition(tokens: &[Token]) -> Result<(NewColumn, &[Token]), Fault<'_>>
    ensures { Gives (λ c. c) result (definition tokens.now) }
{
    let (name, rest) = name(tokens)?;
    let (kind, rest) = kind(rest)?;
    let (keys, rest) = constraints(rest)?;
    Ok((NewColumn { name, kind, keys }, rest))
}

#[tactic(auto, unfolding(crate::specs::StatementReading::shape))]
fn shape(tokens: &[Token]) -> Result<(Shape, &[Token]), Fault<'_>>
    ensures { Gives (λ s. s) result (shape tokens.now) }
{
    match skip(tokens, Mark::Indexed) {
        Some(rest) => Ok((Shape::Indexed, rest)),
        None => Ok((Shape::Flat, tokens)),
    }
}

#[tactic(auto, unfolding(crate::specs::StatementReading::create))]
pub(crate) fn create<'a>(
    alloc: Global,
    text: &[u8],
    tokens: &'a [Token],
) -> Result<(Stmt, &'a [Token]), Fault<'a>>
    ensures { Gives (λ s. s) result (create tokens.now) }
{
    let rest = expect(tokens, Mark::Table)?;
    let (table, rest) = name(rest)?;
    let rest = expect(rest, Mark::Open)?;
    let (columns, rest) = list::<NewColumn>(alloc, text, rest)?;
    let rest = expect(rest, Mark::Close)?;
    let rest = expect(rest, Mark::Capacity)?;
    let (size, rest) = number(rest)?;
    let capacity = capped(size);
    let (shape, rest) = shape(rest)?;
    Ok((
        Stmt::Create {
            table,
            columns,
            capacity,
            shape,
        },
        rest,
    ))
}

#[tactic(auto, unfolding(crate::specs::StatementReading::update))]
pub(crate) fn update<'a>(
    alloc: Global,
    text: &[u8],
    tokens: &'a [Token],
) -> Result<(Stmt, &'a [Token]), Fault<'a>>
    ensures { Gives (λ s. s) result (update text.now tokens.now) }
{
    let (table, rest) = name(tokens)?;
    let rest = expect(rest, Mark::Set)?;
    let (sets, rest) = list::<Set>(alloc, text, rest)?;
    let (cond, rest) = where_part(alloc, text, rest)?;
    Ok((Stmt::Update { table, sets, cond }, rest))
}
