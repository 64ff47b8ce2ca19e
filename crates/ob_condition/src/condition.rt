//! Conditions are read, by recursive descent.
ghost use Rattle.std.specs.Prelude.{◌≡◌, false, IfOk, IfErr, IsOk};
ghost use Rattle.ob_token.specs.declared.token.Mark.TheVariants.{Where};
ghost use Rattle.ob_condition.specs.Marks.{is};
ghost use Rattle.ob_sql.specs.Search.{Compare, Not, And, Or};
ghost use Rattle.ob_condition.specs.Reading.{begins, Gives, IsStuck, column, comparison, cond_of, condition, conj_of, constant, operand, prim, search_in, where_part};

use crate::reader::{Fault, begins_name, name, number, order, plain, sign, skip, with_sign};
use ob_base::ColumnName;
use ob_sql::{Against, Cond, CondTree, Literal};
use ob_token::{Mark, Token};
use std::alloc::{AllocError, Global};

/// How many of NOT and ( may stand on a path.
const DEPTH: u32 = 32;

/// A column, with its table's name and a dot before it or without (a column reference of ISO/IEC 9075:1992), and
/// the tokens after it. It takes no memory.
#[tactic(auto, unfolding(crate::specs::Reading::column))]
pub fn column(tokens: &[Token]) -> Result<(ColumnName, &[Token]), Fault<'_>>
    ensures value { Gives (λ c. c) result (column tokens.now) }
    ensures no_memory { IfErr result IsStuck }
{
    let (first, rest) = name(tokens)?;
    match skip(rest, Mark::Dot) {
        Some(rest) => {
            let (second, rest) = name(rest)?;
            let found = ColumnName {
                table: Some(first),
                column: second,
            };
            Ok((found, rest))
        }
        None => {
            let found = ColumnName {
                table: None,
                column: first,
            };
            Ok((found, rest))
        }
    }
}

/// A literal, of the tokens of this text, and the tokens after it: a number of digits with a sign or without, or
/// a text between quotes. An integer outside 64 bits and a text above 255 bytes are kept as such. It takes no
/// memory.
#[tactic(auto, unfolding(crate::specs::Reading::constant))]
pub fn constant<'a>(text: &[u8], tokens: &'a [Token]) -> Result<(Literal, &'a [Token]), Fault<'a>>
    ensures value { Gives (λ l. l) result (constant text.now tokens.now) }
    ensures no_memory { IfErr result IsStuck }
{
    match sign(tokens) {
        Some((minus, rest)) => {
            let (digits, rest) = number(rest)?;
            Ok((with_sign(minus, digits), rest))
        }
        None => plain(text, tokens),
    }
}

#[tactic(auto, unfolding(crate::specs::Reading::operand))]
fn operand<'a>(text: &[u8], tokens: &'a [Token]) -> Result<(Against, &'a [Token]), Fault<'a>>
    ensures value { Gives (λ a. a) result (operand text.now tokens.now) }
    ensures no_memory { IfErr result IsStuck }
{
    if begins_name(tokens) {
        let (found, rest) = column(tokens)?;
        Ok((Against::Column(found), rest))
    } else {
        let (found, rest) = constant(text, tokens)?;
        Ok((Against::Literal(found), rest))
    }
}

#[tactic(auto, unfolding(crate::specs::Reading::comparison))]
fn comparison<'a>(
    alloc: Global,
    text: &[u8],
    tokens: &'a [Token],
) -> Result<(Box<CondTree>, &'a [Token]), Fault<'a>>
    ensures { Gives search_in result (comparison text.now tokens.now) }
{
    let (left, rest) = column(tokens)?;
    let (order, rest) = order(rest)?;
    let (right, rest) = operand(text, rest)?;
    match Box::new(alloc, CondTree::Compare(left, order, right)) {
        Ok(made) => Ok((made, rest)),
        Err(_) => Err(Fault::Memory),
    }
}

fn not(alloc: Global, p: Box<CondTree>) -> Result<Box<CondTree>, AllocError>
    ensures { IfOk result (λ c. search_in c ≡ Not (search_in p)) }
{
    Ok(Box::new(alloc, CondTree::Not(p))?)
}

fn and(alloc: Global, p: Box<CondTree>, q: Box<CondTree>) -> Result<Box<CondTree>, AllocError>
    ensures { IfOk result (λ c. search_in c ≡ And (search_in p) (search_in q)) }
{
    Ok(Box::new(alloc, CondTree::And(p, q))?)
}

fn or(alloc: Global, p: Box<CondTree>, q: Box<CondTree>) -> Result<Box<CondTree>, AllocError>
    ensures { IfOk result (λ c. search_in c ≡ Or (search_in p) (search_in q)) }
{
    Ok(Box::new(alloc, CondTree::Or(p, q))?)
}

#[cycle(parser)]
fn prim<'a>(
    alloc: Global,
    text: &[u8],
    tokens: &'a [Token],
    depth: u32,
) -> Result<(Box<CondTree>, &'a [Token]), Fault<'a>>
    ensures { Gives search_in result (prim text.now depth tokens.now) }
{
    if depth == 0 {
        return comparison(alloc, text, tokens);
    }
    if let Some(rest) = skip(tokens, Mark::Not) {
        return match prim(alloc, text, rest, depth - 1) {
            Ok((inner, behind)) => match not(alloc, inner) {
                Ok(made) => Ok((made, behind)),
                Err(_) => Err(Fault::Memory),
            },
            Err(fault) => Err(fault),
        };
    }
    if let Some(rest) = skip(tokens, Mark::Open) {
        return match cond(alloc, text, rest, depth - 1) {
            Ok((inner, behind)) => match skip(behind, Mark::Close) {
                Some(after) => Ok((inner, after)),
                None => Err(Fault::Stuck(behind)),
            },
            Err(fault) => Err(fault),
        };
    }
    comparison(alloc, text, tokens)
}

#[cycle(parser)]
fn conj<'a>(
    alloc: Global,
    text: &[u8],
    tokens: &'a [Token],
    depth: u32,
) -> Result<(Box<CondTree>, &'a [Token]), Fault<'a>>
    ensures { Gives search_in result (conj_of (prim text.now depth) tokens.now) }
{
    let (mut left, mut rest) = match prim(alloc, text, tokens, depth) {
        Ok(first) => first,
        Err(fault) => return Err(fault),
    };
    'parts: while let Some(after) = skip(rest, Mark::And) {
        match prim(alloc, text, after, depth) {
            Ok((right, next)) => {
                rest = next;
                left = match and(alloc, left, right) {
                    Ok(made) => made,
                    Err(_) => return Err(Fault::Memory),
                };
            }
            Err(fault) => return Err(fault),
        }
    }
    Ok((left, rest))
}

#[cycle(parser)]
fn cond<'a>(
    alloc: Global,
    text: &[u8],
    tokens: &'a [Token],
    depth: u32,
) -> Result<(Box<CondTree>, &'a [Token]), Fault<'a>>
    ensures { Gives search_in result (cond_of (prim text.now depth) tokens.now) }
{
    let (mut left, mut rest) = match conj(alloc, text, tokens, depth) {
        Ok(first) => first,
        Err(fault) => return Err(fault),
    };
    'parts: while let Some(after) = skip(rest, Mark::Or) {
        match conj(alloc, text, after, depth) {
            Ok((right, next)) => {
                rest = next;
                left = match or(alloc, left, right) {
                    Ok(made) => made,
                    Err(_) => return Err(Fault::Memory),
                };
            }
            Err(fault) => return Err(fault),
        }
    }
    Ok((left, rest))
}

fn condition<'a>(
    alloc: Global,
    text: &[u8],
    tokens: &'a [Token],
) -> Result<(Cond, &'a [Token]), Fault<'a>>
    ensures { Gives (λ c. c) result (condition text.now 32 tokens.now) }
{
    let (tree, rest) = cond(alloc, text, tokens, DEPTH)?;
    Ok((Cond::new(Box::into_inner(tree)), rest))
}

/// The condition after WHERE, or none where the first of the tokens of this text is another, and the tokens
/// after it. NOT binds before AND, and AND before OR, as in ISO/IEC 9075:1992; both group to the left, and at
/// most 32 of NOT and `(` stand on a path. It takes one box for each comparison, NOT, AND and OR, and no memory
/// where there is no WHERE.
#[tactic(auto, unfolding(crate::specs::Reading::where_part))]
pub fn where_part<'a>(
    alloc: Global,
    text: &[u8],
    tokens: &'a [Token],
) -> Result<(Option<Cond>, &'a [Token]), Fault<'a>>
    ensures value { Gives (λ c. c) result (where_part text.now tokens.now) }
    ensures without { begins (λ t. is Where t.lexeme) tokens.now ≡ false → IsOk result }
{
    match skip(tokens, Mark::Where) {
        Some(rest) => {
            let (found, rest) = condition(alloc, text, rest)?;
            Ok((Some(found), rest))
        }
        None => Ok((None, tokens)),
    }
}
