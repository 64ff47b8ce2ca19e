//! A text is read as a statement.
ghost use Rattle.std.specs.Prelude.{◌≡◌, ◌<◌, ◌↔◌, ℕ, List, length, IfOk, IfErr};
ghost use Rattle.ob_sql.specs.declared.stmt.Stmt.{Stmt as StmtData};
ghost use Rattle.ob_condition.specs.Reading.{Gives};
ghost use Rattle.ob_parse.specs.Refusal.{IsRefused, last_end, offset};
ghost use Rattle.ob_parse.specs.StatementReading.{body, deleting, dropping, inserting, statement, updating};
ghost use Rattle.ob_parse.specs.Selects.{ThreeForms};
ghost use Rattle.ob_parse.specs.Statements.{Selection, Statement};
ghost use Rattle.ob_token.specs.declared.token.Token.{Token as TokenData};
ghost use Rattle.ob_token.specs.Tokens.{tokens_of};

use crate::change::{create, delete, drop_table, insert, update};
use crate::select::selection;
use ob_condition::{Fault, expect, skip};
use ob_sql::Stmt;
use ob_token::{Mark, Token, tokens};
use std::alloc::Global;
use thiserror::Error;

/// Why a text is no statement.
#[derive(Clone, Copy, Debug, PartialEq, Eq, Error)]
pub enum ParseErr {
    /// The offset of the first token that goes on with no statement, or the end of the last one.
    #[error("the text is no statement from byte {0}")]
    Syntax(u32),
    #[error("out of memory")]
    NoMemory,
}

#[tactic(auto, unfolding(crate::specs::StatementReading::dropping))]
fn dropping<'a>(
    alloc: Global,
    text: &[u8],
    tokens: &'a [Token],
) -> Result<(Stmt, &'a [Token]), Fault<'a>>
    ensures { Gives (λ s. s) result (dropping text.now tokens.now) }
{
    match skip(tokens, Mark::Drop) {
        Some(rest) => drop_table(rest),
        None => {
            let rest = expect(tokens, Mark::Select)?;
            selection(alloc, text, rest)
        }
    }
}

#[tactic(auto, unfolding(crate::specs::StatementReading::deleting))]
fn deleting<'a>(
    alloc: Global,
    text: &[u8],
    tokens: &'a [Token],
) -> Result<(Stmt, &'a [Token]), Fault<'a>>
    ensures { Gives (λ s. s) result (deleting text.now tokens.now) }
{
    match skip(tokens, Mark::Delete) {
        Some(rest) => delete(alloc, text, rest),
        None => dropping(alloc, text, tokens),
    }
}

#[tactic(auto, unfolding(crate::specs::StatementReading::updating))]
fn updating<'a>(
    alloc: Global,
    text: &[u8],
    tokens: &'a [Token],
) -> Result<(Stmt, &'a [Token]), Fault<'a>>
    ensures { Gives (λ s. s) result (updating text.now tokens.now) }
{
    match skip(tokens, Mark::Update) {
        Some(rest) => update(alloc, text, rest),
        None => deleting(alloc, text, tokens),
    }
}

#[tactic(auto, unfolding(crate::specs::StatementReading::inserting))]
fn inserting<'a>(
    alloc: Global,
    text: &[u8],
    tokens: &'a [Token],
) -> Result<(Stmt, &'a [Token]), Fault<'a>>
    ensures { Gives (λ s. s) result (inserting text.now tokens.now) }
{
    match skip(tokens, Mark::Insert) {
        Some(rest) => insert(alloc, text, rest),
        None => updating(alloc, text, tokens),
    }
}

#[tactic(auto, unfolding(crate::specs::StatementReading::body))]
fn body<'a>(
    alloc: Global,
    text: &[u8],
    tokens: &'a [Token],
) -> Result<(Stmt, &'a [Token]), Fault<'a>>
    ensures { Gives (λ s. s) result (body text.now tokens.now) }
{
    match skip(tokens, Mark::Create) {
        Some(rest) => create(alloc, text, rest),
        None => inserting(alloc, text, tokens),
    }
}

#[tactic(auto, unfolding(crate::specs::StatementReading::statement))]
fn statement<'a>(
    alloc: Global,
    text: &[u8],
    tokens: &'a [Token],
) -> Result<(Stmt, &'a [Token]), Fault<'a>>
    ensures { Gives (λ s. s) result (statement text.now tokens.now) }
{
    let (found, rest) = body(alloc, text, tokens)?;
    let rest = expect(rest, Mark::Semicolon)?;
    Ok((found, rest))
}

fn end_of(tokens: &[Token]) -> u32
    ensures { result ≡ last_end 0 tokens.now }
{
    let mut end = 0;
    for token in tokens {
        end = token.to;
    }
    end
}

fn offset_of(tokens: &[Token], left: &[Token]) -> u32
    ensures { result ≡ offset tokens.now left.now }
{
    match left.first() {
        Some(token) => token.from,
        None => end_of(tokens),
    }
}

// The statement that the tokens spell, or why there is none.
fn parse_tokens(alloc: Global, text: &[u8], tokens: &[Token]) -> Result<Stmt, ParseErr>
    ensures found { IfOk result (λ s. Statement text.now s tokens.now) }
    ensures refused { IfErr result (IsRefused text.now tokens.now) }
{
    match statement(alloc, text, tokens) {
        Ok((found, rest)) => {
            if rest.is_empty() {
                Ok(found)
            } else {
                Err(ParseErr::Syntax(offset_of(tokens, rest)))
            }
        }
        Err(Fault::Memory) => Err(ParseErr::NoMemory),
        Err(Fault::Stuck(rest)) => Err(ParseErr::Syntax(offset_of(tokens, rest))),
    }
}

/// The statement that a text of less than 2^32 bytes spells. A refusal has the offset of the first token that
/// goes on with no statement, or of the bytes that are no token; where no token follows, it is the end of the
/// last one, or 0 where there is none.
pub fn parse(alloc: Global, text: &[u8]) -> Result<Stmt, ParseErr>
    requires { length text.now < 4294967296 }
    ensures found { IfOk result (λ s. Statement text.now s (tokens_of text.now)) }
    ensures refused { IfErr result (IsRefused text.now (tokens_of text.now)) }
{
    match tokens(alloc, text) {
        Ok(found) => parse_tokens(alloc, text, found.as_slice()),
        Err(_) => Err(ParseErr::NoMemory),
    }
}

/// SELECT, of which the parser reads once what its forms have in common, is the three forms that it is written in.
pub fn three_forms()
    ensures { (text : List ℕ) (s : StmtData) (tokens : List TokenData) →
        Selection text s tokens ↔ ThreeForms text s tokens }
{}

/// A text spells at most one statement, so that the one which `parse` finds is the one.
pub fn one_statement()
    ensures { (text : List ℕ) (s t : StmtData) →
        Statement text s (tokens_of text) → Statement text t (tokens_of text) → s ≡ t }
{}
