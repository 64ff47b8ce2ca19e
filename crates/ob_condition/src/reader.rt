//! Single tokens are read.
ghost use Rattle.std.specs.Prelude.{◌≡◌, true, is_some, IfErr};
ghost use Rattle.ob_token.specs.Bytes.{unquoted};
ghost use Rattle.ob_grammar.specs.Reader.{token};
ghost use Rattle.ob_condition.specs.Marks.{held, key, literal_of, name_of, number_of, order_mark, order_of, short_text, sign_mark, sign_of, signed, text_at};
ghost use Rattle.ob_condition.specs.Reading.{begins, Begun, Gives, IsStuck, Skips, Takes};

use arrayvec::ArrayVec;
use ob_base::{ComparisonOperator, Name, Text};
use ob_sql::Literal;
use ob_token::{Lexeme, Mark, Token, is_printable_byte};

/// Why nothing is read.
#[derive(Drop)]
pub enum Fault<'a> {
    /// Want of memory.
    Memory,
    /// The tokens before these begin a word of the grammar, and with the first of these, or with the end where
    /// there is none, no word goes on.
    Stuck(&'a [Token]),
}

/// The tokens after the first one, where that is this keyword or sign.
pub fn skip(tokens: &[Token], mark: Mark) -> Option<&[Token]>
    ensures { Skips (key mark) tokens.now result }
{
    let (first, rest) = tokens.split_first()?;
    match &first.lexeme {
        Lexeme::Mark(found) => { if mark == *found { Some(rest) } else { None } }
        _ => None,
    }
}

/// The tokens after the first one, which has to be this keyword or sign. It takes no memory.
pub fn expect(tokens: &[Token], mark: Mark) -> Result<&[Token], Fault<'_>>
    ensures value { Takes result (token (key mark) tokens.now) }
    ensures no_memory { IfErr result IsStuck }
{
    match skip(tokens, mark) {
        Some(rest) => Ok(rest),
        None => Err(Fault::Stuck(tokens)),
    }
}

/// The name that the first token is, in lower case, and the tokens after it. It takes no memory.
pub fn name(tokens: &[Token]) -> Result<(Name, &[Token]), Fault<'_>>
    ensures value { Gives (λ n. n) result (token name_of tokens.now) }
    ensures no_memory { IfErr result IsStuck }
{
    let Some((first, rest)) = tokens.split_first() else {
        return Err(Fault::Stuck(tokens));
    };
    match &first.lexeme {
        Lexeme::Name(name) => Ok((name.copied(), rest)),
        _ => Err(Fault::Stuck(tokens)),
    }
}

/// The number that the first token is, or the largest one of 64 bits where it is greater, and the tokens behind
/// it. It takes no memory.
pub fn number(tokens: &[Token]) -> Result<(u64, &[Token]), Fault<'_>>
    ensures value { Gives (λ n. n) result (token number_of tokens.now) }
    ensures no_memory { IfErr result IsStuck }
{
    let Some((first, rest)) = tokens.split_first() else {
        return Err(Fault::Stuck(tokens));
    };
    match &first.lexeme {
        Lexeme::Number(number) => Ok((*number, rest)),
        _ => Err(Fault::Stuck(tokens)),
    }
}

fn order_of_mark(mark: Mark) -> Option<ComparisonOperator>
    ensures { result ≡ order_mark mark }
{
    match mark {
        Mark::Equal => Some(ComparisonOperator::Equal),
        Mark::NotEqual => Some(ComparisonOperator::NotEqual),
        Mark::Less => Some(ComparisonOperator::Less),
        Mark::LessOrEqual => Some(ComparisonOperator::LessOrEqual),
        Mark::Greater => Some(ComparisonOperator::Greater),
        Mark::GreaterOrEqual => Some(ComparisonOperator::GreaterOrEqual),
        _ => None,
    }
}

pub(crate) fn order(tokens: &[Token]) -> Result<(ComparisonOperator, &[Token]), Fault<'_>>
    ensures value { Gives (λ o. o) result (token order_of tokens.now) }
    ensures no_memory { IfErr result IsStuck }
{
    let Some((first, rest)) = tokens.split_first() else {
        return Err(Fault::Stuck(tokens));
    };
    let Lexeme::Mark(mark) = &first.lexeme else {
        return Err(Fault::Stuck(tokens));
    };
    match order_of_mark(*mark) {
        Some(order) => Ok((order, rest)),
        None => Err(Fault::Stuck(tokens)),
    }
}

fn sign_of_mark(mark: Mark) -> Option<bool>
    ensures { result ≡ sign_mark mark }
{
    match mark {
        Mark::Plus => Some(false),
        Mark::Minus => Some(true),
        _ => None,
    }
}

pub(crate) fn sign(tokens: &[Token]) -> Option<(bool, &[Token])>
    ensures { Begun sign_of tokens.now result }
{
    let Some((first, rest)) = tokens.split_first() else {
        return None;
    };
    let Lexeme::Mark(mark) = &first.lexeme else {
        return None;
    };
    match sign_of_mark(*mark) {
        Some(minus) => Some((minus, rest)),
        None => None,
    }
}

fn held_or_not(value: i128) -> Literal
    ensures { result ≡ held value }
{
    match i64::try_from(value) {
        Ok(value) => Literal::Int(value),
        Err(_) => Literal::OutOfRange,
    }
}

pub(crate) fn with_sign(minus: bool, number: u64) -> Literal
    ensures { result ≡ signed minus number }
{
    if minus {
        held_or_not(0 - number as i128)
    } else {
        held_or_not(number as i128)
    }
}

// The text after an opening quote.
fn quoted(bytes: &[u8]) -> Literal
    ensures { result ≡ short_text (unquoted true bytes.now) }
{
    let mut text: ArrayVec<u8, 255> = ArrayVec::new();
    let mut open = true;
    for b in bytes {
        if *b == b'\'' {
            if open {
                open = false;
                continue;
            }
        } else if !open || !is_printable_byte(*b) {
            return Literal::Text(Text::from_bytes(text.as_slice()));
        }
        if text.len() == 255 {
            return Literal::TooLong;
        }
        text.push(*b);
        open = true;
    }
    Literal::Text(Text::from_bytes(text.as_slice()))
}

#[tactic(auto, using(crate::proofs::Quoted::nothing_behind))]
fn text_literal(text: &[u8], quote: u32) -> Literal
    ensures { result ≡ text_at text.now quote }
{
    let place = quote as usize;
    if place < text.len() {
        quoted(&text[place + 1..])
    } else {
        quoted(&[])
    }
}

pub(crate) fn plain<'a>(
    text: &[u8],
    tokens: &'a [Token],
) -> Result<(Literal, &'a [Token]), Fault<'a>>
    ensures value { Gives (λ l. l) result (token (literal_of text.now) tokens.now) }
    ensures no_memory { IfErr result IsStuck }
{
    let Some((first, rest)) = tokens.split_first() else {
        return Err(Fault::Stuck(tokens));
    };
    match &first.lexeme {
        Lexeme::Number(number) => Ok((with_sign(false, *number), rest)),
        Lexeme::Text => Ok((text_literal(text, first.from), rest)),
        _ => Err(Fault::Stuck(tokens)),
    }
}

pub(crate) fn begins_name(tokens: &[Token]) -> bool
    ensures { result ≡ begins (λ t. is_some (name_of t)) tokens.now }
{
    match tokens.first() {
        Some(first) => match &first.lexeme {
            Lexeme::Name(_) => true,
            _ => false,
        },
        None => false,
    }
}
