//! Lists of parts, with commas between them.
ghost use Rattle.std.specs.Prelude.{◌≤◌, length, IfOk};
ghost use Rattle.ob_grammar.specs.Reader.{listed, token};
ghost use Rattle.ob_token.specs.declared.token.Mark.TheVariants.{Comma};
ghost use Rattle.ob_condition.specs.Marks.{key, name_of};
ghost use Rattle.ob_condition.specs.Reading.{Gives, constant};

use crate::change::{assignment, definition};
use crate::select::item;
use ob_base::{Items, Name, NewColumn};
use ob_condition::{Fault, constant, name, skip};
use ob_sql::{Listed, Literal, Set};
use ob_token::{Mark, Token};
use std::alloc::Global;

/// What stands in a list.
pub(crate) trait Part {
    ghost use Rattle.std.specs.Prelude.{ℕ, List};
    ghost use Rattle.ob_token.specs.declared.token.Token.{Token as TokenData};
    ghost use Rattle.ob_condition.specs.Reading.{Read};

    // What reading one of the tokens of a text gives.
    ghost reading: { List ℕ → List TokenData → Read Self };

    fn read<'a>(text: &[u8], tokens: &'a [Token]) -> Result<(Self, &'a [Token]), Fault<'a>>
        ensures value { Gives (λ x. x) result (reading text.now tokens.now) }
        ensures within { IfOk result (λ p. length p.1.now ≤ length tokens.now) };
}

impl Part for Name {
    ghost use Rattle.ob_grammar.specs.Reader.{token};
    ghost use Rattle.ob_condition.specs.Marks.{name_of};

    ghost reading = { λ text. token name_of };

    fn read<'a>(_: &[u8], tokens: &'a [Token]) -> Result<(Name, &'a [Token]), Fault<'a>> {
        name(tokens)
    }
}

impl Part for Literal {
    ghost use Rattle.ob_condition.specs.Reading.{constant};

    ghost reading = { λ text. constant text };

    fn read<'a>(text: &[u8], tokens: &'a [Token]) -> Result<(Literal, &'a [Token]), Fault<'a>> {
        constant(text, tokens)
    }
}

impl Part for Set {
    ghost use Rattle.ob_parse.specs.StatementReading.{assignment};

    ghost reading = { λ text. assignment text };

    fn read<'a>(text: &[u8], tokens: &'a [Token]) -> Result<(Set, &'a [Token]), Fault<'a>> {
        assignment(text, tokens)
    }
}

impl Part for NewColumn {
    ghost use Rattle.ob_parse.specs.StatementReading.{definition};

    ghost reading = { λ text. definition };

    fn read<'a>(_: &[u8], tokens: &'a [Token]) -> Result<(NewColumn, &'a [Token]), Fault<'a>> {
        definition(tokens)
    }
}

impl Part for Listed {
    ghost use Rattle.ob_parse.specs.StatementReading.{item};

    ghost reading = { λ text. item };

    fn read<'a>(_: &[u8], tokens: &'a [Token]) -> Result<(Listed, &'a [Token]), Fault<'a>> {
        item(tokens)
    }
}

pub(crate) fn list<'a, T: Part + Drop>(
    alloc: Global,
    text: &[u8],
    tokens: &'a [Token],
) -> Result<(Items<T>, &'a [Token]), Fault<'a>>
    ensures { Gives (λ l. l) result (listed (key Comma) (T.reading text.now) tokens.now) }
{
    let (first, mut rest) = match T::read(text, tokens) {
        Ok(first) => first,
        Err(fault) => return Err(fault),
    };
    let mut found = Vec::new(alloc);
    match found.push(first) {
        Ok(()) => {}
        Err(_) => return Err(Fault::Memory),
    }
    'parts: while let Some(after) = skip(rest, Mark::Comma) {
        match T::read(text, after) {
            Ok((part, next)) => {
                rest = next;
                match found.push(part) {
                    Ok(()) => {}
                    Err(_) => return Err(Fault::Memory),
                }
            }
            Err(fault) => return Err(fault),
        }
    }
    Ok((Items::from_vec(found), rest))
}
