//! The readers of the language, each by a name.
use crate::spelled;
use ob_condition::{Fault, column, constant, number, where_part};
use ob_parse::{ParseErr, parse, skeleton};
use ob_sql::Stmt;
use ob_token::{Lexeme, Piece, Token, is_blank, split, tokens};
use std::alloc::{AllocError, Global};
use std::mem::size_of;

/// A text of more bytes is not read.
const LONGEST: usize = 65_536;

/// Writes what the reader of this name reads in the text.
pub fn read(alloc: Global, out: &mut String, reader: &str, text: &[u8]) -> Result<(), AllocError> {
    match reader {
        "piece" => piece(out, split(text)),
        "blank" => out.push_str(if is_blank(text) { "yes" } else { "no" }),
        "statement" | "outline" => whole(alloc, out, reader, text),
        _ => of_tokens(alloc, out, reader, text),
    }
}

// Where a text begins and ends.
fn piece(out: &mut String, piece: Piece) -> Result<(), AllocError> {
    match piece {
        Piece::More { from } => write!(out, "more {from}"),
        Piece::Stmt { from, to } => write!(out, "text {from} {to}"),
        Piece::Empty { to } => write!(out, "empty {to}"),
    }
}

// The statement that the text is, or what of it a watcher may know, or where it is refused. Of a front that is refused
// only the place is written.
fn whole(alloc: Global, out: &mut String, reader: &str, text: &[u8]) -> Result<(), AllocError> {
    if text.len() > LONGEST {
        return Err(AllocError);
    }
    match parse(alloc, text) {
        Ok(found) => match reader {
            "statement" => spelled::statement(out, &found),
            "outline" => outline(alloc, out, &found),
            _ => Ok(()),
        },
        Err(ParseErr::Syntax(at)) => {
            if reader != "front" {
                out.push_str("refused at")?;
            }
            write!(out, " {at}")
        }
        Err(ParseErr::NoMemory) => Err(AllocError),
    }
}

fn outline(alloc: Global, out: &mut String, stmt: &Stmt) -> Result<(), AllocError> {
    match skeleton(alloc, stmt) {
        Ok(found) => spelled::outline(out, &found),
        Err(_) => Err(AllocError),
    }
}

// What a reader of tokens reads in those of the text.
fn of_tokens(alloc: Global, out: &mut String, reader: &str, text: &[u8]) -> Result<(), AllocError> {
    if text.len() > LONGEST {
        return Err(AllocError);
    }
    let Ok(found) = tokens(alloc, text) else {
        return Err(AllocError);
    };
    match reader {
        "tokens" => listed(out, &found),
        "fronts" => fronts(alloc, out, text, found.as_slice()),
        _ => match part(alloc, out, reader, text, found.as_slice()) {
            Ok([]) => Ok(()),
            Ok(rest) => place(out, ", then ", rest),
            Err(Fault::Stuck(rest)) => place(out, "refused at ", rest),
            Err(Fault::Memory) => Err(AllocError),
        },
    }
}

// Where the first of the tokens begins.
fn place(out: &mut String, head: &str, tokens: &[Token]) -> Result<(), AllocError> {
    match tokens.first() {
        Some(token) => write!(out, "{head}{}", token.from),
        None => write!(out, "{head}the end"),
    }
}

// The tokens, and whether they take more memory than they need.
fn listed(out: &mut String, tokens: &Vec<Token>) -> Result<(), AllocError> {
    if tokens.is_empty() {
        return out.push_str("none");
    }
    let mut comma = "";
    for token in tokens.as_slice() {
        out.push_str(comma)?;
        spelled_token(out, token)?;
        comma = ", ";
    }
    if tokens.capacity() != tokens.len() || size_of::<Token>() > 64 {
        out.push_str(" with more memory")?;
    }
    Ok(())
}

// A token, in a word, and where it stands.
fn spelled_token(out: &mut String, token: &Token) -> Result<(), AllocError> {
    let sort = match &token.lexeme {
        Lexeme::Mark(_) => "mark",
        Lexeme::Name(_) => "name",
        Lexeme::Number(_) => "number",
        Lexeme::Text => "text",
        Lexeme::Bad => "bad",
    };
    write!(out, "{sort} {} {}", token.from, token.to)
}

// Where each front of the text is refused that ends with one of its tokens, but those that are read.
fn fronts(
    alloc: Global,
    out: &mut String,
    text: &[u8],
    tokens: &[Token],
) -> Result<(), AllocError> {
    out.push_str("refused at")?;
    for token in tokens {
        let front = text.get(..token.to as usize).unwrap_or(text);
        whole(alloc, out, "front", front)?;
    }
    Ok(())
}

// Writes the part of a statement that the tokens begin with, and gives those after it.
fn part<'a>(
    alloc: Global,
    out: &mut String,
    reader: &str,
    text: &[u8],
    tokens: &'a [Token],
) -> Result<&'a [Token], Fault<'a>> {
    let (done, rest) = match reader {
        "where" => {
            let (found, rest) = where_part(alloc, text, tokens)?;
            (spelled::condition_or_none(out, &found), rest)
        }
        "literal" => {
            let (found, rest) = constant(text, tokens)?;
            (spelled::literal(out, &found), rest)
        }
        "column" => {
            let (found, rest) = column(tokens)?;
            (spelled::column(out, &found), rest)
        }
        _ => {
            let (found, rest) = number(tokens)?;
            (write!(out, "{found}"), rest)
        }
    };
    match done {
        Ok(()) => Ok(rest),
        Err(_) => Err(Fault::Memory),
    }
}
