//! A statement, or a text that is nearly one.
use crate::changes::{delete, insert, update};
use crate::creates::create;
use crate::draws::Draws;
use crate::pen::Pen;
use crate::selects::{rows, totals};
use crate::settings::Kind;
use crate::tables::{Table, Tables};
use std::alloc::{AllocError, Global};

/// What a text does, as far as its answer and the tables show it.
#[derive(Drop)]
pub enum What {
    Create(Table),
    Insert,
    Update,
    Delete,
    Drop(&'static str),
    Select,
    /// Nobody knows, unless it is refused.
    Unknown,
}

// The form of a text.
#[derive(Clone, Copy)]
enum Form {
    Create,
    Insert,
    Update,
    Delete,
    Drop,
    Select,
    Join,
    Totals,
    Groups,
    Changed,
}

// The form of the n-th text of a session.
fn form_of(draws: &mut Draws, n: usize) -> Form {
    if matches!(draws.kind, Kind::Batched) && n > 1 && draws.chance(60) {
        return Form::Insert;
    }
    if n == 0 || n == 1 && draws.chance(60) {
        return Form::Create;
    }
    if n < 9 {
        return Form::Insert;
    }
    match draws.below(22) {
        0..=3 => Form::Insert,
        4..=8 => Form::Select,
        9..=11 => Form::Join,
        12 | 13 => Form::Totals,
        14 | 15 => Form::Groups,
        16 | 17 => Form::Update,
        18 => Form::Delete,
        19 => Form::Drop,
        20 => Form::Create,
        _ => Form::Changed,
    }
}

// Writes a statement of this form, and gives what it does.
fn put_statement(
    alloc: Global,
    draws: &mut Draws,
    tables: &Tables,
    form: Form,
    text: &mut Pen,
    head: &mut Pen,
) -> Result<What, AllocError> {
    match form {
        Form::Create => match create(alloc, draws, text) {
            Ok(table) => return Ok(What::Create(table)),
            Err(error) => return Err(error),
        },
        Form::Insert | Form::Changed => {
            insert(draws, tables, text);
            return Ok(What::Insert);
        }
        Form::Update if update(draws, tables, text) => return Ok(What::Update),
        Form::Update | Form::Delete => {
            delete(draws, tables, text);
            return Ok(What::Delete);
        }
        Form::Drop => {
            let name = tables.drawn(draws);
            draws.keyword(text, "DROP TABLE");
            text.put(" ");
            text.put(name);
            text.put(";");
            return Ok(What::Drop(name));
        }
        Form::Select => rows(draws, tables, false, text, head),
        Form::Join => rows(draws, tables, true, text, head),
        Form::Totals => totals(draws, tables, false, text, head),
        Form::Groups => totals(draws, tables, true, text, head),
    }
    Ok(What::Select)
}

// Writes a statement with a comment after its first word, with a byte less or with a token more. Gives whether it is one
// still, since it is a comment.
fn put_changed(draws: &mut Draws, whole: &[u8], text: &mut Pen) -> bool {
    let is_comment = draws.chance(30);
    let is_less = !is_comment && draws.chance(50);
    let drawn = draws.below(whole.len());
    // (the first word of each statement that is changed has six letters)
    let at = if is_comment { 6 } else { drawn };
    let rest = whole.get(at..).unwrap_or(&[]);
    text.write(whole.get(..at).unwrap_or(&[]));
    if is_less {
        text.write(rest.get(1..).unwrap_or(&[]));
        return false;
    }
    text.put(if is_comment {
        " -- a comment; 'quoted\n"
    } else {
        draws.one(&["%", ")", "FROM ", "'", ", "])
    });
    text.write(rest);
    is_comment
}

/// Writes the n-th text of a session, and its header, where it has one.
pub fn put_text(
    alloc: Global,
    draws: &mut Draws,
    tables: &Tables,
    n: usize,
    text: &mut Pen,
    head: &mut Pen,
) -> Result<What, AllocError> {
    let form = form_of(draws, n);
    if !matches!(form, Form::Changed) {
        return put_statement(alloc, draws, tables, form, text, head);
    }
    let form = match draws.below(5) {
        0 => Form::Select,
        1 => Form::Insert,
        2 => Form::Update,
        3 => Form::Create,
        _ => Form::Groups,
    };
    let mut whole = Pen::new(alloc);
    let what = put_statement(alloc, draws, tables, form, &mut whole, head);
    if put_changed(draws, whole.bytes(), text) || what.is_err() {
        what
    } else {
        Ok(What::Unknown)
    }
}
