//! The cases whose input ends early, and those of a session that two runs serve.
use crate::case::{Case, LineErr, SECRET, push_case};
use crate::file::Lines;
use crate::items::{Item, is_typed, statements_in};
use crate::texts::texts_in;
use std::alloc::Global;

/// The salts of two runs, where they save their tables.
const SALTS: &str = "01010101010101010101010101010101, 02020202020202020202020202020202";

/// Pushes the cases whose input ends after each of its bytes, and before the first one.
pub fn push_cut(
    alloc: Global,
    of: &Lines,
    items: &[Item],
    cases: &mut Vec<Case>,
) -> Result<(), LineErr> {
    let length = of.input().len();
    if of.is_kept() || texts_in(of.input(), length).whole != statements_in(items) {
        return Err(LineErr::Form);
    }
    for size in 0..length {
        let case = cut(alloc, of, items, size)?;
        push_case(cases, case)?;
    }
    Ok(())
}

// The case whose input has so many bytes.
fn cut(alloc: Global, of: &Lines, items: &[Item], size: usize) -> Result<Case, LineErr> {
    let name = format!(in alloc; "{}: {size} bytes", of.name())?;
    let first = format!(in alloc; "{size}")?;
    let mut case = Case::new(alloc, name.as_str())?;
    for item in items {
        match item.head {
            "words" | "key" | "unordered" | ">" | "times" => {
                case.take_part(alloc, item.head, item.rest)?;
            }
            _ => {}
        }
    }
    case.take_part(alloc, "cut", first.as_str())?;
    let texts = texts_in(of.input(), size);
    if size < SECRET.len() {
        case.take_part(alloc, "<", "! key")?;
        case.take_part(alloc, "status", "2")?;
    } else if texts.begun {
        case.take_part(alloc, "status", "1")?;
    } else {
        feed_answers(alloc, &mut case, items, 0, texts.whole)?;
    }
    Ok(case)
}

/// Pushes the cases in which two runs over one store serve a session, by these words: the first one its statements up to
/// each in turn, or none, and the second one the others.
pub fn push_parted(
    alloc: Global,
    of: &Lines,
    items: &[Item],
    words: &str,
    cases: &mut Vec<Case>,
) -> Result<(), LineErr> {
    if of.is_kept() {
        return Err(LineErr::Form);
    }
    let all = statements_in(items);
    for count in 0..=all {
        let name = format!(in alloc; "{}: {words}, the first {count} alone", of.name())?;
        let mut case = Case::new(alloc, name.as_str())?;
        case.take_part(alloc, "keeper", "fresh")?;
        case.take_part(alloc, "salts", SALTS)?;
        feed_run(alloc, &mut case, items, words, 0, count)?;
        case.take_part(alloc, "then", "")?;
        feed_run(alloc, &mut case, items, words, count, all)?;
        push_case(cases, case)?;
    }
    Ok(())
}

// Feeds a case with a run of the statements after the first `from` ones up to this one.
fn feed_run(
    alloc: Global,
    case: &mut Case,
    items: &[Item],
    words: &str,
    from: u64,
    to: u64,
) -> Result<(), LineErr> {
    case.take_part(alloc, "words", words)?;
    for item in items {
        let is_within = from < item.statement && item.statement <= to;
        if item.head == "key" || item.head == "unordered" || is_typed(item.head) && is_within {
            case.take_part(alloc, item.head, item.rest)?;
        }
    }
    feed_answers(alloc, case, items, from, to)
}

// Feeds a case with what these statements are answered, and with the status that they leave.
fn feed_answers(
    alloc: Global,
    case: &mut Case,
    items: &[Item],
    from: u64,
    to: u64,
) -> Result<(), LineErr> {
    let mut refused = false;
    case.take_part(alloc, "<", "")?;
    for item in items {
        if item.head == "<" && from < item.statement && item.statement <= to {
            case.take_part(alloc, "<", item.rest)?;
            refused = refused || item.rest.starts_with('E');
        }
    }
    case.take_part(alloc, "status", if refused { "1" } else { "0" })
}
