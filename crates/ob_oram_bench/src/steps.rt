//! What a line asks of an index, step by step.
use crate::fault::Fault;
use crate::number;
use crate::sessions::Ask;
use ob_meddle::{Act, Meddle, Spot};
use std::alloc::Global;
use std::str::SplitAsciiWhitespace;

/// An access: what is asked of a key, the draw, and whether all accesses are shown.
#[derive(Clone, Copy)]
pub(crate) struct Step {
    pub(crate) what: Ask,
    pub(crate) key: i64,
    pub(crate) draw: u64,
    pub(crate) all: bool,
}

/// An index: the change that others make, if there is one, the slots of its stash, a draw for each key, and whether the
/// accesses that made it are shown.
#[derive(Drop)]
pub(crate) struct Head {
    pub(crate) change: Option<Meddle>,
    pub(crate) slots: u32,
    pub(crate) draws: Vec<u64>,
    pub(crate) all: bool,
}

fn value(words: &mut SplitAsciiWhitespace<'_>) -> Option<u8> {
    u8::try_from(number(words)?).ok()
}

fn ask_of(word: &str, words: &mut SplitAsciiWhitespace<'_>) -> Option<Ask> {
    match word {
        "get" => Some(Ask::Get),
        "put" => Some(Ask::Insert(value(words)?)),
        "set" => Some(Ask::Change(value(words)?)),
        "take" => Some(Ask::Remove),
        _ => None,
    }
}

fn step_of(text: &str) -> Option<Step> {
    let mut words = text.split_ascii_whitespace();
    let word = words.next()?;
    let key = words.next()?.parse::<i64>().ok()?;
    let what = ask_of(word, &mut words)?;
    let draw = u64::from(number(&mut words)?);
    let all = words.next() == Some("all");
    Some(Step {
        what,
        key,
        draw,
        all,
    })
}

/// The steps that a text spells, if it does any.
pub(crate) fn steps_of(alloc: Global, text: &str) -> Result<Vec<Step>, Fault> {
    let mut steps = Vec::new(alloc);
    if text.is_empty() {
        return Ok(steps);
    }
    for part in text.split("; ") {
        let Some(step) = step_of(part) else {
            return Err(Fault::Usage);
        };
        if steps.push(step).is_err() {
            return Err(Fault::NoMemory);
        }
    }
    Ok(steps)
}

// A region and a place.
fn spot_of(words: &mut SplitAsciiWhitespace<'_>) -> Option<Spot> {
    let region = u64::from(number(words)?);
    let place = number(words)?;
    Some(Spot { region, place })
}

// What a word says that others do.
fn act_of(word: &str, words: &mut SplitAsciiWhitespace<'_>) -> Option<Act> {
    match word {
        "fail" => Some(Act::Fail),
        "old" => {
            let Spot { region, place } = spot_of(words)?;
            Some(Act::Older { region, place })
        }
        "flip" => {
            let Spot { region, place } = spot_of(words)?;
            let byte = number(words)?;
            Some(Act::Flip {
                region,
                place,
                byte,
            })
        }
        "copy" => {
            let from = spot_of(words)?;
            let to = spot_of(words)?;
            Some(Act::Copy { from, to })
        }
        _ => None,
    }
}

// The change before an access, of which the first word is what others do; `-` is none.
fn change_of(words: &mut SplitAsciiWhitespace<'_>) -> Option<Option<Meddle>> {
    let word = words.next()?;
    if word == "-" {
        return Some(None);
    }
    let before = u64::from(number(words)?);
    let act = act_of(word, words)?;
    Some(Some(Meddle { before, act }))
}

/// The index that words spell.
pub(crate) fn head_of(alloc: Global, text: &str) -> Result<Head, Fault> {
    let (text, all) = match text.strip_suffix(" all") {
        Some(text) => (text, true),
        None => (text, false),
    };
    let mut words = text.split_ascii_whitespace();
    let Some(change) = change_of(&mut words) else {
        return Err(Fault::Usage);
    };
    let Some(slots) = number(&mut words) else {
        return Err(Fault::Usage);
    };
    let mut draws = Vec::new(alloc);
    for word in words {
        let Ok(draw) = word.parse::<u32>() else {
            return Err(Fault::Usage);
        };
        if draws.push(u64::from(draw)).is_err() {
            return Err(Fault::NoMemory);
        }
    }
    Ok(Head {
        change,
        slots,
        draws,
        all,
    })
}
