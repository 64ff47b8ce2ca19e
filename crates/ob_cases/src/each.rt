//! The cases that the lines `each ..` of a case make of it. What is wanted of them follows from the order of its lines:
//! what stands above an access has come before it.
use crate::case::{Case, LineErr, push_case};
use crate::cuts::{push_cut, push_parted};
use crate::file::Lines;
use crate::items::{Item, blocks_of, is_access, is_of_itself, items_of, region_in};
use crate::unwritten::push_unwritten;
use std::alloc::Global;

// What others do to a block before it is read.
#[derive(Clone, Copy)]
enum Change<'a> {
    // A bit of this byte is inverted.
    Flipped(&'a str),
    // It gets what it held before its last write.
    PutBack,
    // It gets what its neighbour holds.
    Exchanged,
}

/// The cases that the lines `each ..` make, in their order.
pub fn made(alloc: Global, of: &Lines) -> Result<Vec<Case>, LineErr> {
    let mut cases = Vec::new(alloc);
    let items = items_of(alloc, of.lines.as_slice())?;
    for item in &items {
        if item.head == "each" {
            let before = cases.len();
            push_made(alloc, of, items.as_slice(), item.rest, &mut cases)?;
            if cases.len() == before {
                return Err(LineErr::Form);
            }
        }
    }
    Ok(cases)
}

// Pushes the cases that a line makes.
fn push_made(
    alloc: Global,
    of: &Lines,
    items: &[Item],
    line: &str,
    cases: &mut Vec<Case>,
) -> Result<(), LineErr> {
    if let Some(words) = line.strip_prefix("statement parts ") {
        return push_parted(alloc, of, items, words, cases);
    }
    if let Some(byte) = line.strip_prefix("block flipped ") {
        return push_changed(alloc, of, items, Change::Flipped(byte), cases);
    }
    match line {
        "access fails" => push_failing(alloc, of, items, cases),
        "block put back" => push_changed(alloc, of, items, Change::PutBack, cases),
        "block exchanged" => push_changed(alloc, of, items, Change::Exchanged, cases),
        "answer fails" => push_unwritten(alloc, of, items, "writes", cases),
        "trace fails" => push_unwritten(alloc, of, items, "traces", cases),
        "byte last" => push_cut(alloc, of, items, cases),
        _ => Err(LineErr::Form),
    }
}

// Pushes the cases in which an access fails, of each that a line names.
fn push_failing(
    alloc: Global,
    of: &Lines,
    items: &[Item],
    cases: &mut Vec<Case>,
) -> Result<(), LineErr> {
    if of.is_kept() {
        return Err(LineErr::Form);
    }
    for at in items {
        if is_access(*at) {
            let case = failing(alloc, of.name(), items, *at)?;
            push_case(cases, case)?;
        }
    }
    Ok(())
}

// The case in which this access fails.
fn failing(alloc: Global, name: &str, items: &[Item], at: Item) -> Result<Case, LineErr> {
    let name = format!(in alloc; "{name}: access {} fails, {}", at.number, at.rest)?;
    let words = format!(in alloc; "--meddle {}:fail", at.number)?;
    let mut case = Case::new(alloc, name.as_str())?;
    if at.rest.starts_with("D ") {
        feed_whole(alloc, &mut case, items)?;
    } else if stops(items, at) {
        feed_to(alloc, &mut case, items, at)?;
        case.take_part(alloc, "<", "! store fault")?;
        case.take_part(alloc, "status", "3")?;
    } else {
        feed_to(alloc, &mut case, items, at)?;
        case.take_part(alloc, "<", "E15 store fault")?;
        feed_behind(alloc, &mut case, items, at)?;
        case.take_part(alloc, "status", "1")?;
    }
    case.take_part(alloc, "words", words.as_str())?;
    Ok(case)
}

// Whether the run ends where an access of this one's statement fails.
fn stops(items: &[Item], at: Item) -> bool {
    let mut found = false;
    for item in items {
        found = found
            || item.statement == at.statement && item.head == "else" && item.rest == "stops";
    }
    found
}

// Pushes the cases in which a block is changed before it is read, of each read that a line names.
fn push_changed(
    alloc: Global,
    of: &Lines,
    items: &[Item],
    change: Change,
    cases: &mut Vec<Case>,
) -> Result<(), LineErr> {
    for at in items {
        if let Some(block) = region_in(*at, "R ") {
            if let Some(text) = change_text(alloc, items, change, *at, block)? {
                let case = changed(alloc, of, items, *at, text.as_str())?;
                push_case(cases, case)?;
            }
        }
    }
    Ok(())
}

// The case in which others change, as this text says, what this access reads.
fn changed(
    alloc: Global,
    of: &Lines,
    items: &[Item],
    at: Item,
    text: &str,
) -> Result<Case, LineErr> {
    let block = at.rest.strip_prefix("R ").unwrap_or(at.rest);
    let name = format!(in alloc; "{}: {text}, before {}", of.name(), at.rest)?;
    let told = format!(in alloc; "! tampered {block}")?;
    let mut case = Case::new(alloc, name.as_str())?;
    feed_to(alloc, &mut case, items, at)?;
    case.take_part(alloc, "<", told.as_str())?;
    case.take_part(alloc, "status", "4")?;
    if of.is_kept() {
        case.take_part(alloc, "changes", text)?;
    } else {
        let words = format!(in alloc; "--meddle {text}")?;
        case.take_part(alloc, "words", words.as_str())?;
    }
    Ok(case)
}

// A change of the block of a region and a place, as `--meddle` spells it: just before the access, or before its run
// where the region rests from an earlier one. None where the block has no neighbour to be exchanged with.
fn change_text(
    alloc: Global,
    items: &[Item],
    change: Change,
    at: Item,
    block: (&str, &str),
) -> Result<Option<String>, LineErr> {
    let (region, place) = block;
    let number = if is_opened(items, at, region) {
        1
    } else {
        at.number
    };
    let text = match change {
        Change::Flipped(byte) => format!(in alloc; "{number}:flip:{region}.{place}.{byte}")?,
        Change::PutBack => format!(in alloc; "{number}:old:{region}.{place}")?,
        Change::Exchanged => {
            let blocks = blocks_of(items, region);
            if blocks <= 1 {
                return Ok(None);
            }
            let behind = place.parse::<u64>().unwrap_or(0).saturating_add(1);
            let other = if behind < blocks { behind } else { 0 };
            format!(in alloc; "{number}:copy:{region}.{other}:{region}.{place}")?
        }
    };
    Ok(Some(text))
}

// Whether a region was opened in the run of this access, before it.
fn is_opened(items: &[Item], at: Item, region: &str) -> bool {
    let mut opened = false;
    for item in items {
        if item.run == at.run && item.place < at.place {
            if let Some((of, _)) = region_in(*item, "O ") {
                opened = opened || of == region;
            }
        }
    }
    opened
}

// Feeds a case with all lines except those that are for made cases alone.
fn feed_whole(alloc: Global, case: &mut Case, items: &[Item]) -> Result<(), LineErr> {
    for item in items {
        match item.head {
            head if is_of_itself(head) => {}
            _ => case.take_part(alloc, item.head, item.rest)?,
        }
    }
    Ok(())
}

// Feeds a case with the runs before that of an access, and of its run with what is typed and what has come up to it.
fn feed_to(alloc: Global, case: &mut Case, items: &[Item], at: Item) -> Result<(), LineErr> {
    for item in items {
        let is_past = item.place > at.place;
        let is_last = item.run == at.run;
        match item.head {
            _ if item.run > at.run => {}
            head if is_of_itself(head) => {}
            "<" | "@" | "mark" if is_past => {}
            "status" if is_last => {}
            _ => case.take_part(alloc, item.head, item.rest)?,
        }
    }
    Ok(())
}

// Feeds a case with what comes after the statement of an access that failed: what its lines `else` say, or else what is
// answered after it, and as many accesses as are asked there.
fn feed_behind(alloc: Global, case: &mut Case, items: &[Item], at: Item) -> Result<(), LineErr> {
    let (mut says, mut asks) = (false, false);
    let mut asked: u64 = 0;
    for item in items {
        if item.head == "else" && item.statement == at.statement {
            let (head, rest) = item.rest.split_once(' ').unwrap_or((item.rest, ""));
            match head {
                "<" => says = true,
                "@" => asks = true,
                _ => return Err(LineErr::Form),
            }
            case.take_part(alloc, head, rest)?;
        }
        if item.statement <= at.statement {
            asked = item.number;
        }
    }
    for item in items {
        if item.head == "<" && item.statement > at.statement && !says {
            case.take_part(alloc, "<", item.rest)?;
        }
    }
    if !asks {
        let all = items.last().map_or(asked, |item| item.number);
        let rest = format!(in alloc; "{}", all.saturating_sub(asked))?;
        case.take_part(alloc, "@", rest.as_str())?;
    }
    Ok(())
}
