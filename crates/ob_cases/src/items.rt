//! The lines of a case in their order, each with where it stands.
use crate::case::LineErr;
use std::alloc::Global;

/// A line of a case, by its first word and what follows. Of a line `@` each access stands for itself.
#[derive(Clone, Copy)]
pub struct Item<'a> {
    pub head: &'a str,
    pub rest: &'a str,
    /// Its place among all.
    pub place: u64,
    /// The number of its run, from 0.
    pub run: u64,
    /// How many statements are typed up to it. Lines `>` one after the other are one statement.
    pub statement: u64,
    /// How many accesses its run asks up to it, with it.
    pub number: u64,
}

/// The items of some lines.
pub fn items_of<'a>(alloc: Global, lines: &[&'a str]) -> Result<Vec<Item<'a>>, LineErr> {
    let mut items = Vec::new(alloc);
    let mut last = Item {
        head: "case",
        rest: "",
        place: 0,
        run: 0,
        statement: 0,
        number: 0,
    };
    for line in lines {
        let (head, rest) = line.split_once(' ').unwrap_or((*line, ""));
        if head == "@" {
            for access in rest.split(',') {
                last = next(last, head, access.trim());
                push_item(&mut items, last)?;
            }
        } else {
            last = next(last, head, rest);
            push_item(&mut items, last)?;
        }
    }
    Ok(items)
}

// The item after another one.
fn next<'a>(last: Item<'a>, head: &'a str, rest: &'a str) -> Item<'a> {
    let begins_run = head == "then";
    let begins_statement = is_typed(head) && !is_typed(last.head);
    let asked = if begins_run { 0 } else { last.number };
    Item {
        head,
        rest,
        place: last.place.saturating_add(1),
        run: last.run.saturating_add(u64::from(begins_run)),
        statement: last.statement.saturating_add(u64::from(begins_statement)),
        number: asked.saturating_add(accesses_in(head, rest)),
    }
}

fn push_item<'a>(items: &mut Vec<Item<'a>>, item: Item<'a>) -> Result<(), LineErr> {
    match items.push(item) {
        Ok(()) => Ok(()),
        Err(_) => Err(LineErr::NoMemory),
    }
}

// How many accesses an item stands for.
fn accesses_in(head: &str, rest: &str) -> u64 {
    if head != "@" || rest.is_empty() {
        return 0;
    }
    rest.parse::<u64>().unwrap_or(1)
}

/// Whether a line of this head is typed.
pub fn is_typed(head: &str) -> bool {
    head == ">" || head == "times"
}

/// Whether a line of this head is for its case alone, and for none that its lines make.
pub fn is_of_itself(head: &str) -> bool {
    match head {
        "each" | "else" | "differs" => true,
        "total" | "asked" | "left" | "written" | "traced" => true,
        _ => false,
    }
}

/// Whether an item is an access, and no number of them.
pub fn is_access(item: Item) -> bool {
    item.head == "@" && !item.rest.is_empty() && item.rest.parse::<u64>().is_err()
}

/// The region of an access of this kind, as `"R "`, and what follows the region; none of another item.
pub fn region_in<'a>(item: Item<'a>, kind: &str) -> Option<(&'a str, &'a str)> {
    if item.head != "@" {
        return None;
    }
    item.rest.strip_prefix(kind)?.split_once(' ')
}

/// How many blocks of a region there are by the places that items read and write.
pub fn blocks_of(items: &[Item], region: &str) -> u64 {
    let mut blocks: u64 = 0;
    for item in items {
        let found = match region_in(*item, "R ") {
            Some(read) => Some(read),
            None => region_in(*item, "W "),
        };
        if let Some((of, place)) = found {
            if of == region {
                let place = place.parse::<u64>().unwrap_or(0);
                blocks = blocks.max(place.saturating_add(1));
            }
        }
    }
    blocks
}

/// How many statements some items type.
pub fn statements_in(items: &[Item]) -> u64 {
    match items.last() {
        Some(item) => item.statement,
        None => 0,
    }
}
