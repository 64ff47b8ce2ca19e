//! How what comes of a line is printed.
use crate::fault::Fault;
use crate::sessions::Ask;
use ob_base::Access;
use ob_oram::{Cells, Got};
use ob_row::Cell;
use ob_store::BlockStore;
use std::alloc::AllocError;

// An access, as a trace spells it.
fn put_words(
    out: &mut String,
    letter: &str,
    region: u64,
    numbers: &[u32],
) -> Result<(), AllocError> {
    write!(out, ", {letter} {region}")?;
    for number in numbers {
        write!(out, " {number}")?;
    }
    Ok(())
}

fn put_access(out: &mut String, access: Access) -> Result<(), AllocError> {
    match access {
        Access::Make {
            region,
            blocks,
            len,
        } => put_words(out, "M", region, &[blocks, len]),
        Access::Open {
            region,
            blocks,
            len,
        } => put_words(out, "O", region, &[blocks, len]),
        Access::Read { region, place } => put_words(out, "R", region, &[place]),
        Access::Write { region, place } => put_words(out, "W", region, &[place]),
        Access::Discard { region } => put_words(out, "D", region, &[]),
    }
}

/// Writes the accesses that were asked from one on, or how many there were.
pub(crate) fn put_asked<S: BlockStore>(
    out: &mut String,
    store: &S,
    from: u64,
    all: bool,
) -> Result<(), AllocError> {
    if !all {
        return write!(out, ", {} accesses", store.count().saturating_sub(from));
    }
    for i in from.max(store.gone())..store.count() {
        put_access(out, store.nth(i))?;
    }
    Ok(())
}

fn put_cell(out: &mut String, cell: &Cell) -> Result<(), AllocError> {
    match cell {
        Cell::Int(x) => write!(out, " {x}"),
        Cell::Text(text) => {
            let text = str::from_utf8(text.as_bytes()).unwrap_or("?");
            write!(out, " {text}")
        }
    }
}

fn put_row(out: &mut String, cells: &Cells) -> Result<(), AllocError> {
    out.push_str("row")?;
    for i in 0..cells.len() {
        put_cell(out, cells.at(i))?;
    }
    Ok(())
}

fn put_got(out: &mut String, got: &Got) -> Result<(), AllocError> {
    match got {
        Got::None => out.push_str("none"),
        Got::Row(cells) => put_row(out, cells),
        Got::Done => out.push_str("done"),
        Got::Duplicate => out.push_str("duplicate"),
        Got::OutOfRange => out.push_str("out of range"),
    }
}

/// Writes what an access answered, or why it stopped.
pub(crate) fn put_answer(out: &mut String, answer: &Result<Got, Fault>) -> Result<(), AllocError> {
    match answer {
        Ok(got) => put_got(out, got),
        Err(fault) => write!(out, "{fault}"),
    }
}

/// Writes what is asked of a key, and the leaf that is read for it.
pub(crate) fn put_asking(
    out: &mut String,
    what: Ask,
    key: i64,
    leaf: u32,
) -> Result<(), AllocError> {
    let word = match what {
        Ask::Get => "get",
        Ask::Insert(_) => "put",
        Ask::Change(_) => "set",
        Ask::Remove => "take",
    };
    write!(out, "\n{word} {key}: leaf {leaf}, ")
}
