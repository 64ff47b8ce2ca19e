//! Accesses as texts spell them, and how the list of them is kept.
use crate::bytes::{narrow, number, parted};
use ob_base::Access;
use ob_store::Log;
use std::alloc::{AllocError, Global};

/// The access that a text spells, as the trace does.
pub fn access_of(text: &str) -> Option<Access> {
    let (kind, rest) = parted(text);
    let (region, rest) = parted(rest);
    let region = number(region);
    let (first, second) = parted(rest);
    let (first, second) = (narrow(first), narrow(second));
    match kind {
        "M" => Some(Access::Make {
            region,
            blocks: first,
            len: second,
        }),
        "O" => Some(Access::Open {
            region,
            blocks: first,
            len: second,
        }),
        "R" => Some(Access::Read {
            region,
            place: first,
        }),
        "W" => Some(Access::Write {
            region,
            place: first,
        }),
        "D" => Some(Access::Discard { region }),
        _ => None,
    }
}

// Writes the letter of an access, its region, and what else it has.
fn put_words(
    out: &mut String,
    letter: &str,
    region: u64,
    numbers: &[u32],
) -> Result<(), AllocError> {
    write!(out, "{letter} {region}")?;
    for number in numbers {
        write!(out, " {number}")?;
    }
    Ok(())
}

/// Writes an access, as the trace does.
pub fn put_access(out: &mut String, access: Access) -> Result<(), AllocError> {
    match access {
        Access::Make {
            region,
            blocks,
            len,
        } => put_words(out, "M", region, &[blocks, len]),
        Access::Open {
            region,
            blocks,
            len,
        } => put_words(out, "O", region, &[blocks, len]),
        Access::Read { region, place } => put_words(out, "R", region, &[place]),
        Access::Write { region, place } => put_words(out, "W", region, &[place]),
        Access::Discard { region } => put_words(out, "D", region, &[]),
    }
}

// Lists one access more.
fn list(log: &mut Log, access: Access) -> Result<(), AllocError> {
    match log.reserve(1) {
        Ok(()) => {
            log.push(access);
            Ok(())
        }
        Err(_) => Err(AllocError),
    }
}

// Writes how many runs and accesses a list has, and the last access but one.
fn put_log(out: &mut String, log: &Log) -> Result<(), AllocError> {
    write!(
        out,
        "{} runs of {} accesses, the last but one ",
        log.runs(),
        log.count()
    )?;
    let count = log.count();
    if count.saturating_sub(log.gone()) < 2 {
        return out.push_str("none");
    }
    put_access(out, log.nth(count - 2))
}

// Lists the accesses that a text spells.
fn list_all(log: &mut Log, text: &str) -> Result<(), AllocError> {
    for word in text.split(", ") {
        if let Some(access) = access_of(word) {
            list(log, access)?;
        }
    }
    Ok(())
}

/// Writes what a list of the accesses is that a text spells.
pub fn listed(alloc: Global, out: &mut String, text: &str) -> Result<(), AllocError> {
    let mut log = Log::new(alloc);
    list_all(&mut log, text)?;
    put_log(out, &log)
}

// Lists the accesses of an INSERT into a table of so many slots: region 1 is read, and then written to region 2.
fn list_insert(log: &mut Log, slots: u32) -> Result<(), AllocError> {
    let made = Access::Make {
        region: 2,
        blocks: slots,
        len: 49,
    };
    list(log, made)?;
    for place in 0..slots {
        list(log, Access::Read { region: 1, place })?;
    }
    for place in 0..slots {
        list(log, Access::Read { region: 1, place })?;
        list(log, Access::Write { region: 2, place })?;
    }
    list(log, Access::Discard { region: 1 })
}

/// Likewise of those of an INSERT.
pub fn inserted(alloc: Global, out: &mut String, slots: u32) -> Result<(), AllocError> {
    let mut log = Log::new(alloc);
    list_insert(&mut log, slots)?;
    put_log(out, &log)
}
