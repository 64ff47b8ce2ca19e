//! Lines of marks, and names of regions' files.
use crate::bytes::{put, spelled_by};
use ob_file::region_in;
use ob_mark::{mark_of, spell};
use ob_reopen::Mark;
use std::alloc::{AllocError, Global};

// The line that a mark is spelt as.
fn line_of(alloc: Global, mark: &Mark) -> Result<Vec<u8>, AllocError> {
    let mut line = Vec::new(alloc);
    match spell(&mut line, mark) {
        Ok(()) => Ok(line),
        Err(_) => Err(AllocError),
    }
}

// Writes where a closing lies, and what else is known of it.
fn put_closing(
    out: &mut String,
    region: u64,
    blocks: u32,
    number: u64,
    pack: u32,
) -> Result<(), AllocError> {
    write!(
        out,
        "region {region}, blocks {blocks}, number {number}, pack {pack}"
    )
}

fn put_mark(out: &mut String, mark: &Mark) -> Result<(), AllocError> {
    match mark {
        Mark::Fresh => out.push_str("fresh"),
        Mark::InUse => out.push_str("in use"),
        Mark::Closed {
            region,
            blocks,
            number,
            pack,
        } => put_closing(out, *region, *blocks, *number, u32::from(*pack)),
        Mark::Begun => out.push_str("begun"),
        Mark::Saved {
            region,
            blocks,
            number,
            pack,
            salt,
            check,
        } => {
            put_closing(out, *region, *blocks, *number, u32::from(*pack))?;
            out.push_str(", salt ")?;
            put(out, salt)?;
            out.push_str(", check ")?;
            put(out, check)
        }
    }
}

// Writes the mark that a line spells, and whether that mark is spelt otherwise.
fn put_spelt(alloc: Global, out: &mut String, line: &[u8]) -> Result<(), AllocError> {
    let Some(mark) = mark_of(line) else {
        return out.push_str("none");
    };
    put_mark(out, &mark)?;
    if line_of(alloc, &mark)?.as_slice() != line {
        out.push_str(", and spelt otherwise")?;
    }
    Ok(())
}

/// Writes the mark that a text spells, and whether that mark is spelt otherwise.
pub fn read(alloc: Global, out: &mut String, text: &str) -> Result<(), AllocError> {
    let line = spelled_by(alloc, text)?;
    put_spelt(alloc, out, line.as_slice())
}

/// Writes how many bytes the line of a fresh mark has.
pub fn fresh(alloc: Global, out: &mut String) -> Result<(), AllocError> {
    let len = line_of(alloc, &Mark::Fresh)?.len();
    write!(out, "{len} bytes")
}

/// Writes the region whose file has a name, where the names of the store's files begin with the text before a colon.
pub fn region(out: &mut String, text: &str) -> Result<(), AllocError> {
    let (first, name) = text.split_once(':').unwrap_or((text, ""));
    match region_in(name.as_bytes(), first) {
        Some(region) => write!(out, "{region}"),
        None => out.push_str("none"),
    }
}
