//! Where the rows of a buffer go.
use crate::fault::Fault;
use crate::number;
use ob_oram::{Held, place};
use ob_room::RowBuffer;
use std::alloc::{AllocError, Global};
use std::str::SplitAsciiWhitespace;

/// The most rows of a buffer.
const MOST: usize = 64;

// A key, and the leaf that it is under after a point; `-` is no row.
fn held_of(word: &str) -> Option<Held> {
    let (key, leaf) = word.split_once('.')?;
    let key = key.parse::<u32>().ok()?;
    let leaf = leaf.parse::<u32>().ok()?;
    Some(Held { key, leaf })
}

fn buffer_of(alloc: Global, words: SplitAsciiWhitespace<'_>) -> Result<Vec<Option<Held>>, Fault> {
    let mut buffer = Vec::new(alloc);
    for word in words {
        if buffer.push(held_of(word)).is_err() {
            return Err(Fault::NoMemory);
        }
    }
    Ok(buffer)
}

fn put_buffer(out: &mut String, buffer: &[Option<Held>]) -> Result<(), AllocError> {
    for held in buffer {
        match held {
            Some(held) => write!(out, " {}", held.key)?,
            None => out.push_str(" -")?,
        }
    }
    Ok(())
}

// Places a buffer on the path of a leaf, in a tree of a height, and after it in the stash except for the last slot.
fn placed(
    alloc: Global,
    buffer: &mut [Option<Held>],
    height: u32,
    leaf: u32,
) -> Result<bool, Fault> {
    let n = buffer.len();
    if n < 1 || n > MOST || height >= 32 {
        return Err(Fault::Usage);
    }
    let Ok(mut room) = RowBuffer::new(alloc, n as u32, 17, 1) else {
        return Err(Fault::NoMemory);
    };
    let rows = room.open(n as u32);
    Ok(place(buffer, rows, n - 1, height, leaf))
}

// Writes a buffer where its rows got their places.
fn put_placed(
    out: &mut String,
    buffer: &[Option<Held>],
    fits: Result<bool, Fault>,
) -> Result<(), Fault> {
    match fits {
        Ok(true) => Ok(put_buffer(out, buffer)?),
        Ok(false) => Ok(out.push_str(" not all")?),
        Err(fault) => Err(fault),
    }
}

/// Writes a line, and where its rows go: the height of a tree, a leaf, and the buffer.
pub(crate) fn put_places(alloc: Global, out: &mut String, line: &str) -> Result<(), Fault> {
    write!(out, "{line} ->")?;
    let mut words = line.split_ascii_whitespace();
    let _head = words.next();
    let (height, leaf) = (number(&mut words), number(&mut words));
    let (Some(height), Some(leaf)) = (height, leaf) else {
        return Err(Fault::Usage);
    };
    let mut buffer = buffer_of(alloc, words)?;
    let fits = placed(alloc, buffer.as_mut_slice(), height, leaf);
    put_placed(out, buffer.as_slice(), fits)
}
