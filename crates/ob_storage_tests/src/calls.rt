//! Calls of a store, as texts spell them.
ghost use Rattle.std.specs.Prelude.{◌≡◌, ◌<◌, ◌≤◌, ◌+◌, [], true, IfOk, OnOk};
ghost use Rattle.ob_base.specs.Accesses.{highest};
ghost use Rattle.ob_store.specs.Calls.{IsRegion};

use crate::accesses::{access_of, put_access};
use crate::bytes::{narrow, number, parted};
use ob_base::{Access, StoreErr};
use ob_store::{BlockStore, Lasting};
use std::alloc::AllocError;

/// The most calls that are asked in one run.
const MOST: u32 = 64;

/// The most blocks of a region, and the most bytes of a block.
const LARGEST: u32 = 64;

// A region of blocks of 33 bytes, and how many there are.
#[derive(Clone, Copy)]
struct Region {
    number: u64,
    blocks: u32,
}

// Makes a region, or opens one of an earlier run, as the first access.
fn begin<S: Lasting>(
    store: &mut S,
    opens: bool,
    region: u64,
    blocks: u32,
    len: u32,
) -> Result<(), StoreErr>
    requires none { (S.state store.old).asked ≡ [] }
    requires region { 1 ≤ region }
    requires blocks { (1 ≤ blocks) × (blocks ≤ 64) }
    requires len { (33 ≤ len) × (len ≤ 64) }
    ensures next { OnOk result (highest (S.state store.new).asked < region + 1) }
    ensures region { OnOk result (IsRegion region blocks len (S.state store.new)) }
{
    let Ok(()) = store.reserve(1) else {
        return Err(StoreErr::NoMemory);
    };
    if opens {
        store.resume(region, blocks, len)
    } else {
        store.make(region, blocks, len)
    }
}

// Makes a region of one block above this one, and discards it.
fn pass<S: BlockStore>(store: &mut S, at: Region, other: u64) -> Result<(), StoreErr>
    requires next { highest (S.state store.old).asked < other }
    requires region { IsRegion at.number at.blocks 33 (S.state store.old) }
    requires above { at.number < other }
    ensures region { OnOk result (IsRegion at.number at.blocks 33 (S.state store.new)) }
{
    let Ok(()) = store.reserve(2) else {
        return Err(StoreErr::NoMemory);
    };
    store.make(other, 1, 33)?;
    store.discard(other)?;
    Ok(())
}

// Discards the region, and makes another one above it.
fn follow<S: BlockStore>(store: &mut S, at: Region, other: Region) -> Result<(), StoreErr>
    requires next { highest (S.state store.old).asked < other.number }
    requires region { IsRegion at.number at.blocks 33 (S.state store.old) }
    requires blocks { (1 ≤ other.blocks) × (other.blocks ≤ 64) }
    ensures { OnOk result (IsRegion other.number other.blocks 33 (S.state store.new)) }
{
    let Ok(()) = store.reserve(2) else {
        return Err(StoreErr::NoMemory);
    };
    store.discard(at.number)?;
    store.make(other.number, other.blocks, 33)
}

// Writes a block of this byte.
fn write<S: BlockStore>(store: &mut S, at: Region, place: u32, byte: u8) -> Result<(), StoreErr>
    requires region { IsRegion at.number at.blocks 33 (S.state store.old) }
    requires place { place < at.blocks }
    ensures { IsRegion at.number at.blocks 33 (S.state store.new) }
{
    let Ok(()) = store.reserve(1) else {
        return Err(StoreErr::NoMemory);
    };
    store.write(at.number, place, &[byte; 33])?;
    Ok(())
}

// Reads a block.
fn read<S: BlockStore>(
    store: &mut S,
    at: Region,
    place: u32,
    block: &mut [u8; 33],
) -> Result<(), StoreErr>
    requires region { IsRegion at.number at.blocks 33 (S.state store.old) }
    requires place { place < at.blocks }
    ensures { IsRegion at.number at.blocks 33 (S.state store.new) }
{
    let Ok(()) = store.reserve(1) else {
        return Err(StoreErr::NoMemory);
    };
    store.read(at.number, place, block)?;
    Ok(())
}

// Discards the region.
fn discard<S: BlockStore>(store: &mut S, at: Region) -> Result<(), StoreErr>
    requires { IsRegion at.number at.blocks 33 (S.state store.old) }
{
    let Ok(()) = store.reserve(1) else {
        return Err(StoreErr::NoMemory);
    };
    store.discard(at.number)?;
    Ok(())
}

// Notes where a call failed.
fn noted(out: &mut String, answer: Result<(), StoreErr>) -> Result<(), AllocError> {
    match answer {
        Ok(()) => Ok(()),
        Err(StoreErr::Failed) => out.push_str(" failed"),
        Err(StoreErr::NoMemory) => Err(AllocError),
    }
}

// Writes a block's first byte, and its last one if not all are the first.
fn put_block(out: &mut String, block: &[u8; 33]) -> Result<(), AllocError> {
    write!(out, " {}", block[0])?;
    if *block != [block[0]; 33] {
        write!(out, "..{}", block[32])?;
    }
    Ok(())
}

// The byte that a text ends with.
fn last_byte(text: &str) -> u8 {
    match text.rsplit_once(' ') {
        Some((_, byte)) => byte.parse().unwrap_or(0),
        None => 0,
    }
}

// Asks a call at a region, and says whether it is still there.
fn ask<S: BlockStore>(
    store: &mut S,
    at: Region,
    text: &str,
    out: &mut String,
) -> Result<bool, AllocError>
    requires { IsRegion at.number at.blocks 33 (S.state store.old) }
    ensures { IfOk result
        (λ stays. stays ≡ true → IsRegion at.number at.blocks 33 (S.state store.new)) }
{
    match access_of(text) {
        Some(Access::Write { region, place }) if region == at.number && place < at.blocks => {
            noted(out, write(store, at, place, last_byte(text)))?;
            Ok(true)
        }
        Some(Access::Read { region, place }) if region == at.number && place < at.blocks => {
            let mut block = [0; 33];
            noted(out, read(store, at, place, &mut block))?;
            put_block(out, &block)?;
            Ok(true)
        }
        Some(Access::Discard { region }) if region == at.number => {
            noted(out, discard(store, at))?;
            Ok(false)
        }
        _ => {
            out.push_str(" not asked")?;
            Ok(false)
        }
    }
}

// Asks the calls at a region that a text spells, at most so many.
fn ask_all<S: BlockStore>(
    store: &mut S,
    at: Region,
    text: &str,
    most: u32,
    out: &mut String,
) -> Result<(), AllocError>
    requires { IsRegion at.number at.blocks 33 (S.state store.old) }
{
    let (call, rest) = text.split_once(", ").unwrap_or((text, ""));
    match ask(store, at, call, out) {
        Err(error) => Err(error),
        Ok(stays) => {
            if stays && !rest.is_empty() && most > 0 {
                ask_all(store, at, rest, most - 1, out)
            } else {
                Ok(())
            }
        }
    }
}

// Asks the calls after the first, which made or opened a region. The next may be `MD`, which makes another region and
// discards that one, or `DM`, which discards the region and makes another one.
fn go_on<S: BlockStore>(
    store: &mut S,
    at: Region,
    text: &str,
    out: &mut String,
) -> Result<(), AllocError>
    requires next { highest (S.state store.old).asked < at.number + 1 }
    requires region { IsRegion at.number at.blocks 33 (S.state store.old) }
{
    let (call, rest) = text.split_once(", ").unwrap_or((text, ""));
    let (kind, words) = parted(call);
    let (other, blocks) = parted(words);
    let other = Region {
        number: number(other),
        blocks: narrow(blocks),
    };
    let is_next = other.number > at.number;
    if kind == "MD" && is_next {
        match pass(store, at, other.number) {
            Ok(()) => ask_all(store, at, rest, MOST, out),
            Err(error) => noted(out, Err(error)),
        }
    } else if kind == "DM" && is_next && 1 <= other.blocks && other.blocks <= LARGEST {
        match follow(store, at, other) {
            Ok(()) => ask_all(store, other, rest, MOST, out),
            Err(error) => noted(out, Err(error)),
        }
    } else if text.is_empty() {
        Ok(())
    } else {
        ask_all(store, at, text, MOST, out)
    }
}

// Asks the calls of a run.
fn serve<S: Lasting>(store: &mut S, text: &str, out: &mut String) -> Result<(), AllocError>
    requires { (S.state store.old).asked ≡ [] }
{
    let (call, rest) = text.split_once(", ").unwrap_or((text, ""));
    let (region, blocks, len, opens) = match access_of(call) {
        Some(
            Access::Make {
                region,
                blocks,
                len,
            },
        ) => (region, blocks, len, false),
        Some(
            Access::Open {
                region,
                blocks,
                len,
            },
        ) => (region, blocks, len, true),
        _ => return out.push_str(" not asked"),
    };
    if region == 0 || blocks == 0 || blocks > LARGEST || len < 33 || len > LARGEST {
        return out.push_str(" not asked");
    }
    let at = Region {
        number: region,
        blocks,
    };
    match begin(store, opens, region, blocks, len) {
        Ok(()) if len == 33 => go_on(store, at, rest, out),
        answer => noted(out, answer),
    }
}

// Writes the accesses that were asked.
fn put_accesses<S: BlockStore>(store: &S, out: &mut String) -> Result<(), AllocError> {
    out.push_str(" of")?;
    for i in store.gone()..store.count() {
        out.push_str(" ")?;
        put_access(out, store.nth(i))?;
        out.push_str(",")?;
    }
    write!(out, " {} accesses", store.count())
}

/// Asks the calls of a run that a text spells, parted by commas, and writes what comes of them. Where the text ends with
/// `all`, the accesses that were asked follow.
pub fn run<S: Lasting>(store: &mut S, text: &str, out: &mut String) -> Result<(), AllocError>
    requires { (S.state store.old).asked ≡ [] }
{
    match text.strip_suffix(", all") {
        None => serve(store, text, out),
        Some(calls) => {
            serve(store, calls, out)?;
            put_accesses(store, out)
        }
    }
}
