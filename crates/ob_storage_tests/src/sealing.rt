//! Tags, sealed blocks, the keys of runs that have a salt, with their check values, and draws.
ghost use Rattle.std.specs.Prelude.{◌≤◌, length};

use crate::bytes::{narrow, number, parted, put, spelled_by};
use ob_hmac::{MacKey, tag};
use ob_seal::{
    At, Draws, Keys, Salted, check, check_value, finish, seal, seal_part, unseal, unseal_part,
};
use rand_chacha::ChaCha20Rng;
use rand_core::SeedableRng;
use rand_core::utils::NextWord;
use std::alloc::{AllocError, Global};

/// A text of more bytes is not sealed.
const LONGEST: usize = 16_384;

// A run's salt.
const SALT: [u8; 16] = [1, 2, 3, 4, 5, 6, 7, 8, 9, 10, 11, 12, 13, 14, 15, 16];

// Regions that runs before that one made: a run with a salt region 2, and one without any region 3. Of region 2 the
// first entry counts.
const EARLIER: [Salted; 3] = [
    Salted {
        region: 2,
        salt: Some([7; 16]),
    },
    Salted {
        region: 3,
        salt: None,
    },
    Salted {
        region: 2,
        salt: None,
    },
];

// Copies the bytes, as far as there is room.
fn copy_bytes(key: &mut [u8], bytes: &[u8]) {
    for i in 0..key.len() {
        if i < bytes.len() {
            key[i] = bytes[i];
        }
    }
}

// The bytes, with zeros after them up to 32.
fn key_of(bytes: &[u8]) -> [u8; 32] {
    let mut key = [0; 32];
    copy_bytes(&mut key, bytes);
    key
}

/// Writes the tag of a text in two parts, by a key and by one that is ready; all three are parted by `|`.
pub fn tagged(alloc: Global, out: &mut String, text: &str) -> Result<(), AllocError> {
    let (key, text) = text.split_once('|').unwrap_or((text, ""));
    let (head, more) = text.split_once('|').unwrap_or((text, ""));
    let key = key_of(spelled_by(alloc, key)?.as_slice());
    let head = spelled_by(alloc, head)?;
    let more = spelled_by(alloc, more)?;
    let found = tag(&key, head.as_slice(), more.as_slice());
    put(out, &found)?;
    if MacKey::new(&key).tag(head.as_slice(), more.as_slice()) != found {
        out.push_str(", and another by the ready key")?;
    }
    Ok(())
}

/// Writes the check value of a secret for a run's salt, which are parted by `|`.
pub fn checked(alloc: Global, out: &mut String, text: &str) -> Result<(), AllocError> {
    let (secret, salt) = text.split_once('|').unwrap_or((text, ""));
    let secret = key_of(spelled_by(alloc, secret)?.as_slice());
    let mut bytes = [0; 16];
    copy_bytes(&mut bytes, spelled_by(alloc, salt)?.as_slice());
    put(out, &check_value(&secret, &bytes))
}

/// Writes the first words of the key stream of zeros.
pub fn words(out: &mut String) -> Result<(), AllocError> {
    let mut words = ChaCha20Rng::from_seed([0; 32]);
    words.set_stream(0);
    for _ in 0..4 {
        let word: u32 = words.next_word();
        write!(out, " {word:08x}")?;
    }
    Ok(())
}

/// Writes the first draws of a seed of zeros.
pub fn draws(out: &mut String) -> Result<(), AllocError> {
    let mut draws = Draws::new([0; 32]);
    for _ in 0..9 {
        let draw = draws.next();
        write!(out, " {draw:016x}")?;
    }
    Ok(())
}

// The keys of a secret of zeros, for a run that has the salt, or for one that has none.
fn keys_of(alloc: Global, run: &str) -> Result<Keys, AllocError> {
    match run {
        "salted" => Keys::derive_salted(alloc, &[0; 32], &SALT, &EARLIER).map_err(|_| AllocError),
        _ => Ok(Keys::derive(&[0; 32])),
    }
}

/// Writes what is asked of a run's keys.
pub fn keyed(alloc: Global, out: &mut String, reader: &str, text: &str) -> Result<(), AllocError> {
    let (run, text) = parted(text);
    let keys = keys_of(alloc, run)?;
    match reader {
        "seed" => put(out, &keys.draw_seed()),
        "salt" => match keys.salt_of(number(text)) {
            Some(salt) => put(out, &salt),
            None => out.push_str("none"),
        },
        "check" => put(out, &keys.check_of(number(text))),
        _ => at_place(alloc, out, &keys, reader, text),
    }
}

// Writes what a block at a place, which the text begins with, is sealed or opened as.
fn at_place(
    alloc: Global,
    out: &mut String,
    keys: &Keys,
    reader: &str,
    text: &str,
) -> Result<(), AllocError> {
    let (region, text) = parted(text);
    let (place, text) = parted(text);
    let (write, text) = parted(text);
    let at = At {
        region: number(region),
        place: narrow(place),
        number: number(write),
    };
    let bytes = spelled_by(alloc, text)?;
    if bytes.len() < 2 || bytes.len() > LONGEST {
        return Err(AllocError);
    }
    match reader {
        "seal" => sealed(alloc, out, keys, at, bytes.as_slice()),
        "open" => opened(alloc, out, keys, at, bytes.as_slice()),
        _ => in_halves(alloc, out, keys, at, bytes.as_slice()),
    }
}

// Writes a block of these rows.
fn sealed(
    alloc: Global,
    out: &mut String,
    keys: &Keys,
    at: At,
    rows: &[u8],
) -> Result<(), AllocError>
    requires { length rows.now ≤ 16384 }
{
    let mut block = vec![in alloc; 0; rows.len() + 32]?;
    seal(keys, at, rows, block.as_mut_slice());
    put(out, block.as_slice())
}

// Writes the rows of a block, if it is one of that place.
fn opened(
    alloc: Global,
    out: &mut String,
    keys: &Keys,
    at: At,
    block: &[u8],
) -> Result<(), AllocError> {
    if block.len() < 32 {
        return out.push_str("too short");
    }
    let mut rows = vec![in alloc; 9; block.len() - 32]?;
    match unseal(keys, at, block, rows.as_mut_slice()) {
        Ok(()) => put(out, rows.as_slice()),
        Err(_) => out.push_str("refused"),
    }
}

// Puts a part of a block's rows, sealed, after the parts before it.
fn put_part(
    alloc: Global,
    keys: &Keys,
    at: At,
    rows: &[u8],
    block: &mut Vec<u8>,
) -> Result<(), AllocError> {
    if block.len() > LONGEST {
        return Err(AllocError);
    }
    let skip = block.len() as u32;
    let mut part = vec![in alloc; 0; rows.len()]?;
    seal_part(keys, at, skip, rows, part.as_mut_slice());
    block.extend_from_slice(part.as_slice())
}

// Writes the rest of a block, from a byte on, as it is opened.
fn put_opened(
    alloc: Global,
    out: &mut String,
    keys: &Keys,
    at: At,
    skip: u32,
    part: &[u8],
) -> Result<(), AllocError> {
    let mut rows = vec![in alloc; 9; part.len()]?;
    unseal_part(keys, at, skip, part, rows.as_mut_slice());
    put(out, rows.as_slice())
}

// Writes a block, and whether it is refused.
fn put_checked(out: &mut String, keys: &Keys, at: At, block: &[u8]) -> Result<(), AllocError> {
    put(out, block)?;
    if block.len() < 32 || check(keys, at, block).is_err() {
        out.push_str(", refused")?;
    }
    Ok(())
}

// Writes the tag over a block's last bytes.
fn end(keys: &Keys, at: At, block: &mut [u8]) {
    if block.len() >= 32 {
        finish(keys, at, block);
    }
}

// Writes the block of these rows that is sealed in two halves, and what its second half is opened as.
fn in_halves(
    alloc: Global,
    out: &mut String,
    keys: &Keys,
    at: At,
    rows: &[u8],
) -> Result<(), AllocError>
    requires { length rows.now ≤ 16384 }
{
    let (first, second) = rows.split_at(rows.len() / 2);
    let mut block = Vec::new(alloc);
    put_part(alloc, keys, at, first, &mut block)?;
    put_part(alloc, keys, at, second, &mut block)?;
    block.extend_from_slice(&[0; 32])?;
    end(keys, at, block.as_mut_slice());
    put_checked(out, keys, at, block.as_slice())?;
    out.push_str(", of which the second half is ")?;
    match block.as_slice().get(first.len()..rows.len()) {
        Some(part) => put_opened(alloc, out, keys, at, first.len() as u32, part),
        None => out.push_str("none"),
    }
}
