//! Reads the changes that a text spells.
ghost use Rattle.std.specs.Prelude.{◌≡◌, ◌≤◌, ◌<◌, ◌==◌, Some, None, Err, length, IfOk, OnOk, IfSome, IfNone};
ghost use Rattle.std.specs.List.{position};
ghost use Rattle.ob_meddle.specs.Changes.{front, rest, number_from, number, narrow, spot, flip, copy, act, change, changes, Extends};

use crate::meddle::{Act, Meddle, Spot};
use std::alloc::Global;

/// Why no changes were read.
#[derive(Clone, Copy, Debug, PartialEq, Eq)]
pub enum ChangesErr {
    /// The text has another form, or more than 64 changes.
    Malformed,
    NoMemory,
}

fn find(text: &[u8], mark: u8) -> Option<usize>
    ensures value { result ≡ position (λ b. b == mark) text.now }
    ensures within { IfSome result (λ i. i < length text.now) }
{
    text.iter().position(|b| *b == mark)
}

/// A text before its first such mark, and after it, if it has one.
pub fn parted(text: &[u8], mark: u8) -> (&[u8], Option<&[u8]>)
    ensures front { result.0.now ≡ front mark text.now }
    ensures none { IfNone result.1 (rest mark text.now ≡ None) }
    ensures some { IfSome result.1 (λ r. rest mark text.now ≡ Some r.now) }
{
    match find(text, mark) {
        None => (text, None),
        Some(i) => (&text[..i], Some(&text[i + 1..])),
    }
}

// The number that more digits after `n` make, if it is at most `most`.
fn number_from(most: u64, n: u64, digits: &[u8]) -> Option<u64>
    requires { n ≤ most }
    ensures value { result ≡ number_from most n digits.now }
    ensures within { IfSome result (λ m. m ≤ most) }
{
    match digits.split_first() {
        None => Some(n),
        Some((digit, digits)) => {
            if !digit.is_ascii_digit() {
                return None;
            }
            let digit = u64::from(*digit - b'0');
            if n > most / 10 || digit > most - 10 * n {
                return None;
            }
            number_from(most, 10 * n + digit, digits)
        }
    }
}

/// A number in decimal, without a sign and without leading zeros, if it is at most `most`.
pub fn number(most: u64, digits: &[u8]) -> Option<u64>
    ensures value { result ≡ number most digits.now }
    ensures within { IfSome result (λ m. m ≤ most) }
{
    if digits.is_empty() || (digits.len() > 1 && digits[0] == b'0') {
        return None;
    }
    number_from(most, 0, digits)
}

fn narrow(digits: &[u8]) -> Option<u32>
    ensures { result ≡ narrow digits.now }
{
    match number(u64::from(u32::MAX), digits) {
        None => None,
        Some(n) => Some(n as u32),
    }
}

// The block that `R.P` names.
fn spot(text: &[u8]) -> Option<Spot>
    ensures { result ≡ spot text.now }
{
    let (region, place) = parted(text, b'.');
    match (number(u64::MAX, region), place) {
        (Some(region), Some(place)) => match narrow(place) {
            None => None,
            Some(place) => Some(Spot { region, place }),
        },
        _ => None,
    }
}

// The act that `R.P.Y` spells.
fn flip(text: &[u8]) -> Option<Act>
    ensures { result ≡ flip text.now }
{
    let (region, rest) = parted(text, b'.');
    let (place, byte) = match rest {
        None => return None,
        Some(rest) => parted(rest, b'.'),
    };
    let byte = match byte {
        None => return None,
        Some(byte) => narrow(byte),
    };
    match (number(u64::MAX, region), narrow(place), byte) {
        (Some(region), Some(place), Some(byte)) => Some(Act::Flip {
            region,
            place,
            byte,
        }),
        _ => None,
    }
}

// The act that `R.P:U.Q` spells.
fn copy(text: &[u8]) -> Option<Act>
    ensures { result ≡ copy text.now }
{
    let (from, to) = parted(text, b':');
    match (spot(from), to) {
        (Some(from), Some(to)) => match spot(to) {
            None => None,
            Some(to) => Some(Act::Copy { from, to }),
        },
        _ => None,
    }
}

fn act(text: &[u8]) -> Option<Act>
    ensures { result ≡ act text.now }
{
    let (word, rest) = parted(text, b':');
    match rest {
        None if word == b"fail".as_slice() => Some(Act::Fail),
        None => None,
        Some(rest) => {
            if word == b"flip".as_slice() {
                flip(rest)
            } else if word == b"copy".as_slice() {
                copy(rest)
            } else if word == b"old".as_slice() {
                let Spot { region, place } = spot(rest)?;
                Some(Act::Older { region, place })
            } else {
                None
            }
        }
    }
}

fn change(text: &[u8]) -> Option<Meddle>
    ensures { result ≡ change text.now }
{
    let (before, rest) = parted(text, b':');
    match (number(u64::MAX, before), rest) {
        (None | Some(0), _) | (_, None) => None,
        (Some(before), Some(rest)) => match act(rest) {
            None => None,
            Some(act) => Some(Meddle { before, act }),
        },
    }
}

fn add_changes(most: u32, text: &[u8], list: &mut Vec<Meddle>) -> Result<(), ChangesErr>
    ensures ok { OnOk result (Extends list.old.items list.new.items (changes most text.now)) }
    ensures malformed { result ≡ Err ChangesErr.Malformed → changes most text.now ≡ None }
{
    if most == 0 {
        return Err(ChangesErr::Malformed);
    }
    let (front, rest) = parted(text, b',');
    match change(front) {
        None => Err(ChangesErr::Malformed),
        Some(change) => match list.push(change) {
            Err(_) => Err(ChangesErr::NoMemory),
            Ok(()) => match rest {
                None => Ok(()),
                Some(rest) => add_changes(most - 1, rest, list),
            },
        },
    }
}

/// Reads the changes that a text spells, 1 to 64 of them, parted by commas: `A:fail`, `A:flip:R.P.Y`,
/// `A:copy:R.P:U.Q` and `A:old:R.P`, just before access A, counted from 1, at byte Y of block P of region
/// R, from block P of region R to block Q of region U, at block P of region R. Numbers are decimal without
/// leading zeros; A, R and U fit in 64 bits, P, Q and Y in 32.
pub fn parse_changes(alloc: Global, text: &[u8]) -> Result<Vec<Meddle>, ChangesErr>
    ensures ok { IfOk result (λ list. changes 64 text.now ≡ Some list.items) }
    ensures malformed { result ≡ Err ChangesErr.Malformed → changes 64 text.now ≡ None }
{
    let mut list = Vec::new(alloc);
    match add_changes(64, text, &mut list) {
        Err(error) => Err(error),
        Ok(()) => Ok(list),
    }
}
