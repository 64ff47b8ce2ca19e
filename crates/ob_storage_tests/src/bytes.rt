//! Words, numbers and bytes that a line spells.
use std::alloc::{AllocError, Global};

/// A text before its first blank, and after it.
pub fn parted(text: &str) -> (&str, &str) {
    text.split_once(' ').unwrap_or((text, ""))
}

/// The number that a word spells in decimal, else 0.
pub fn number(word: &str) -> u64 {
    word.parse().unwrap_or(0)
}

/// Likewise one of 32 bits.
pub fn narrow(word: &str) -> u32 {
    word.parse().unwrap_or(0)
}

/// The bytes of a text, in which a `\` begins hexadecimal digits, two for each byte, and the next one ends them.
pub fn spelled_by(alloc: Global, text: &str) -> Result<Vec<u8>, AllocError> {
    let mut bytes = Vec::new(alloc);
    let mut is_in_digits = false;
    let mut high = None;
    for b in text.as_bytes() {
        if *b == b'\\' {
            is_in_digits = !is_in_digits;
        } else if !is_in_digits {
            bytes.push(*b)?;
        } else if let Some(digit) = high {
            bytes.push(joined(digit, *b))?;
            high = None;
        } else {
            high = Some(*b);
        }
    }
    Ok(bytes)
}

// The byte of two hexadecimal digits.
fn joined(high: u8, low: u8) -> u8 {
    digit(high).wrapping_mul(16).wrapping_add(digit(low))
}

// What a hexadecimal digit stands for.
fn digit(b: u8) -> u8 {
    match b {
        b'a'..=b'f' => b.wrapping_sub(b'a').wrapping_add(10),
        _ => b.wrapping_sub(b'0'),
    }
}

/// Writes bytes in hexadecimal.
pub fn put(out: &mut String, bytes: &[u8]) -> Result<(), AllocError> {
    for b in bytes {
        write!(out, "{b:02x}")?;
    }
    Ok(())
}
