//! Bytes that a line spells.
use std::alloc::{AllocError, Global};

/// The bytes of a line, in which `\` and two hexadecimal digits are one.
pub fn spelled_by(alloc: Global, line: &str) -> Result<Vec<u8>, AllocError> {
    let mut bytes = Vec::new(alloc);
    // How many digits of a byte are to come, and what those before them spell.
    let mut digits = 0u8;
    let mut value = 0u8;
    for b in line.as_bytes() {
        if digits > 0 {
            digits -= 1;
            value = value.wrapping_mul(16).wrapping_add(digit(*b));
        } else if *b == b'\\' {
            digits = 2;
        } else {
            value = *b;
        }
        if digits == 0 {
            bytes.push(value)?;
        }
    }
    Ok(bytes)
}

// What a hexadecimal digit stands for.
fn digit(b: u8) -> u8 {
    match b {
        b'a'..=b'f' => b.wrapping_sub(b'a').wrapping_add(10),
        _ => b.wrapping_sub(b'0'),
    }
}
