//! Literals.
use crate::draws::Draws;
use crate::pen::Pen;

const INTEGERS: [&str; 15] = [
    "-3",
    "-2",
    "-1",
    "0",
    "1",
    "2",
    "3",
    "4",
    "5",
    "6",
    "7",
    "8",
    "100",
    "-9223372036854775808",
    "9223372036854775807",
];

// Those that 64 bits don't hold.
const GREAT: [&str; 3] = [
    "9223372036854775808",
    "-9223372036854775809",
    "1000000000000000000000000000000",
];

const TEXTS: [&str; 10] = [
    "",
    "a",
    "ab",
    "it''s",
    "Zoe",
    "x y",
    "--no comment",
    "a;b",
    "zzzzzzzzzzzz",
    "\"q\"",
];

/// Writes an integer, seldom one of more than 64 bits.
pub fn integer(draws: &mut Draws, to: &mut Pen) {
    let word = if draws.chance(3) {
        draws.one(&GREAT)
    } else {
        draws.one(&INTEGERS)
    };
    if draws.chance(50) && !word.starts_with('-') {
        to.put("+");
    }
    to.put(word);
}

/// Writes a text, seldom a long one.
pub fn quotation(draws: &mut Draws, to: &mut Pen) {
    to.put("'");
    if draws.chance(3) {
        let size = if draws.chance(50) { 20 } else { 256 };
        for _ in 0..size {
            to.put("y");
        }
    } else {
        to.put(draws.one(&TEXTS));
    }
    to.put("'");
}

/// Writes a literal of a column, seldom one of the other kind.
pub fn literal(draws: &mut Draws, is_number: bool, to: &mut Pen) {
    let is_other = draws.chance(2);
    if is_number != is_other {
        integer(draws, to);
    } else {
        quotation(draws, to);
    }
}
