//! The line that a mark is spelt as.
ghost use Rattle.std.specs.Prelude.{◌≡◌, ◌<◌, ◌^◌, ◌++◌, ◌∷◌, ℕ, List, codes, decimal, MatchOption, IfSome, Some, OnOk};
ghost use Rattle.std.specs.Io.KnownBytes.{Appends};
ghost use Rattle.hex.specs.Hex.{encode_lower};
ghost use Rattle.ob_reopen.specs.declared.mark.Mark.{Mark as HeldMark};
ghost use Rattle.ob_reopen.specs.Keepers.{AreMarked, AreSaltBytes};
ghost use Rattle.ob_mark.specs.Marks.{HasNoBlank, Spells, mark_text, bytes_text, numbers_text, salts_text};

use itoa::{Buffer, Integer};
use ob_base::Failed;
use ob_reopen::Mark;
use std::io::Write;
use std::str;

/// The numbers of a closing's region and of its first write are below this one.
const END: u64 = 1 << 63;

/// Writes all of a piece. `Failed` where `out` did.
pub fn put<W: Write>(out: &mut W, piece: &[u8]) -> Result<(), Failed>
    ensures { OnOk result (Appends (W.contents out.old) (W.contents out.new) piece.now) }
{
    match out.write_all(piece) {
        Ok(()) => Ok(()),
        Err(_) => Err(Failed),
    }
}

// Writes a number in decimal, and what follows it.
fn put_number<W: Write, I: Integer>(out: &mut W, n: I, end: &[u8]) -> Result<(), Failed>
    ensures { OnOk result
        (Appends (W.contents out.old) (W.contents out.new) (I.text n ++ end.now)) }
{
    let mut buffer = Buffer::new();
    put(out, buffer.format(n).as_bytes())?;
    put(out, end)
}

/// Writes the digits of 16 bytes, and what follows them.
pub(crate) fn put_digits<W: Write>(out: &mut W, bytes: &[u8; 16], end: &[u8]) -> Result<(), Failed>
    ensures { OnOk result
        (Appends (W.contents out.old) (W.contents out.new) (encode_lower bytes.now ++ end.now)) }
{
    let mut digits = [0; 32];
    let Ok(()) = hex::encode_to_slice(bytes, &mut digits) else {
        unreachable!()
    };
    put(out, &digits)?;
    put(out, end)
}

// Writes the digits of a salt and of a check value, and the end of the line.
fn put_salts<W: Write>(out: &mut W, salt: &[u8; 16], check: &[u8; 16]) -> Result<(), Failed>
    ensures { OnOk result
        (Appends (W.contents out.old) (W.contents out.new) (salts_text salt.now check.now)) }
{
    put_digits(out, salt, b" ")?;
    put_digits(out, check, b"\n")
}

/// Writes the line of a mark, or nothing of a fresh one. `Failed` where `out` did.
pub fn spell<W: Write>(out: &mut W, mark: &Mark) -> Result<(), Failed>
    ensures { OnOk result
        (Appends (W.contents out.old) (W.contents out.new) (mark_text mark.now)) }
{
    match *mark {
        Mark::Fresh => Ok(()),
        Mark::InUse => put(out, b"in use\n"),
        Mark::Begun => put(out, b"begun\n"),
        Mark::Closed {
            region,
            blocks,
            number,
            pack,
        } => {
            put(out, b"closed ")?;
            put_number(out, region, b" ")?;
            put_number(out, blocks, b" ")?;
            put_number(out, number, b" ")?;
            put_number(out, pack, b"\n")
        }
        Mark::Saved {
            region,
            blocks,
            number,
            pack,
            salt,
            check,
        } => {
            put(out, b"saved ")?;
            put_number(out, region, b" ")?;
            put_number(out, blocks, b" ")?;
            put_number(out, number, b" ")?;
            put_number(out, pack, b" ")?;
            put_salts(out, &salt, &check)
        }
    }
}

// A text before its first blank, and after it.
fn word(text: &str) -> Option<(&str, &str)>
    ensures spelt { IfSome result (λ w. text.now ≡ w.0.now ++ 32 ∷ w.1.now) }
    ensures read { (head rest : List ℕ) → HasNoBlank head → text.now ≡ head ++ 32 ∷ rest
        → MatchOption result ⊥ (λ w. (w.0.now ≡ head) × (w.1.now ≡ rest)) }
{
    text.split_once(' ')
}

/// The number below 2^64 that is spelt so, in decimal and in no other way: without a sign, and without a zero before it.
pub fn number_of(digits: &str) -> Option<u64>
    ensures spelt { IfSome result (λ n. digits.now ≡ decimal n) }
    ensures read { (n : ℕ) → n < 2 ^ 64 → digits.now ≡ decimal n → result ≡ Some n }
{
    let n: u64 = digits.parse().ok()?;
    let mut buffer = Buffer::new();
    if buffer.format(n) == digits {
        Some(n)
    } else {
        None
    }
}

// The number before a text's first blank, and what is after it.
fn numbered(text: &str) -> Option<(u64, &str)>
    ensures spelt { IfSome result (λ r. text.now ≡ decimal r.0 ++ 32 ∷ r.1.now) }
    ensures read { (n : ℕ) (rest : List ℕ) → n < 2 ^ 64 → text.now ≡ decimal n ++ 32 ∷ rest
        → MatchOption result ⊥ (λ r. (r.0 ≡ n) × (r.1.now ≡ rest)) }
{
    let (digits, rest) = word(text)?;
    Some((number_of(digits)?, rest))
}

// The number that a line ends with.
fn last_number(text: &str) -> Option<u64>
    ensures spelt { IfSome result (λ n. text.now ≡ decimal n ++ codes "\n") }
    ensures read { (n : ℕ) → n < 2 ^ 64 → text.now ≡ decimal n ++ codes "\n" → result ≡ Some n }
{
    number_of(text.strip_suffix('\n')?)
}

// The 16 bytes that are spelt so, in 32 digits of lower case and in no other way.
fn bytes_of(digits: &str) -> Option<[u8; 16]>
    ensures spelt { IfSome result (λ bytes.
        (digits.now ≡ encode_lower bytes) × AreSaltBytes bytes) }
    ensures read { (bytes : List ℕ) → AreSaltBytes bytes → digits.now ≡ encode_lower bytes
        → result ≡ Some bytes }
{
    let mut bytes = [0; 16];
    let Ok(()) = hex::decode_to_slice(digits.as_bytes(), &mut bytes) else {
        return None;
    };
    let mut spelt = [0; 32];
    let Ok(()) = hex::encode_to_slice(&bytes, &mut spelt) else {
        unreachable!()
    };
    if digits.as_bytes() == spelt.as_slice() {
        Some(bytes)
    } else {
        None
    }
}

// The 16 bytes before a text's first blank, and what is after it.
fn salted(text: &str) -> Option<([u8; 16], &str)>
    ensures spelt { IfSome result (λ r.
        (text.now ≡ encode_lower r.0 ++ 32 ∷ r.1.now) × AreSaltBytes r.0) }
    ensures read { (salt rest : List ℕ) → AreSaltBytes salt
        → text.now ≡ encode_lower salt ++ 32 ∷ rest
        → MatchOption result ⊥ (λ r. (r.0 ≡ salt) × (r.1.now ≡ rest)) }
{
    let (digits, rest) = word(text)?;
    Some((bytes_of(digits)?, rest))
}

/// The 16 bytes that a line ends with.
pub(crate) fn last_bytes(text: &str) -> Option<[u8; 16]>
    ensures spelt { IfSome result (λ bytes.
        (text.now ≡ bytes_text bytes) × AreSaltBytes bytes) }
    ensures read { (bytes : List ℕ) → AreSaltBytes bytes → text.now ≡ bytes_text bytes
        → result ≡ Some bytes }
{
    bytes_of(text.strip_suffix('\n')?)
}

// How many blocks a closing has, and how many rows a block, if a mark may name one with these numbers.
fn sizes_of(region: u64, blocks: u64, number: u64, pack: u64) -> Option<(u32, u8)>
    ensures { MatchOption result (AreMarked region blocks number pack → ⊥)
        (λ r. (r.0 ≡ blocks) × (r.1 ≡ pack) × AreMarked region blocks number pack) }
{
    let are_places = 1 <= region && region < END && 1 <= number && number < END;
    if are_places && 1 <= blocks && blocks <= 65 && 1 <= pack && pack <= 16 {
        Some((blocks as u32, pack as u8))
    } else {
        None
    }
}

// The mark of a closed run, by what follows the word on its line.
fn closed_of(text: &str) -> Option<Mark>
    ensures spelt { IfSome result (Spells (codes "closed " ++ text.now)) }
    ensures read { (region blocks number pack : ℕ) → AreMarked region blocks number pack
        → text.now ≡ numbers_text region blocks number pack (codes "\n")
        → result ≡ Some (Mark.Closed region blocks number pack) }
{
    let (region, rest) = numbered(text)?;
    let (blocks, rest) = numbered(rest)?;
    let (number, rest) = numbered(rest)?;
    let pack = last_number(rest)?;
    let (count, rows) = sizes_of(region, blocks, number, pack)?;
    Some(Mark::Closed {
        region,
        blocks: count,
        number,
        pack: rows,
    })
}

// The same of a run that saved its tables.
fn saved_of(text: &str) -> Option<Mark>
    ensures spelt { IfSome result (Spells (codes "saved " ++ text.now)) }
    ensures read { (region blocks number pack : ℕ) (salt check : List ℕ)
        → AreMarked region blocks number pack → AreSaltBytes salt → AreSaltBytes check
        → text.now ≡ numbers_text region blocks number pack (codes " " ++ salts_text salt check)
        → result ≡ Some (Mark.Saved region blocks number pack salt check) }
{
    let (region, rest) = numbered(text)?;
    let (blocks, rest) = numbered(rest)?;
    let (number, rest) = numbered(rest)?;
    let (pack, rest) = numbered(rest)?;
    let (salt, rest) = salted(rest)?;
    let check = last_bytes(rest)?;
    let (count, rows) = sizes_of(region, blocks, number, pack)?;
    Some(Mark::Saved {
        region,
        blocks: count,
        number,
        pack: rows,
        salt,
        check,
    })
}

// The mark of a line that begins with a word and a blank.
fn named_of(line: &str) -> Option<Mark>
    ensures spelt { IfSome result (Spells line.now) }
    ensures closed { (region blocks number pack : ℕ)
        → Spells line.now (Mark.Closed region blocks number pack)
        → result ≡ Some (Mark.Closed region blocks number pack) }
    ensures saved { (region blocks number pack : ℕ) (salt check : List ℕ)
        → Spells line.now (Mark.Saved region blocks number pack salt check)
        → result ≡ Some (Mark.Saved region blocks number pack salt check) }
{
    let (head, rest) = word(line)?;
    if head == "closed" {
        closed_of(rest)
    } else if head == "saved" {
        saved_of(rest)
    } else {
        None
    }
}

/// The mark that a file with this text holds, if it is one line as `spell` writes it, of a mark within its limits.
pub fn mark_of(text: &[u8]) -> Option<Mark>
    ensures spelt { IfSome result (Spells text.now) }
    ensures read { (mark : HeldMark) → Spells text.now mark → result ≡ Some mark }
{
    let line = str::from_utf8(text).ok()?;
    if line == "in use\n" {
        Some(Mark::InUse)
    } else if line == "begun\n" {
        Some(Mark::Begun)
    } else {
        named_of(line)
    }
}
