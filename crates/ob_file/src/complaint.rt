//! What isn't right, and where.
ghost use Rattle.std.specs.Prelude.{◌≡◌, ◌++◌, ℕ, List, codes, map, OnOk, string_bytes};
ghost use Rattle.std.specs.Io.KnownBytes.{Appends};
ghost use Rattle.ob_file.specs.Complaints.{SaidOf, plain, whole};

use ob_base::Failed;
use ob_mark::put;
use std::alloc::AllocError;
use std::io::{Error, ErrorKind, Write};
use std::marker::Model;

/// A place, and what isn't right there. A place that there was no memory for is empty.
#[derive(Drop)]
pub struct Complaint {
    place: String,
    reason: Error,
}

impl Model for Complaint {
    ghost Value = { List ℕ };

    ghost view = { λ c. string_bytes c.place };
}

// The byte that is printed of one in a path: a line is to stay one.
fn plain(byte: u8) -> u8
    ensures { result ≡ plain byte }
{
    if byte < 32 || byte == 127 { b'?' } else { byte }
}

// Writes a text in one line.
fn put_plain<W: Write>(out: &mut W, text: &[u8]) -> Result<(), Failed>
    ensures { OnOk result
        (Appends (W.contents out.old) (W.contents out.new) (map plain text.now)) }
{
    match text.split_first() {
        None => put(out, b""),
        Some((first, text)) => {
            put(out, &[plain(*first)])?;
            put_plain(out, text)
        }
    }
}

// Adds these parts to a text.
fn push_all(text: &mut String, parts: &[&str]) -> Result<(), AllocError>
    ensures { OnOk result
        (string_bytes text.new ≡ string_bytes text.old ++ whole parts.now) }
{
    match parts.split_first() {
        None => Ok(()),
        Some((first, parts)) => {
            text.push_str(first)?;
            push_all(text, parts)
        }
    }
}

impl Complaint {
    /// One of nothing. The place takes its memory where this one does.
    pub fn new(place: String) -> Complaint
        ensures { result ≡ string_bytes place }
    {
        Complaint {
            place,
            reason: Error::from(ErrorKind::Other),
        }
    }

    /// Says this of the place whose path consists of these parts.
    pub fn say(&mut self, place: &[&str], reason: Error)
        ensures { SaidOf (whole place.now) self.new }
    {
        self.place.clear();
        if push_all(&mut self.place, place).is_err() {
            self.place.clear();
        }
        self.reason = reason;
    }

    /// Writes it in one line, after the name of a program.
    pub fn write<W: Write>(&self, out: &mut W, program: &str) -> Result<(), Failed> {
        put_plain(out, program.as_bytes())?;
        put(out, b": ")?;
        put_plain(out, self.place.as_bytes())?;
        match write!(out, ": {}\n", self.reason) {
            Ok(()) => Ok(()),
            Err(_) => Err(Failed),
        }
    }
}
