//! Lines that are built in place.
ghost use Rattle.std.specs.Prelude.{◌≡◌, ◌+◌, ◌≤◌, ℕ, List, ◌++◌, length, codes, decimal};
ghost use Rattle.ob_print.specs.Lines;

use itoa::{Buffer, Integer};
use ob_base::{Access, Refusal, Stop};
use std::marker::Model;

/// A line that is built in place, of at most 80 bytes.
#[derive(Drop)]
pub struct Line {
    bytes: [u8; 80],
    len: usize,
}

impl Model for Line {
    ghost use Rattle.std.specs.Prelude.{ℕ, ◌≤◌, List, take};

    ghost Value = { List ℕ };

    ghost view = { λ l. take l.len l.bytes };

    ghost invariant = { λ l. l.len ≤ 80 };
}

impl Line {
    /// A line that begins so.
    pub fn new(start: &[u8]) -> Line
        requires { length start.now ≤ 32 }
        ensures { result ≡ start.now }
    {
        let mut line = Line {
            bytes: [0; 80],
            len: 0,
        };
        line.push(start);
        line
    }

    /// Adds bytes.
    pub fn push(&mut self, piece: &[u8])
        requires { length self.old + length piece.now ≤ 80 }
        ensures { self.new ≡ self.old ++ piece.now }
    {
        let to = self.len + piece.len();
        self.bytes[self.len..to].copy_from_slice(piece);
        self.len = to;
    }

    /// Adds a number in decimal, and what follows it.
    pub fn push_number<I: Integer>(&mut self, n: I, end: &[u8])
        requires { (length self.old ≤ 38) × (length end.now ≤ 1) }
        ensures text { self.new ≡ self.old ++ (I.text n ++ end.now) }
        ensures room { length self.new ≤ length self.old + (I.MAX_STR_LEN + 1) }
    {
        let mut buffer = Buffer::new();
        self.push(buffer.format(n).as_bytes());
        self.push(end);
    }

    /// Its bytes.
    pub fn as_bytes(&self) -> &[u8]
        ensures { result.now ≡ self.now }
    {
        &self.bytes[..self.len]
    }
}

// A word and a number.
fn numbered(start: &[u8], n: u32) -> Line
    requires { length start.now ≤ 32 }
    ensures { result ≡ start.now ++ (decimal n ++ codes "\n") }
{
    let mut line = Line::new(start);
    line.push_number(n, b"\n");
    line
}

// A word, a region, the number of its blocks and their length.
fn sized(start: &[u8], region: u64, blocks: u32, len: u32) -> Line
    requires { length start.now ≤ 6 }
    ensures { result ≡ start.now ++ (decimal region ++ (codes " "
        ++ (decimal blocks ++ (codes " " ++ (decimal len ++ codes "\n"))))) }
{
    let mut line = Line::new(start);
    line.push_number(region, b" ");
    line.push_number(blocks, b" ");
    line.push_number(len, b"\n");
    line
}

// A word, a region and a place in it.
fn placed(start: &[u8], region: u64, place: u32) -> Line
    requires { length start.now ≤ 16 }
    ensures { result ≡ start.now ++
        (decimal region ++ (codes " " ++ (decimal place ++ codes "\n"))) }
{
    let mut line = Line::new(start);
    line.push_number(region, b" ");
    line.push_number(place, b"\n");
    line
}

/// The line that ends the rows of an answer.
pub fn rows_line(k: u64) -> Line
    ensures { result ≡ Lines.rows_line k }
{
    let mut line = Line::new(b"= ");
    line.push_number(k, b" ");
    line.push(b"rows\n");
    line
}

/// The line of an access in the trace.
pub fn access_line(access: Access) -> Line
    ensures { result ≡ Lines.access_line access }
{
    match access {
        Access::Make {
            region,
            blocks,
            len,
        } => sized(b"M ", region, blocks, len),
        Access::Open {
            region,
            blocks,
            len,
        } => sized(b"O ", region, blocks, len),
        Access::Read { region, place } => placed(b"R ", region, place),
        Access::Write { region, place } => placed(b"W ", region, place),
        Access::Discard { region } => {
            let mut line = Line::new(b"D ");
            line.push_number(region, b"\n");
            line
        }
    }
}

/// The line of a refused statement.
pub fn refusal_line(refusal: Refusal) -> Line
    ensures { result ≡ Lines.refusal_line refusal }
{
    match refusal {
        Refusal::Syntax(at) => numbered(b"E01 syntax ", at),
        Refusal::NoTable => Line::new(b"E02 no table\n"),
        Refusal::NameTaken => Line::new(b"E03 name taken\n"),
        Refusal::NoColumn => Line::new(b"E04 no column\n"),
        Refusal::WrongType => Line::new(b"E05 wrong type\n"),
        Refusal::ValueRange => Line::new(b"E06 out of range\n"),
        Refusal::Limit => Line::new(b"E07 limit\n"),
        Refusal::KeyRule => Line::new(b"E08 key rule\n"),
        Refusal::JoinKey => Line::new(b"E09 join key\n"),
        Refusal::Duplicate => Line::new(b"E10 duplicate\n"),
        Refusal::Full => Line::new(b"E11 full\n"),
        Refusal::TooManyGroups => Line::new(b"E12 too many groups\n"),
        Refusal::NotConsecutive => Line::new(b"E13 not consecutive\n"),
        Refusal::Overflow(slot) => numbered(b"E14 overflow ", slot),
        Refusal::StoreFault => Line::new(b"E15 store fault\n"),
        Refusal::PadPassed => Line::new(b"E16 pad passed\n"),
        Refusal::KeyRange => Line::new(b"E17 key range\n"),
        Refusal::NeedsKey => Line::new(b"E18 needs key\n"),
    }
}

/// The last line of a session that stopped; it is empty after a sink's fault.
pub fn stop_line(stop: Stop) -> Line
    ensures { result ≡ Lines.stop_line stop }
{
    match stop {
        Stop::Tampered { region, place } => placed(b"! tampered ", region, place),
        Stop::SourceFault => Line::new(b"! source fault\n"),
        Stop::SinkFault => Line::new(b""),
        Stop::NoMemory => Line::new(b"! no memory\n"),
        Stop::InputLimit => Line::new(b"! input limit\n"),
        Stop::StoreFault => Line::new(b"! store fault\n"),
        Stop::StashFull => Line::new(b"! stash full\n"),
        Stop::KeeperFault => Line::new(b"! keeper fault\n"),
    }
}
