//! The lines of a header and of rows.
ghost use Rattle.std.specs.Prelude.{◌≡◌, [], ◌++◌, map, OnErr, OnOk};
ghost use Rattle.csv.specs.Writing.{row_text, writer_under};
ghost use Rattle.ob_print.specs.Records.{IsBetween};
ghost use Rattle.ob_print.specs.Rows.{always, shown_text};

use csv::{QuoteStyle, Writer, WriterBuilder};
use itoa::Buffer;
use ob_base::{Label, NoMemory, Shown};
use std::alloc::Global;
use std::marker::Model;

/// What stands in a record.
pub trait Field {
    ghost use Rattle.std.specs.Prelude.{◌≡◌, ℕ, List};

    // What stands between its quotes.
    ghost text: { Self → List ℕ };

    /// Its bytes between the quotes, some of them spelt in the buffer.
    fn bytes<'a>(&'a self, buffer: &'a mut Buffer) -> &'a [u8]
        ensures { result.now ≡ text self.now };
}

impl Field for Label {
    ghost text = { λ label. label };

    fn bytes<'a>(&'a self, _buffer: &'a mut Buffer) -> &'a [u8] {
        self.as_bytes()
    }
}

impl Field for Shown {
    ghost text = { shown_text };

    fn bytes<'a>(&'a self, buffer: &'a mut Buffer) -> &'a [u8] {
        match self {
            Shown::Int(n) => buffer.format(*n).as_bytes(),
            Shown::Text(text) => text.as_bytes(),
            Shown::Null => b"NULL",
        }
    }
}

// A writer of records of any length, each field in quotes.
fn record_writer(alloc: Global) -> Writer<Vec<u8>>
    ensures between { IsBetween result }
    ensures empty { (writer_under result).items ≡ [] }
{
    WriterBuilder::new()
        .quote_style(QuoteStyle::Always)
        .flexible(true)
        .from_writer(Vec::new(alloc))
}

// Puts a writer that has written nothing in the place of another. (A call of its own, since it moves and clears the 8,192
// bytes of both their buffers.)
#[cold]
#[inline(never)]
fn renew(writer: &mut Writer<Vec<u8>>, alloc: Global)
    ensures between { IsBetween writer.new }
    ensures empty { (writer_under writer.new).items ≡ [] }
{
    *writer = record_writer(alloc);
}

// Writes a record and hands it on to the bytes below.
fn write_record<F: Field>(writer: &mut Writer<Vec<u8>>, fields: &[F]) -> Result<(), NoMemory>
    requires { IsBetween writer.old }
    ensures between { OnOk result (IsBetween writer.new) }
    ensures line { OnOk result ((writer_under writer.new).items
        ≡ (writer_under writer.old).items ++ row_text always (map F.text fields.now)) }
{
    let mut buffer = Buffer::new();
    for field in fields {
        match writer.write_field(field.bytes(&mut buffer)) {
            Ok(()) => {}
            Err(_) => return Err(NoMemory),
        }
    }
    match writer.end_record() {
        Ok(()) => {}
        Err(_) => return Err(NoMemory),
    }
    match writer.flush() {
        Ok(()) => Ok(()),
        Err(_) => Err(NoMemory),
    }
}

/// How many bytes of earlier lines may be kept.
const MOST_KEPT: usize = 32_768;

/// The line of a record. One writer writes one line after the other, after those that it keeps.
#[derive(Drop)]
pub struct RecordLine {
    writer: Writer<Vec<u8>>,
    from: usize,
    alloc: Global,
}

impl Model for RecordLine {
    ghost use Rattle.std.specs.Prelude.{ℕ, List, drop};
    ghost use Rattle.csv.specs.Writing.{writer_under};
    ghost use Rattle.ob_print.specs.Records.{HasLine};

    ghost Value = { List ℕ };

    ghost view = { λ l. drop l.from (writer_under l.writer).items };

    ghost invariant = { λ l. HasLine l.from l.writer };
}

impl RecordLine {
    /// No line is written yet.
    pub fn new(alloc: Global) -> RecordLine
        ensures { result ≡ [] }
    {
        RecordLine {
            writer: record_writer(alloc),
            from: 0,
            alloc,
        }
    }

    /// The line of these fields, each of them in quotes, in place of the one before; or none, where memory is short.
    pub fn write<F: Field>(&mut self, fields: &[F]) -> Result<(), NoMemory>
        ensures ok { OnOk result (self.new ≡ row_text always (map F.text fields.now)) }
        ensures err { OnErr result (self.new ≡ []) }
    {
        self.from = self.writer.get_ref().len();
        if self.from > MOST_KEPT {
            renew(&mut self.writer, self.alloc);
            self.from = 0;
        }
        let ran = write_record(&mut self.writer, fields);
        if ran.is_err() {
            renew(&mut self.writer, self.alloc);
            self.from = 0;
        }
        ran
    }

    /// Its bytes.
    pub fn as_bytes(&self) -> &[u8]
        ensures { result.now ≡ self.now }
    {
        &self.writer.get_ref()[self.from..]
    }
}
