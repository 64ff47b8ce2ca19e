//! What a run over generated text comes to, and its lines.
ghost use Rattle.std.specs.Prelude.{◌≡◌, ◌≤◌, length, OnOk, IsErr};
ghost use Rattle.std.specs.List.{concat};
ghost use Rattle.std.specs.Io.KnownBytes.{Appends};
ghost use Rattle.ob_io.specs.Causes.{HasCause};
ghost use Rattle.ob_print.specs.Cuts.{Outputs};
ghost use Rattle.ob_gen.specs.SummaryText;
ghost use Rattle.ob_gen.specs.SummaryText.{summary_lines, summary_text};

use crate::tally::Tally;
use ob_base::Failed;
use ob_io::Sink;
use ob_print::{Line, write_all};

/// What a run comes to: its counts, and the SHA-256 (FIPS 180-4) of its trace's text.
#[derive(Clone, Copy, Debug, PartialEq, Eq)]
pub struct Summary {
    pub tally: Tally,
    pub accesses: u64,
    pub trace: [u8; 32],
}

// A name and a count.
fn count_line(name: &[u8], n: u64) -> Line
    requires { length name.now ≤ 16 }
    ensures { result ≡ SummaryText.count_line name.now n }
{
    let mut line = Line::new(name);
    line.push_number(n, b"\n");
    line
}

// A digest in hexadecimal digits.
fn trace_line(digest: &[u8; 32]) -> Line
    ensures { result ≡ SummaryText.trace_line digest.now }
{
    let mut text = [0; 64];
    let Ok(()) = hex::encode_to_slice(digest, &mut text) else {
        unreachable!()
    };
    let mut line = Line::new(b"trace ");
    line.push(&text);
    line.push(b"\n");
    line
}

// Writes all of the lines, unless a call fails.
fn write_lines<K: Sink>(lines: &[Line], out: &mut K) -> Result<(), Failed>
    ensures ok { OnOk result (Appends (K.written out.old) (K.written out.new) (concat lines.now)) }
    ensures cut { Outputs (K.written out.old) (K.written out.new) (IsErr result)
        (concat lines.now) }
    ensures cause { HasCause (K.faults out.old) (K.faults out.new) result }
{
    for line in lines {
        if let Err(failed) = write_all(out, line.as_bytes()) {
            return Err(failed);
        }
    }
    Ok(())
}

impl Summary {
    fn lines(&self) -> [Line; 9]
        ensures { result ≡ summary_lines self.now }
    {
        [
            count_line(b"statements ", self.tally.statements),
            count_line(b"refused ", self.tally.refused),
            count_line(b"rows ", self.tally.rows),
            count_line(b"accesses ", self.accesses),
            count_line(b"small ", self.tally.small),
            count_line(b"large ", self.tally.large),
            count_line(b"continuous ", self.tally.continuous),
            count_line(b"hash ", self.tally.hash),
            trace_line(&self.trace),
        ]
    }

    /// Writes it, a line for each count and one for the trace.
    pub fn write<K: Sink>(&self, out: &mut K) -> Result<(), Failed>
        ensures ok { OnOk result (Appends (K.written out.old) (K.written out.new)
            (summary_text self.now)) }
        ensures cut { Outputs (K.written out.old) (K.written out.new) (IsErr result)
            (summary_text self.now) }
        ensures cause { HasCause (K.faults out.old) (K.faults out.new) result }
    {
        write_lines(&self.lines(), out)
    }
}
