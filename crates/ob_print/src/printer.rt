//! Answers as lines of CSV.
ghost use Rattle.std.specs.Prelude.{◌≡◌, map, IsErr};
ghost use Rattle.csv.specs.Writing.{row_text};
ghost use Rattle.ob_base.specs.Events.{EmitCause};
ghost use Rattle.ob_print.specs.Rows.{Printed, PrintedCut, always};
ghost use Rattle.ob_print.specs.Sent.{Sends};

use crate::line::rows_line;
use crate::pieces::Pieces;
use crate::row::{Field, RecordLine};
use ob_base::{Emit, EmitErr, Failed, Label, NoMemory, Shown};
use ob_io::Sink;

/// Prints header, rows and their number as lines, of which some may wait for their sink until they are flushed.
#[derive(Drop)]
pub struct Printer<'a, K: Sink> {
    pub out: Pieces<'a, K>,
    pub line: &'a mut RecordLine,
}

// Writes a line.
fn emit_line<K: Sink>(out: &mut Pieces<'_, K>, line: &[u8]) -> Result<(), EmitErr>
    ensures same_sink { out.new.out.ghost_name ≡ out.old.out.ghost_name }
    ensures sends { Sends (K.written out.old.out.now) (K.written out.new.out.now)
        out.old.waiting.items out.new.waiting.items (IsErr result) line.now }
    ensures cause { EmitCause result (K.faults out.old.out.now) (K.faults out.new.out.now) }
{
    match out.write_all(line) {
        Ok(()) => Ok(()),
        Err(Failed) => Err(EmitErr::Failed),
    }
}

// Writes the line of these fields.
fn emit_record<K: Sink, F: Field>(
    out: &mut Pieces<'_, K>,
    line: &mut RecordLine,
    fields: &[F],
) -> Result<(), EmitErr>
    ensures same_sink { out.new.out.ghost_name ≡ out.old.out.ghost_name }
    ensures sends { Sends (K.written out.old.out.now) (K.written out.new.out.now)
        out.old.waiting.items out.new.waiting.items (IsErr result)
        (row_text always (map F.text fields.now)) }
    ensures cause { EmitCause result (K.faults out.old.out.now) (K.faults out.new.out.now) }
{
    match line.write(fields) {
        Ok(()) => emit_line(out, line.as_bytes()),
        Err(NoMemory) => Err(EmitErr::NoMemory),
    }
}

impl<'a, K: Sink> Emit for Printer<'a, K> {
    ghost grew = { λ s t events. Printed (K.written s.out.out.now) (K.written t.out.out.now) s.out.waiting.items t.out.waiting.items events × (t.out.out.ghost_name ≡ s.out.out.ghost_name) };

    ghost cut = { λ s t events. PrintedCut (K.written s.out.out.now) (K.written t.out.out.now) s.out.waiting.items t.out.waiting.items events × (t.out.out.ghost_name ≡ s.out.out.ghost_name) };

    ghost faults = { λ s. K.faults s.out.out.now };

    fn head(&mut self, cols: &[Label]) -> Result<(), EmitErr> {
        emit_record(&mut self.out, self.line, cols)
    }

    fn row(&mut self, cells: &[Shown]) -> Result<(), EmitErr> {
        emit_record(&mut self.out, self.line, cells)
    }

    fn close(&mut self, k: u64) -> Result<(), EmitErr> {
        let line = rows_line(k);
        emit_line(&mut self.out, line.as_bytes())
    }

    ghost use Rattle.std.specs.Prelude.{refl};
    ghost use Rattle.ob_print.specs.Rows.{printed_none};

    ghost starts = { λ s. (printed_none (K.written s.out.out.now) s.out.waiting.items, refl) };
}
