//! Bytes that wait for their sink.
ghost use Rattle.std.specs.Prelude.{◌≡◌, ◌+◌, ◌≤◌, [], length, IsErr, IsOk};
ghost use Rattle.ob_io.specs.Causes.{HasCause};
ghost use Rattle.ob_print.specs.Cuts.{Outputs};
ghost use Rattle.ob_print.specs.Sent.{Sends};

use crate::write::write_all;
use arrayvec::ArrayVec;
use ob_base::Failed;
use ob_io::Sink;

/// A sink that is handed its bytes in pieces of 8,192: they wait until there are as many, or until they are flushed.
#[derive(Drop)]
pub struct Pieces<'a, K: Sink> {
    pub out: &'a mut K,
    pub waiting: ArrayVec<u8, 8192>,
}

impl<'a, K: Sink> Pieces<'a, K> {
    /// Nothing waits yet.
    pub fn new(out: &'a mut K) -> Pieces<'a, K>
        ensures out { result.out ≡ out.entry }
        ensures waiting { result.waiting.items ≡ [] }
    {
        Pieces {
            out,
            waiting: ArrayVec::new(),
        }
    }

    /// Takes all of the piece, unless a call of the sink fails. No call is made as long as all of it can wait.
    pub fn write_all(&mut self, piece: &[u8]) -> Result<(), Failed>
        ensures same_sink { self.new.out.ghost_name ≡ self.old.out.ghost_name }
        ensures sends { Sends (K.written self.old.out.now) (K.written self.new.out.now)
            self.old.waiting.items self.new.waiting.items (IsErr result) piece.now }
        ensures late { length self.old.waiting.items + length piece.now ≤ 8192 →
            IsOk result × (self.new.out.now ≡ self.old.out.now) }
        ensures cause { HasCause (K.faults self.old.out.now) (K.faults self.new.out.now) result }
    {
        let mut rest = piece;
        while self.waiting.remaining_capacity() < rest.len() {
            let (front, later) = rest.split_at(self.waiting.remaining_capacity());
            let Ok(()) = self.waiting.try_extend_from_slice(front) else {
                unreachable!()
            };
            self.flush()?;
            rest = later;
        }
        let Ok(()) = self.waiting.try_extend_from_slice(rest) else {
            unreachable!()
        };
        Ok(())
    }

    /// Hands on all that waits, unless a call of the sink fails: then the rest of it is lost.
    pub fn flush(&mut self) -> Result<(), Failed>
        ensures same_sink { self.new.out.ghost_name ≡ self.old.out.ghost_name }
        ensures empty { self.new.waiting.items ≡ [] }
        ensures cut { Outputs (K.written self.old.out.now) (K.written self.new.out.now)
            (IsErr result) self.old.waiting.items }
        ensures cause { HasCause (K.faults self.old.out.now) (K.faults self.new.out.now) result }
    {
        let ran = write_all(self.out, self.waiting.as_slice());
        self.waiting.clear();
        ran
    }
}
