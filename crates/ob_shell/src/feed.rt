//! Single bytes from a source, of which no more than a limit are taken.
ghost use Rattle.std.specs.Prelude.{◌≡◌, ◌<◌, ◌≤◌, [], length};
ghost use Rattle.ob_shell.specs.Feeding.{Fed, FetchCause, IsFedBy, bytes_of};

use ob_base::Failed;
use ob_io::Source;
use std::marker::Model;

/// Why no further byte comes.
#[derive(Clone, Copy, Debug, PartialEq, Eq)]
pub enum Halt {
    SourceFault,
    InputLimit,
}

/// The bytes of the last read that were not handed on yet.
#[derive(Drop)]
pub struct Feed {
    chunk: [u8; 4096],
    from: usize,
    to: usize,
    taken: u64,
    limit: u64,
}

impl Model for Feed {
    ghost use Rattle.std.specs.Prelude.{◌-◌, ◌≤◌, take, drop};
    ghost use Rattle.ob_shell.specs.Feeding.{Fetch};

    ghost Value = { Fetch };

    ghost view = { λ f. record { unread = take (f.to - f.from) (drop f.from f.chunk); taken = f.taken; limit = f.limit } };

    ghost invariant = { λ f. (f.from ≤ f.to) × (f.to ≤ 4096) × (f.taken ≤ f.limit) };
}

impl Feed {
    /// A feed that takes at most so many bytes.
    pub fn new(limit: u64) -> Feed
        ensures unread { result.unread ≡ [] }
        ensures taken { result.taken ≡ 0 }
        ensures limit { result.limit ≡ limit }
    {
        Feed {
            chunk: [0; 4096],
            from: 0,
            to: 0,
            taken: 0,
            limit,
        }
    }

    /// The next byte, or `None` at the end. More is read only once all that was read was handed on.
    pub fn next<S: Source>(&mut self, source: &mut S) -> Result<Option<u8>, Halt>
        requires { IsFedBy self.old (S.gave source.old) }
        ensures lazy { 0 < length self.old.unread → source.new ≡ source.old }
        ensures fed_by { IsFedBy self.new (S.gave source.new) }
        ensures fed { Fed self.old self.new (S.left source.old) (S.left source.new)
            (bytes_of result) }
        ensures within { self.new.taken ≤ self.new.limit }
        ensures cause { FetchCause self.new (S.left source.new) (S.gave source.new)
            (S.faults source.old) (S.faults source.new) result }
    {
        if self.from == self.to {
            let room = self.limit - self.taken;
            if room == 0 {
                return Err(Halt::InputLimit);
            }
            let want = room.min(4096) as usize;
            match source.read(&mut self.chunk[..want]) {
                Ok(n) => {
                    self.from = 0;
                    self.to = n;
                    self.taken += n as u64;
                    if n == 0 {
                        return Ok(None);
                    }
                }
                Err(Failed) => return Err(Halt::SourceFault),
            }
        }
        let byte = self.chunk[self.from];
        self.from += 1;
        Ok(Some(byte))
    }
}
