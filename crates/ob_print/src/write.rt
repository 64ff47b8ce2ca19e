//! Bytes that are written whole.
ghost use Rattle.std.specs.Prelude.{◌≡◌, ◌<◌, [], OnOk, IsErr, IsOk};
ghost use Rattle.std.specs.Io.KnownBytes.{Appends};
ghost use Rattle.ob_io.specs.Causes.{HasCause};
ghost use Rattle.ob_print.specs.Cuts.{Outputs};

use ob_base::Failed;
use ob_io::Sink;

/// Writes all of the piece, unless a call fails. No call is made for an empty piece.
pub fn write_all<K: Sink>(out: &mut K, piece: &[u8]) -> Result<(), Failed>
    ensures ok { OnOk result (Appends (K.written out.old) (K.written out.new) piece.now) }
    ensures empty { piece.now ≡ [] → IsOk result }
    ensures cut { Outputs (K.written out.old) (K.written out.new) (IsErr result) piece.now }
    ensures cause { HasCause (K.faults out.old) (K.faults out.new) result }
{
    let mut rest = piece;
    while !rest.is_empty() {
        let n = out.write(rest)?;
        rest = &rest[n..];
    }
    Ok(())
}
