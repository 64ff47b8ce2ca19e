//! The error that is the store's fault.
ghost use Rattle.std.specs.Prelude.{◌≡◌};
ghost use Rattle.ob_stages.specs.Faults.{is_fault};

use ob_flat::OpErr;

/// Whether the store failed.
pub(crate) fn is_fault(error: OpErr) -> bool
    ensures { result ≡ is_fault error }
{
    match error {
        OpErr::Failed => true,
        OpErr::Tampered { .. } | OpErr::Sink | OpErr::NoMemory => false,
    }
}
