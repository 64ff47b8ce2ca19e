//! Why a pass gave up.
use ob_vault::VaultErr;
use thiserror::Error;

/// Why a pass gave up: the store failed; a block was not what was last written to its place; the
/// emitter failed; or memory ran out.
#[derive(Clone, Copy, Debug, PartialEq, Eq, Error)]
pub enum OpErr {
    #[error("the store failed")]
    Failed,
    #[error("the block at place {place} of region {region} was changed")]
    Tampered { region: u64, place: u32 },
    #[error("the emitter failed")]
    Sink,
    #[error("out of memory")]
    NoMemory,
}

impl From<VaultErr> for OpErr {
    ghost use Rattle.std.specs.Prelude.{◌≡◌};
    ghost use Rattle.ob_flat.specs.Passes.{pass_error};

    ghost from_gives = { λ v e. e ≡ pass_error v };

    fn from(e: VaultErr) -> Self {
        match e {
            VaultErr::Failed => OpErr::Failed,
            VaultErr::Tampered { region, place } => OpErr::Tampered { region, place },
            VaultErr::NoMemory => OpErr::NoMemory,
        }
    }
}
