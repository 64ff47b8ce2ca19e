//! Why an engine was not opened or closed.
ghost use Rattle.std.specs.Prelude.{◌≡◌};
ghost use Rattle.ob_reopen.specs.Writings.{close_error};

use ob_vault::VaultErr;
use thiserror::Error;

/// Why an engine was not opened.
#[derive(Clone, Copy, Debug, PartialEq, Eq, Error)]
pub enum OpenErr {
    /// The store failed, or doesn't keep a region of this number and size.
    #[error("the store failed")]
    Failed,
    /// The block that the store gave has not the tag of its place in the closing, or spells no closing.
    #[error("the block at place {place} of region {region} was changed")]
    Tampered { region: u64, place: u32 },
    #[error("out of memory")]
    NoMemory,
}

/// Why an engine was not closed.
#[derive(Clone, Copy, Debug, PartialEq, Eq, Error)]
pub enum CloseErr {
    #[error("the store failed")]
    Failed,
    #[error("out of memory")]
    NoMemory,
}

impl From<VaultErr> for OpenErr {
    ghost use Rattle.std.specs.Prelude.{◌≡◌};
    ghost use Rattle.ob_reopen.specs.Openings.{open_error};

    ghost from_gives = { λ v e. e ≡ open_error v };

    fn from(e: VaultErr) -> Self {
        match e {
            VaultErr::Failed => OpenErr::Failed,
            VaultErr::Tampered { region, place } => OpenErr::Tampered { region, place },
            VaultErr::NoMemory => OpenErr::NoMemory,
        }
    }
}

/// The same error of a closing, which reads nothing.
pub(crate) fn close_error(e: VaultErr) -> CloseErr
    ensures { result ≡ close_error e }
{
    match e {
        VaultErr::Failed | VaultErr::Tampered { .. } => CloseErr::Failed,
        VaultErr::NoMemory => CloseErr::NoMemory,
    }
}
