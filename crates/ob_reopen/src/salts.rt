//! The regions that a run goes on from, each with the salt of the run that made it.
ghost use Rattle.std.specs.Prelude.{◌≡◌, IfOk};
ghost use Rattle.ob_reopen.specs.Saved.{salted_regions};

use crate::closing::Closing;
use crate::listed::Listed;
use ob_base::NoMemory;
use ob_seal::Salted;
use std::alloc::Global;

/// The region of a closing, which a run with this salt wrote or one without any, and those of the tables that it lists:
/// with their salts the keys are derived of a run that goes on from them.
pub fn salted_regions(
    alloc: Global,
    closing: Closing,
    closed: Option<[u8; 16]>,
    listed: &[Listed],
) -> Result<Vec<Salted>, NoMemory>
    ensures { IfOk result (λ regions. regions.items ≡ salted_regions closed closing listed.now) }
{
    let Ok(mut regions) = Vec::with_capacity(alloc, listed.len() + 1) else {
        return Err(NoMemory);
    };
    regions.push_reserved(Salted {
        region: closing.region,
        salt: closed,
    });
    'each: for i in 0..listed.len() {
        regions.push_reserved(Salted {
            region: listed[i].table.region,
            salt: listed[i].salt,
        });
    }
    Ok(regions)
}
