//! Listed tables, live again.
ghost use Rattle.std.specs.Prelude.{◌≤◌, ◌<◌, ◌+◌, ◌^◌, length};
ghost use Rattle.ob_vault.specs.Numbers.{spent};
ghost use Rattle.ob_vault.specs.Places.{at};
ghost use Rattle.ob_vault.specs.Resuming.{MayResume, ResumesRegion};
ghost use Rattle.ob_vault.specs.Tied.{Ready};
ghost use Rattle.ob_reopen.specs.Limits.{IsMarked, IsListed, IsCatalogue, blocks_of};
ghost use Rattle.ob_reopen.specs.Closings.{listed_region};
ghost use Rattle.ob_reopen.specs.Openings.{AwaitsTables, ReopensTables};

use crate::closing::Closing;
use crate::fault::OpenErr;
use crate::limits::blocks_of;
use crate::listed::Listed;
use ob_store::Lasting;
use ob_vault::{Order, Revisions, Vault, VaultErr};

// Makes the region of a table that the closing lists live again.
fn reopen_table<S: Lasting, R: Revisions>(
    store: &mut S,
    vault: &mut Vault<R>,
    closing: Closing,
    listed: &Listed,
) -> Result<(), VaultErr>
    requires marked { IsMarked closing }
    requires listed { IsListed closing listed.now }
    requires ready { Ready (at R.state vault.old (S.state store.old)) }
    requires spare { 1 ≤ (S.state store.old).spare }
    requires few { spent (at R.state vault.old (S.state store.old)) < 2 ^ 63 + 2 ^ 60 }
    requires may { MayResume listed.now.table.region (blocks_of closing.pack listed.now)
        listed.now.number (at R.state vault.old (S.state store.old)) }
    ensures resumes { ResumesRegion listed.now.table.region
        (listed_region closing.pack listed.now) listed.now.number result
        (at R.state vault.old (S.state store.old)) (at R.state vault.new (S.state store.new)) }
{
    let blocks = blocks_of(closing.pack, listed);
    let width = u32::from(closing.pack) * listed.table.heading.schema.width();
    vault.resume(
        store,
        listed.table.region,
        blocks,
        width,
        Order::Round,
        listed.number,
    )
}

/// Makes the regions of these tables, which the closing lists, live again, in order. `Failed` where the store failed,
/// or doesn't keep a region, and `NoMemory`.
pub fn reopen_tables<S: Lasting, R: Revisions>(
    store: &mut S,
    vault: &mut Vault<R>,
    closing: Closing,
    listed: &[Listed],
) -> Result<(), OpenErr>
    requires marked { IsMarked closing }
    requires catalogue { IsCatalogue closing listed.now }
    requires awaits { AwaitsTables closing (at R.state vault.old (S.state store.old)) }
    requires spare { length listed.now ≤ (S.state store.old).spare }
    ensures reopens { ReopensTables closing listed.now result
        (at R.state vault.old (S.state store.old)) (at R.state vault.new (S.state store.new)) }
{
    for i in 0..listed.len() {
        reopen_table(store, vault, closing, &listed[i])?;
    }
    Ok(())
}
