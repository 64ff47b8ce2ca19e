//! Which INSERTs are served together.
ghost use Rattle.std.specs.Prelude.{◌≡◌, ◌≤◌, ◌+◌, ◌*◌};
ghost use Rattle.ob_mean.specs.Batches.{batch_most, begins_batch};
ghost use Rattle.ob_tables.specs.Agreeing.{count_of, public_of};

use ob_base::Public;
use ob_mean::{early_refusal, is_index};
use ob_sql::Stmt;
use ob_store::BlockStore;
use ob_tables::{Engine, LATE};
use ob_vault::Revisions;

// From so many accesses on a batch might come to be late.
const LATE_FOR_BATCHES: u64 = LATE - (1 << 50);

/// As many INSERTs as are served together, at most: as many as the settings say, and one at least.
pub fn batch_most(public: &Public) -> u64
    ensures { result ≡ batch_most public.now }
{
    match public.batch {
        None => 1,
        Some(most) => {
            let rows = u64::from(public.buffer).saturating_sub(u64::from(public.pack));
            u64::from(most).min(rows).max(1)
        }
    }
}

/// Whether an INSERT begins a batch: one into a flat table that isn't refused before any access, where INSERTs are served
/// together.
pub fn begins_batch<R: Revisions, S: BlockStore>(engine: &Engine<R>, store: &S, stmt: &Stmt) -> bool
    requires pack { 1 ≤ (public_of engine.now).pack }
    requires buffer { 3 * (public_of engine.now).pack + 1 ≤ (public_of engine.now).buffer }
    ensures { result ≡ begins_batch (public_of engine.now)
        (count_of engine.now (S.state store.now)) stmt.now }
{
    let Stmt::Insert { table, .. } = stmt else {
        return false;
    };
    let public = engine.public();
    if batch_most(public) < 2 {
        return false;
    }
    if engine.vault.spent(store) >= LATE_FOR_BATCHES {
        return false;
    }
    if is_index(public.tables.as_slice(), table) {
        return false;
    }
    early_refusal(false, public, stmt).is_none()
}
