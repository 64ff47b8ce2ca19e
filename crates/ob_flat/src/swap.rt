//! The loop of passes that write a table anew.
ghost use Rattle.std.specs.Prelude.{◌≡◌, ◌≢◌, ◌≤◌, ◌*◌, ℕ, None, length};
ghost use Rattle.ob_vault.specs.Places.{at};
ghost use Rattle.ob_vault.specs.Rows.{SameSizes};
ghost use Rattle.ob_vault.specs.Words.{MayAsk};
ghost use Rattle.ob_flat.specs.Flats.{IsMade};
ghost use Rattle.ob_flat.specs.Words.{IsTable, FitBlock, blocks_of, moved};
ghost use Rattle.ob_flat.specs.Swaps.{Swaps};

use crate::change::{Change, change_rows};
use crate::fault::OpErr;
use crate::flat::Flat;
use ob_room::ClearRow;
use ob_row::Malformed;
use ob_store::BlockStore;
use ob_vault::{Revisions, Vault};

/// Reads each block of a table, in order, and writes it, changed or not, to the same place of another
/// region of its size, through these rows, of which there are as many as a block has. Answers how many
/// slots were counted. `Failed` where the store failed, and `Tampered` with the place of a block that is
/// not what was written there last, or that has a malformed row.
pub fn swap_blocks<S: BlockStore, R: Revisions, C: Change>(
    store: &mut S,
    vault: &mut Vault<R>,
    rows: &mut [ClearRow],
    flat: &Flat,
    to: u64,
    change: &C,
) -> Result<u32, OpErr>
    requires asks { MayAsk (2 * blocks_of (length rows.old) flat.now)
        (at R.state vault.old (S.state store.old)) }
    requires table { IsTable (length rows.old) flat.now (at R.state vault.old (S.state store.old)) }
    requires made { IsMade (length rows.old) (moved flat.now to)
        (at R.state vault.old (S.state store.old)) }
    requires apart { flat.now.region ≢ to }
    requires fit { FitBlock flat.now.schema rows.old }
    requires suits { C.Suits change.now flat.now.schema }
    requires past { (i : ℕ) → flat.now.capacity ≤ i → C.to change.now i None ≡ None }
    ensures rows { SameSizes rows.old rows.new }
    ensures swaps { Swaps (length rows.old) flat.now to (C.picks change.now) (C.to change.now)
        result (at R.state vault.old (S.state store.old))
        (at R.state vault.new (S.state store.new)) }
{
    let pack = rows.len() as u32;
    let blocks = flat.capacity.div_ceil(pack);
    let mut k = 0;
    for u in 0..blocks {
        vault.get(store, flat.region, u, rows)?;
        match change_rows(change, u * pack, &flat.schema, rows) {
            Ok(picked) => k += picked,
            Err(Malformed) => {
                return Err(OpErr::Tampered {
                    region: flat.region,
                    place: u,
                });
            }
        }
        vault.put(store, to, u, rows)?;
    }
    Ok(k)
}
