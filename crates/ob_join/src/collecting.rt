//! A chunk of left blocks, read and kept.
ghost use Rattle.std.specs.Prelude.{◌≡◌, ◌≤◌, ◌+◌, ◌*◌, length};
ghost use Rattle.ob_base.specs.Schemas.{width};
ghost use Rattle.ob_vault.specs.Places.{at};
ghost use Rattle.ob_vault.specs.Rows.{SameSizes, Wide};
ghost use Rattle.ob_flat.specs.Words.{HasSpare, IsTable, blocks_of};
ghost use Rattle.ob_join.specs.Join.{Collects};

use ob_flat::{Flat, OpErr, check_rows};
use ob_room::ClearRow;
use ob_row::Malformed;
use ob_store::BlockStore;
use ob_vault::{Revisions, Vault};

// Reads `n` blocks of a table from place `first` on, in order, into these rows, as many as they have.
pub(crate) fn collect_chunk<S: BlockStore, R: Revisions>(
    store: &mut S,
    vault: &mut Vault<R>,
    kept: &mut [ClearRow],
    pack: u32,
    flat: &Flat,
    first: u32,
    n: u32,
) -> Result<(), OpErr>
    requires spare { HasSpare n (at R.state vault.old (S.state store.old)) }
    requires table { IsTable pack flat.now (at R.state vault.old (S.state store.old)) }
    requires within { first + n ≤ blocks_of pack flat.now }
    requires space { length kept.old ≡ n * pack }
    requires wide { Wide (width flat.now.schema) kept.old }
    ensures kept { SameSizes kept.old kept.new }
    ensures collects { Collects pack flat.now first n kept.new result
        (at R.state vault.old (S.state store.old)) (at R.state vault.new (S.state store.new)) }
{
    for x in 0..n {
        let row = (x * pack) as usize;
        let rows = &mut kept[row..row + pack as usize];
        vault.get(store, flat.region, first + x, rows)?;
        match check_rows(&flat.schema, rows) {
            Ok(()) => {}
            Err(Malformed) => {
                return Err(OpErr::Tampered {
                    region: flat.region,
                    place: first + x,
                });
            }
        }
    }
    Ok(())
}
