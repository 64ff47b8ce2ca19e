//! The passes that change a table or count its rows.
ghost use Rattle.std.specs.Prelude.{OnOk};
ghost use Rattle.ob_vault.specs.Places.{at};
ghost use Rattle.ob_pass_tests.specs.Tables.{Changed, HasTable, StartsIdle};

use crate::cells::{cells_of, set_of};
use crate::room::make_room;
use crate::stop::Stop;
use crate::words::parted;
use ob_flat::{Flat, count};
use ob_mutate::{Former, Inserted, delete, insert, update};
use ob_room::RowBuffer;
use ob_store::BlockStore;
use ob_vault::{Revisions, Vault};
use std::alloc::Global;

/// Whether a line is one of a step.
pub(crate) fn is_step(word: &str) -> bool {
    matches!(word, "insert" | "update" | "delete" | "count")
}

fn say_rows(out: &mut String, rows: u64) -> Result<(), Stop> {
    Ok(write!(out, "{rows}")?)
}

fn say_inserted(out: &mut String, inserted: Inserted) -> Result<(), Stop> {
    Ok(write!(out, "{inserted:?}")?)
}

/// Does what a line says to a table. The tables beside it stay.
pub(crate) fn step<S: BlockStore, R: Revisions>(
    alloc: Global,
    out: &mut String,
    store: &mut S,
    vault: &mut Vault<R>,
    room: &mut RowBuffer,
    flat: &mut Flat,
    line: &str,
) -> Result<(), Stop>
    requires rest { StartsIdle room.old (at R.state vault.old (S.state store.old)) }
    requires table { HasTable room.old.pack flat.old (at R.state vault.old (S.state store.old)) }
    ensures { OnOk result (Changed room.old room.new flat.old flat.new
        (at R.state vault.old (S.state store.old)) (at R.state vault.new (S.state store.new))) }
{
    let Some((mut words, pred)) = parted(line, &flat.schema) else {
        return Err(Stop::Unread);
    };
    make_room(store)?;
    match words.next() {
        Some("insert") => {
            let cells = cells_of(alloc, &flat.schema, &mut words)?;
            let inserted = insert(store, vault, room, flat, cells.as_slice(), Former::Discard)?;
            say_inserted(out, inserted)
        }
        Some("update") => {
            let Some(sets) = set_of(&flat.schema, &mut words) else {
                return Err(Stop::Unread);
            };
            let rows = update(store, vault, room, flat, &pred, &sets, Former::Discard)?;
            say_rows(out, rows)
        }
        Some("delete") => {
            let rows = delete(store, vault, room, flat, &pred, Former::Discard)?;
            say_rows(out, rows)
        }
        Some("count") => {
            let counted = count(store, vault, room, flat, &pred)?;
            say_rows(out, u64::from(counted.k))
        }
        _ => Err(Stop::Unread),
    }
}
