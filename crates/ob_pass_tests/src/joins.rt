//! The join of two tables.
ghost use Rattle.ob_vault.specs.Places.{at};
ghost use Rattle.ob_pass_tests.specs.Tables.{HasTable, StartsIdle};

use crate::answers::emit_discard;
use crate::emitter::Calls;
use crate::room::make_room;
use crate::stop::Stop;
use crate::words::place_of;
use ob_flat::Flat;
use ob_join::join;
use ob_order::Order;
use ob_room::RowBuffer;
use ob_store::BlockStore;
use ob_vault::{Revisions, Vault};
use std::alloc::Global;

/// Joins two tables on the columns that a line names, and emits and discards what comes of it.
pub(crate) fn joined<S: BlockStore, R: Revisions>(
    alloc: Global,
    out: &mut String,
    store: &mut S,
    vault: &mut Vault<R>,
    room: &mut RowBuffer,
    left: &Flat,
    right: &Flat,
    line: &str,
    calls: Calls,
) -> Result<(), Stop>
    requires rest { StartsIdle room.old (at R.state vault.old (S.state store.old)) }
    requires left { HasTable room.old.pack left.now (at R.state vault.old (S.state store.old)) }
    requires right { HasTable room.old.pack right.now (at R.state vault.old (S.state store.old)) }
{
    let mut words = line.split_ascii_whitespace();
    if words.next() != Some("join") {
        return Err(Stop::Unread);
    }
    let Some(lcol) = place_of(&left.schema, words.next().unwrap_or("")) else {
        return Err(Stop::Unread);
    };
    let Some(rcol) = place_of(&right.schema, words.next().unwrap_or("")) else {
        return Err(Stop::Unread);
    };
    make_room(store)?;
    let Ok(mut order) = Order::new(alloc, room.rows()) else {
        return Err(Stop::Memory);
    };
    let result = join(store, vault, room, &mut order, left, right, lcol, rcol)?;
    emit_discard(alloc, out, store, vault, room, result, words, calls)
}
