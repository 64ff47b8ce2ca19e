//! The select operators.
ghost use Rattle.std.specs.Prelude.{◌≡◌, IfOk};
ghost use Rattle.ob_vault.specs.Places.{at};
ghost use Rattle.ob_hash.specs.Answers.{flat_of};
ghost use Rattle.ob_pass_tests.specs.Tables.{Found, HasTable, StartsIdle};

use crate::room::make_room;
use crate::stop::Stop;
use ob_flat::Flat;
use ob_hash::Placed;
use ob_room::RowBuffer;
use ob_row::Pred;
use ob_store::BlockStore;
use ob_vault::{Revisions, Vault};

/// What an operator of this name selects, where it is asked for so many rows.
pub(crate) fn selected<S: BlockStore, R: Revisions>(
    store: &mut S,
    vault: &mut Vault<R>,
    room: &mut RowBuffer,
    flat: &Flat,
    pred: &Pred,
    operator: &str,
    k: u32,
) -> Result<Flat, Stop>
    requires rest { StartsIdle room.old (at R.state vault.old (S.state store.old)) }
    requires table { HasTable room.old.pack flat.now (at R.state vault.old (S.state store.old)) }
    ensures { IfOk result (λ found. Found 16 room.old room.new flat.now.schema found
        (at R.state vault.new (S.state store.new))) }
{
    if k < 1 || k > flat.capacity {
        return Err(Stop::Unread);
    }
    make_room(store)?;
    match operator {
        "small" => Ok(ob_small::select(store, vault, room, flat, pred, k)?),
        "padded" => Ok(ob_small::select_padded(store, vault, room, flat, pred, k)?),
        "large" => Ok(ob_large::select(store, vault, room, flat, pred, k)?),
        "continuous" => Ok(ob_cont::select(store, vault, room, flat, pred, k)?),
        _ => Err(Stop::Unread),
    }
}

// The region of what found a bucket, and which slot's row found none first.
fn parts(out: &mut String, placed: Placed) -> Result<Flat, Stop>
    ensures { IfOk result (λ found. found ≡ flat_of placed) }
{
    match placed {
        Placed::Done(flat) => Ok(flat),
        Placed::Overflow(flat, slot) => {
            write!(out, "no bucket for slot {slot}: ")?;
            Ok(flat)
        }
    }
}

/// What is selected into so many buckets of so many blocks.
pub(crate) fn hashed<S: BlockStore, R: Revisions>(
    out: &mut String,
    store: &mut S,
    vault: &mut Vault<R>,
    room: &mut RowBuffer,
    flat: &Flat,
    pred: &Pred,
    k: u32,
    depth: u32,
) -> Result<Flat, Stop>
    requires rest { StartsIdle room.old (at R.state vault.old (S.state store.old)) }
    requires table { HasTable room.old.pack flat.now (at R.state vault.old (S.state store.old)) }
    ensures { IfOk result (λ found. Found 2048 room.old room.new flat.now.schema found
        (at R.state vault.new (S.state store.new))) }
{
    if k < 1 || k > flat.capacity || depth < 1 || depth > 8 {
        return Err(Stop::Unread);
    }
    make_room(store)?;
    let placed = ob_hash::select(store, vault, room, flat, pred, k, depth as u8)?;
    parts(out, placed)
}
