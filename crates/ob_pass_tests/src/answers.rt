//! The passes that answer rows and totals.
ghost use Rattle.std.specs.Prelude.{◌<◌, ◌≤◌, OnOk, length};
ghost use Rattle.ob_vault.specs.Places.{at};
ghost use Rattle.ob_group.specs.Grouping.{aggs_of};
ghost use Rattle.ob_group.specs.Running.{AreWithin};
ghost use Rattle.ob_pass_tests.specs.Tables.{Emitted, HasTable, StartsIdle, MayEmit};

use crate::emitter::{Calls, Shower, push_cells};
use crate::items::{aggregates_of, columns_of, items_of};
use crate::room::make_room;
use crate::stop::Stop;
use crate::words::{Words, place_of};
use ob_base::Shown;
use ob_emit::{emit_all, walk};
use ob_flat::{Flat, OpErr, discard};
use ob_group::{Grouped, aggregate, group};
use ob_order::Buckets;
use ob_room::RowBuffer;
use ob_row::{Item, Pred};
use ob_store::BlockStore;
use ob_vault::{Revisions, Vault};
use std::alloc::Global;

// Writes what was taken, and then what is answered.
fn say_taken(out: &mut String, shower: Shower, answer: Result<u64, OpErr>) -> Result<(), Stop> {
    out.push_str(shower.text.as_str())?;
    match answer {
        Ok(rows) => Ok(write!(out, "({rows})")?),
        Err(error) => Err(Stop::Pass(error)),
    }
}

/// Emits the columns of a region that words name.
pub(crate) fn emitted<S: BlockStore, R: Revisions>(
    alloc: Global,
    out: &mut String,
    store: &mut S,
    vault: &mut Vault<R>,
    room: &mut RowBuffer,
    flat: &Flat,
    words: Words<'_>,
    calls: Calls,
) -> Result<(), Stop>
    requires { MayEmit room.old flat.now (at R.state vault.old (S.state store.old)) }
    ensures { OnOk result (Emitted room.old.pack flat.now
        (at R.state vault.new (S.state store.new))) }
{
    let columns = columns_of(alloc, &flat.schema, words)?;
    make_room(store)?;
    let mut shower = Shower::new(alloc, calls);
    let rows = emit_all(store, vault, room, flat, columns.as_slice(), &mut shower);
    say_taken(out, shower, rows)
}

/// Emits the columns of a region that words name, and discards it.
pub(crate) fn emit_discard<S: BlockStore, R: Revisions>(
    alloc: Global,
    out: &mut String,
    store: &mut S,
    vault: &mut Vault<R>,
    room: &mut RowBuffer,
    flat: Flat,
    words: Words<'_>,
    calls: Calls,
) -> Result<(), Stop>
    requires { MayEmit room.old flat (at R.state vault.old (S.state store.old)) }
{
    emitted(alloc, out, store, vault, room, &flat, words, calls)?;
    make_room(store)?;
    Ok(discard(store, vault, flat)?)
}

/// Makes the reads of an emission.
pub(crate) fn walked<S: BlockStore, R: Revisions>(
    out: &mut String,
    store: &mut S,
    vault: &mut Vault<R>,
    room: &mut RowBuffer,
    flat: &Flat,
) -> Result<(), Stop>
    requires rest { StartsIdle room.old (at R.state vault.old (S.state store.old)) }
    requires table { HasTable room.old.pack flat.now (at R.state vault.old (S.state store.old)) }
{
    make_room(store)?;
    walk(store, vault, room, flat)?;
    Ok(out.push_str("walked")?)
}

fn say_totals(out: &mut String, totals: &[Shown]) -> Result<(), Stop> {
    push_cells(out, totals)?;
    Ok(write!(out, "({})", totals.len())?)
}

/// The aggregates that words spell, of the rows that make a condition true.
pub(crate) fn aggregated<S: BlockStore, R: Revisions>(
    alloc: Global,
    out: &mut String,
    store: &mut S,
    vault: &mut Vault<R>,
    room: &mut RowBuffer,
    flat: &Flat,
    words: Words<'_>,
    pred: &Pred,
) -> Result<(), Stop>
    requires rest { StartsIdle room.old (at R.state vault.old (S.state store.old)) }
    requires table { HasTable room.old.pack flat.now (at R.state vault.old (S.state store.old)) }
{
    let aggregates = aggregates_of(alloc, &flat.schema, words)?;
    make_room(store)?;
    let totals = aggregate(store, vault, room, flat, pred, aggregates.as_slice())?;
    say_totals(out, totals.as_slice())
}

// The groups by a column, each with these items.
fn group_by<S: BlockStore, R: Revisions>(
    alloc: Global,
    out: &mut String,
    store: &mut S,
    vault: &mut Vault<R>,
    room: &mut RowBuffer,
    flat: &Flat,
    pred: &Pred,
    key: u8,
    items: &[Item],
    calls: Calls,
) -> Result<(), Stop>
    requires rest { StartsIdle room.old (at R.state vault.old (S.state store.old)) }
    requires table { HasTable room.old.pack flat.now (at R.state vault.old (S.state store.old)) }
    requires key { key < length flat.now.schema }
    requires few { length items.now ≤ 32 }
    requires within { AreWithin (length flat.now.schema) (aggs_of items.now) }
{
    let Ok(mut buckets) = Buckets::new(alloc, room.rows()) else {
        return Err(Stop::Memory);
    };
    make_room(store)?;
    let mut shower = Shower::new(alloc, calls);
    let answer = group(
        store,
        vault,
        room,
        &mut buckets,
        flat,
        pred,
        key,
        items,
        &mut shower,
    );
    match answer {
        Ok(Grouped::Groups(groups)) => say_taken(out, shower, Ok(groups)),
        Ok(Grouped::TooMany) => Ok(out.push_str("too many groups")?),
        Err(error) => say_taken(out, shower, Err(error)),
    }
}

/// The groups by a column, of which the words spell the aggregates after its name, of such rows.
pub(crate) fn grouped<S: BlockStore, R: Revisions>(
    alloc: Global,
    out: &mut String,
    store: &mut S,
    vault: &mut Vault<R>,
    room: &mut RowBuffer,
    flat: &Flat,
    words: Words<'_>,
    pred: &Pred,
    calls: Calls,
) -> Result<(), Stop>
    requires rest { StartsIdle room.old (at R.state vault.old (S.state store.old)) }
    requires table { HasTable room.old.pack flat.now (at R.state vault.old (S.state store.old)) }
{
    let mut words = words;
    let Some(key) = place_of(&flat.schema, words.next().unwrap_or("")) else {
        return Err(Stop::Unread);
    };
    let aggregates = aggregates_of(alloc, &flat.schema, words)?;
    let items = items_of(alloc, &flat.schema, aggregates.as_slice())?;
    group_by(
        alloc,
        out,
        store,
        vault,
        room,
        flat,
        pred,
        key,
        items.as_slice(),
        calls,
    )
}
