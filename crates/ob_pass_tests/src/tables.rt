//! Tables that are made and changed.
ghost use Rattle.std.specs.Prelude.{OnOk, IfOk, IfSome};
ghost use Rattle.ob_vault.specs.Places.{at};
ghost use Rattle.ob_flat.specs.Flats.{IsSized};
ghost use Rattle.ob_pass_tests.specs.Tables.{Changed, HasTable, StartsIdle, IsSmall, Made};

use crate::columns::schema_of;
use crate::room::make_room;
use crate::steps::step;
use crate::stop::Stop;
use crate::words::number;
use ob_base::Schema;
use ob_flat::{Flat, create};
use ob_room::RowBuffer;
use ob_store::BlockStore;
use ob_vault::{Revisions, Vault};
use std::alloc::Global;

// The columns and the slots that a line gives a table, at most 16 of either.
fn heading(line: &str) -> Option<(Schema, u32)>
    ensures size { IfSome result (λ heading. IsSized heading.0 heading.1) }
    ensures small { IfSome result (λ heading. IsSmall heading.0 heading.1) }
{
    let mut words = line.split_ascii_whitespace();
    let _head = words.next()?;
    let slots = number(&mut words)?;
    let schema = schema_of(words)?;
    let columns = schema.as_slice().len();
    if slots < 1 || slots > 16 || columns < 1 || columns > 16 || schema.width() > 256 {
        return None;
    }
    Some((schema, slots))
}

// Does what lines say to a table, one after the other, and writes after each what came of it.
fn take_steps<S: BlockStore, R: Revisions>(
    alloc: Global,
    out: &mut String,
    store: &mut S,
    vault: &mut Vault<R>,
    room: &mut RowBuffer,
    flat: &mut Flat,
    lines: &[String],
) -> Result<(), Stop>
    requires rest { StartsIdle room.old (at R.state vault.old (S.state store.old)) }
    requires table { HasTable room.old.pack flat.old (at R.state vault.old (S.state store.old)) }
    ensures { OnOk result (Changed room.old room.new flat.old flat.new
        (at R.state vault.old (S.state store.old)) (at R.state vault.new (S.state store.new))) }
{
    for line in lines {
        write!(out, "\n{line} -> ")?;
        step(alloc, out, store, vault, room, flat, line.as_str())?;
    }
    Ok(())
}

/// Makes the table of the first line, and does to it what the others say. The tables that were there stay.
pub(crate) fn made<S: BlockStore, R: Revisions>(
    alloc: Global,
    out: &mut String,
    store: &mut S,
    vault: &mut Vault<R>,
    room: &mut RowBuffer,
    lines: &[String],
) -> Result<Flat, Stop>
    requires { StartsIdle room.old (at R.state vault.old (S.state store.old)) }
    ensures { IfOk result (λ flat. Made room.old room.new flat
        (at R.state vault.old (S.state store.old)) (at R.state vault.new (S.state store.new))) }
{
    let Some((line, steps)) = lines.split_first() else {
        return Err(Stop::Unread);
    };
    let Some((schema, slots)) = heading(line.as_str()) else {
        return Err(Stop::Unread);
    };
    make_room(store)?;
    let mut flat = create(store, vault, room, &schema, slots)?;
    write!(out, "{line} -> made")?;
    take_steps(alloc, out, store, vault, room, &mut flat, steps)?;
    Ok(flat)
}
