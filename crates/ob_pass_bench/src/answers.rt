//! The passes that answer rows: aggregates, groups and emission.
ghost use Rattle.ob_vault.specs.Places.{at};
ghost use Rattle.ob_pass_bench.specs.Tables.{MayRun};

use crate::filling::make_room;
use crate::mutations::half;
use ob_base::{Emit, EmitErr, Failed, Label, Shown};
use ob_emit::emit_all;
use ob_flat::{Flat, OpErr};
use ob_group::{aggregate, group};
use ob_io::StdSink;
use ob_order::Buckets;
use ob_print::{Pieces, Printer, RecordLine};
use ob_room::RowBuffer;
use ob_row::{Agg, Item, Pred};
use ob_store::BlockStore;
use ob_vault::{Revisions, Vault};
use std::alloc::Global;
use std::io;

// Counts the rows that it takes.
#[derive(Clone, Copy, Debug, PartialEq, Eq)]
struct Counter {
    rows: u64,
}

impl Emit for Counter {
    ghost use Rattle.std.specs.Prelude.{⊤};

    ghost grew = { λ a b events. ⊤ };

    ghost cut = { λ a b events. ⊤ };

    ghost faults = { λ d. 0 };

    ghost starts = { λ d. tt };

    fn head(&mut self, _cols: &[Label]) -> Result<(), EmitErr> {
        Ok(())
    }

    fn row(&mut self, _cells: &[Shown]) -> Result<(), EmitErr> {
        self.rows = self.rows.saturating_add(1);
        Ok(())
    }

    fn close(&mut self, _k: u64) -> Result<(), EmitErr> {
        Ok(())
    }
}

/// Counts the rows, and sums up their keys.
pub(crate) fn total<S: BlockStore, R: Revisions>(
    store: &mut S,
    vault: &mut Vault<R>,
    room: &mut RowBuffer,
    flat: &Flat,
) -> Result<u64, OpErr>
    requires { MayRun room.old flat.now (at R.state vault.old (S.state store.old)) }
{
    make_room(store, u64::from(flat.capacity))?;
    let aggs = [Agg::CountAll, Agg::Sum(0)];
    let _totals = aggregate(store, vault, room, flat, &Pred::all(), &aggs)?;
    Ok(1)
}

/// Counts half of the rows, as an aggregate.
pub(crate) fn count_aggregate<S: BlockStore, R: Revisions>(
    store: &mut S,
    vault: &mut Vault<R>,
    room: &mut RowBuffer,
    flat: &Flat,
) -> Result<u64, OpErr>
    requires { MayRun room.old flat.now (at R.state vault.old (S.state store.old)) }
{
    make_room(store, u64::from(flat.capacity))?;
    let _total = aggregate(store, vault, room, flat, &half(), &[Agg::CountAll])?;
    Ok(1)
}

/// Counts the rows of each group, and sums up their keys. There are sixteen groups, or as many as rows.
pub(crate) fn groups<S: BlockStore, R: Revisions>(
    alloc: Global,
    store: &mut S,
    vault: &mut Vault<R>,
    room: &mut RowBuffer,
    flat: &Flat,
) -> Result<u64, OpErr>
    requires { MayRun room.old flat.now (at R.state vault.old (S.state store.old)) }
{
    make_room(store, u64::from(flat.capacity))?;
    let Ok(mut buckets) = Buckets::new(alloc, room.rows()) else {
        return Err(OpErr::NoMemory);
    };
    let items = [Item::Key, Item::Agg(Agg::CountAll), Item::Agg(Agg::Sum(0))];
    let all = Pred::all();
    let mut out = Counter { rows: 0 };
    let _answer = group(
        store,
        vault,
        room,
        &mut buckets,
        flat,
        &all,
        1,
        &items,
        &mut out,
    )?;
    Ok(out.rows)
}

// Emits all columns of the rows, and answers how many rows there are.
fn emit_columns<S: BlockStore, R: Revisions, E: Emit>(
    store: &mut S,
    vault: &mut Vault<R>,
    room: &mut RowBuffer,
    flat: &Flat,
    out: &mut E,
) -> Result<u64, OpErr>
    requires { MayRun room.old flat.now (at R.state vault.old (S.state store.old)) }
{
    make_room(store, u64::from(flat.capacity))?;
    let places = [0, 1, 2, 3, 4, 5];
    let cols = &places[..flat.schema.as_slice().len()];
    emit_all(store, vault, room, flat, cols, out)
}

/// Emits all columns of the rows.
pub(crate) fn emission<S: BlockStore, R: Revisions>(
    store: &mut S,
    vault: &mut Vault<R>,
    room: &mut RowBuffer,
    flat: &Flat,
) -> Result<u64, OpErr>
    requires { MayRun room.old flat.now (at R.state vault.old (S.state store.old)) }
{
    let mut out = Counter { rows: 0 };
    emit_columns(store, vault, room, flat, &mut out)?;
    Ok(out.rows)
}

/// Prints all columns of the rows for a sink that keeps nothing.
pub(crate) fn printing<S: BlockStore, R: Revisions>(
    alloc: Global,
    store: &mut S,
    vault: &mut Vault<R>,
    room: &mut RowBuffer,
    flat: &Flat,
) -> Result<u64, OpErr>
    requires { MayRun room.old flat.now (at R.state vault.old (S.state store.old)) }
{
    let mut sink = StdSink::new(io::sink());
    let mut line = RecordLine::new(alloc);
    let mut printer = Printer {
        out: Pieces::new(&mut sink),
        line: &mut line,
    };
    let rows = emit_columns(store, vault, room, flat, &mut printer)?;
    match printer.out.flush() {
        Ok(()) => Ok(rows),
        Err(Failed) => Err(OpErr::Sink),
    }
}
