//! SELECT of rows, of a table or of a join.
ghost use Rattle.std.specs.Prelude.{◌≡◌, ◌≤◌, ◌⊎◌, ◌+◌, ◌*◌, None, true, false, OnOk, OnErr, IfErr};
ghost use Rattle.ob_base.specs.declared.seen.End.TheVariants.{Whole};
ghost use Rattle.ob_base.specs.declared.skeleton.Source.TheVariants.{Table as OneTable};
ghost use Rattle.ob_base.specs.Events.{Leads};
ghost use Rattle.ob_base.specs.Joins.{joined_blocks, joined_slots};
ghost use Rattle.ob_base.specs.Numbers.{blocks_for};
ghost use Rattle.ob_flat.specs.declared.fault.OpErr.TheVariants.{Sink, NoMemory};
ghost use Rattle.ob_flat.specs.Passes.{SinkCause};
ghost use Rattle.ob_sql.specs.declared.stmt.Stmt.TheVariants.{SelectRows as RowsStmt};
ghost use Rattle.ob_mean.specs.Prints.{is_join};
ghost use Rattle.ob_mean.specs.Verdict.{ended as seen_to};
ghost use Rattle.ob_mean.specs.Replay.{is_access};
ghost use Rattle.ob_sql.specs.Skeleton.{skeleton};
ghost use Rattle.ob_tables.specs.Agreeing.{Agrees, has_ended, public_of, world_of, count_of};
ghost use Rattle.ob_verdict.specs.Outcomes.{refusal_now};
ghost use Rattle.ob_tables.specs.Serving.{Serves};
ghost use Rattle.ob_exec.specs.Sources.{SelectsRows, UsesRoomFor, IsFew, closing, selected_outcome};

use ob_base::{Emit, EmitErr, End, Name, Public, Seen, Source};
use ob_flat::{Flat, OpErr};
use ob_mean::where_at;
use ob_names::{left_place, right_place};
use ob_order::Order;
use ob_select::{Query, Selected, padded_length, printed_places, select_from};
use ob_sql::SelectRows;
use ob_store::BlockStore;
use ob_tables::{Engine, RunStop, seen_to_end};
use ob_vault::Revisions;
use ob_verdict::Outcome;

// The number of the rows ends an answer; a refusal has none.
fn close_answer<E: Emit>(out: &mut E, selected: Selected) -> Result<(), OpErr>
    ensures ok { OnOk result (Leads E.grew E.grew out.old out.new (closing selected)) }
    ensures err { OnErr result (Leads E.grew E.cut out.old out.new (closing selected)) }
    ensures sink { SinkCause result (E.faults out.old) (E.faults out.new) }
    ensures never { IfErr result (λ e. (e ≡ Sink) ⊎ (e ≡ NoMemory)) }
    ensures few { IsFew selected }
{
    match selected {
        Selected::Rows(k) => match out.close(u64::from(k)) {
            Ok(()) => Ok(()),
            Err(EmitErr::Failed) => Err(OpErr::Sink),
            Err(EmitErr::NoMemory) => Err(OpErr::NoMemory),
        },
        Selected::Refused(_) => Ok(()),
    }
}

fn outcome_of(selected: Selected) -> Outcome
    ensures { result ≡ selected_outcome selected }
{
    match selected {
        Selected::Rows(k) => Outcome::Rows(u64::from(k)),
        Selected::Refused(refusal) => Outcome::Refused(refusal),
    }
}

// How many blocks a joined table has.
fn joined_blocks(public: &Public, left: &Flat, right: &Flat) -> u64
    requires pack { (1 ≤ public.now.pack) × (public.now.pack ≤ 16) }
    requires buffer { 3 * public.now.pack + 1 ≤ public.now.buffer }
    requires left { left.now.capacity ≤ 1048576 }
    requires right { right.now.capacity ≤ 1048576 }
    ensures few { result ≤ 1099511627776 }
    ensures value { result ≡ joined_blocks public.now.pack public.now.buffer left.now.capacity
        right.now.capacity }
{
    let pack = u32::from(public.pack);
    let buffered = (public.buffer - 2 * pack) / pack;
    let chunks = left.capacity.div_ceil(pack).div_ceil(buffered);
    u64::from(chunks) * u64::from(right.capacity.div_ceil(pack))
}

// How many slots it has.
fn joined_slots(public: &Public, left: &Flat, right: &Flat) -> u32
    requires pack { (1 ≤ public.now.pack) × (public.now.pack ≤ 16) }
    requires buffer { 3 * public.now.pack + 1 ≤ public.now.buffer }
    requires left { left.now.capacity ≤ 1048576 }
    requires right { right.now.capacity ≤ 1048576 }
    requires few { joined_slots public.now.pack public.now.buffer left.now.capacity
        right.now.capacity ≤ 16777216 }
    ensures { result ≡ joined_slots public.now.pack public.now.buffer left.now.capacity
        right.now.capacity }
{
    (joined_blocks(public, left, right) * u64::from(public.pack)) as u32
}

// How many accesses there are of a join, of the count of its rows, and of the discard of its region.
fn join_accesses(public: &Public, left: &Flat, right: &Flat) -> u64
    requires pack { (1 ≤ public.now.pack) × (public.now.pack ≤ 16) }
    requires buffer { 3 * public.now.pack + 1 ≤ public.now.buffer }
    requires left { left.now.capacity ≤ 1048576 }
    requires right { right.now.capacity ≤ 1048576 }
    ensures { result ≡ blocks_for public.now.pack left.now.capacity
        + 3 * joined_blocks public.now.pack public.now.buffer left.now.capacity right.now.capacity
        + 2 }
{
    let lefts = left.capacity.div_ceil(u32::from(public.pack));
    u64::from(lefts) + 3 * joined_blocks(public, left, right) + 2
}

// The rows of a table.
fn select_table<S: BlockStore, R: Revisions, E: Emit>(
    engine: &mut Engine<R>,
    store: &mut S,
    select: &SelectRows,
    table: &Name,
    seen: &mut Seen,
    out: &mut E,
) -> Result<Selected, OpErr>
    requires agrees { Agrees R.state engine.old (S.state store.old) }
    requires allowed { refusal_now (public_of engine.old) (count_of engine.old (S.state store.old))
        (RowsStmt select.now) ≡ None }
    requires flat { is_access (public_of engine.old) (skeleton (RowsStmt select.now)) ≡ false }
    requires source { select.now.source ≡ OneTable table.now }
    requires fresh { seen.old ≡ seen_to Whole }
    ensures frame { engine.new
        ≡ record engine.old { vault = engine.new.vault; room = engine.new.room } }
    ensures room { UsesRoomFor engine.old.room engine.new.room
        (world_of R.state engine.old (S.state store.old))
        (world_of R.state engine.new (S.state store.new)) }
    ensures selects { SelectsRows E.grew E.cut E.faults (public_of engine.old) select.now
        result seen.new (world_of R.state engine.old (S.state store.old))
        (world_of R.state engine.new (S.state store.new)) out.old out.new }
{
    let (_, flat) = engine.table_at(table);
    let columns = flat.schema.as_slice();
    let Ok(pred) = where_at(engine.alloc, &select.cond, columns, &[]) else {
        return Err(OpErr::NoMemory);
    };
    let cols = printed_places(select, columns, &[]);
    let blocks = u64::from(flat.capacity.div_ceil(u32::from(engine.public.pack)));
    let padded = padded_length(&engine.public, flat.capacity);
    if store.reserve(blocks + padded).is_err() {
        return Err(OpErr::NoMemory);
    }
    let query = Query {
        flat: &flat,
        pred: &pred,
        cols: cols.as_slice(),
        ending: 0,
    };
    select_from(
        store,
        &mut engine.vault,
        &mut engine.room,
        &engine.public,
        &query,
        seen,
        out,
    )
}

// The rows of a join: they are put into a fresh region, which is discarded at the end.
fn select_join<S: BlockStore, R: Revisions, E: Emit>(
    engine: &mut Engine<R>,
    store: &mut S,
    select: &SelectRows,
    seen: &mut Seen,
    out: &mut E,
) -> Result<Selected, OpErr>
    requires agrees { Agrees R.state engine.old (S.state store.old) }
    requires allowed { refusal_now (public_of engine.old) (count_of engine.old (S.state store.old))
        (RowsStmt select.now) ≡ None }
    requires flat { is_access (public_of engine.old) (skeleton (RowsStmt select.now)) ≡ false }
    requires joins { is_join select.now.source ≡ true }
    requires fresh { seen.old ≡ seen_to Whole }
    ensures frame { engine.new
        ≡ record engine.old { vault = engine.new.vault; room = engine.new.room } }
    ensures room { UsesRoomFor engine.old.room engine.new.room
        (world_of R.state engine.old (S.state store.old))
        (world_of R.state engine.new (S.state store.new)) }
    ensures selects { SelectsRows E.grew E.cut E.faults (public_of engine.old) select.now
        result seen.new (world_of R.state engine.old (S.state store.old))
        (world_of R.state engine.new (S.state store.new)) out.old out.new }
{
    let Source::Join {
        left,
        right,
        on,
        equals,
    } = &select.source
    else {
        unreachable!()
    };
    let (_, left) = engine.table_at(left);
    let (_, right) = engine.table_at(right);
    let (columns, others) = (left.schema.as_slice(), right.schema.as_slice());
    let Ok(pred) = where_at(engine.alloc, &select.cond, columns, others) else {
        return Err(OpErr::NoMemory);
    };
    let Ok(mut order) = Order::new(engine.alloc, engine.room.rows()) else {
        return Err(OpErr::NoMemory);
    };
    let cols = printed_places(select, columns, others);
    let lcol = left_place(on, equals, columns, others) as u8;
    let rcol = right_place(on, equals, columns, others) as u8;
    let accesses = join_accesses(&engine.public, &left, &right);
    let padded = padded_length(&engine.public, joined_slots(&engine.public, &left, &right));
    if store.reserve(accesses + padded).is_err() {
        return Err(OpErr::NoMemory);
    }
    let joined = match ob_join::join(
        store,
        &mut engine.vault,
        &mut engine.room,
        &mut order,
        &left,
        &right,
        lcol,
        rcol,
    ) {
        Ok(joined) => joined,
        Err(error) => return Err(error),
    };
    let query = Query {
        flat: &joined,
        pred: &pred,
        cols: cols.as_slice(),
        ending: 1,
    };
    match select_from(
        store,
        &mut engine.vault,
        &mut engine.room,
        &engine.public,
        &query,
        seen,
        out,
    ) {
        Ok(selected) => {
            let _ = ob_flat::discard(store, &mut engine.vault, joined);
            Ok(selected)
        }
        Err(error) => {
            engine.vault.forget(joined.region);
            Err(error)
        }
    }
}

// The rows of a source.
fn select_source<S: BlockStore, R: Revisions, E: Emit>(
    engine: &mut Engine<R>,
    store: &mut S,
    select: &SelectRows,
    seen: &mut Seen,
    out: &mut E,
) -> Result<Selected, OpErr>
    requires agrees { Agrees R.state engine.old (S.state store.old) }
    requires allowed { refusal_now (public_of engine.old) (count_of engine.old (S.state store.old))
        (RowsStmt select.now) ≡ None }
    requires flat { is_access (public_of engine.old) (skeleton (RowsStmt select.now)) ≡ false }
    requires fresh { seen.old ≡ seen_to Whole }
    ensures frame { engine.new
        ≡ record engine.old { vault = engine.new.vault; room = engine.new.room } }
    ensures room { UsesRoomFor engine.old.room engine.new.room
        (world_of R.state engine.old (S.state store.old))
        (world_of R.state engine.new (S.state store.new)) }
    ensures selects { SelectsRows E.grew E.cut E.faults (public_of engine.old) select.now
        result seen.new (world_of R.state engine.old (S.state store.old))
        (world_of R.state engine.new (S.state store.new)) out.old out.new }
{
    match &select.source {
        Source::Table(table) => select_table(engine, store, select, table, seen, out),
        Source::Join { .. } => select_join(engine, store, select, seen, out),
    }
}

// The rows of a table, or of a join.
pub(crate) fn select_rows<S: BlockStore, R: Revisions, E: Emit>(
    engine: &mut Engine<R>,
    store: &mut S,
    select: &SelectRows,
    out: &mut E,
) -> Result<Outcome, RunStop>
    requires agrees { Agrees R.state engine.old (S.state store.old) }
    requires lives { has_ended engine.old ≡ false }
    requires allowed { refusal_now (public_of engine.old) (count_of engine.old (S.state store.old))
        (RowsStmt select.now) ≡ None }
    requires flat { is_access (public_of engine.old) (skeleton (RowsStmt select.now)) ≡ false }
    ensures serves { Serves R.state E.grew E.cut E.faults (RowsStmt select.now) result
        engine.old (S.state store.old) engine.new (S.state store.new) out.old out.new }
{
    let before = store.count();
    let mut seen = seen_to_end(End::Whole);
    match select_source(engine, store, select, &mut seen, out) {
        Ok(selected) => match close_answer(out, selected) {
            Ok(()) => Ok(engine.finish_seen(seen, outcome_of(selected))),
            Err(error) => engine.cut_seen(seen, store.count() - before, error),
        },
        Err(error) => engine.cut_seen(seen, store.count() - before, error),
    }
}
