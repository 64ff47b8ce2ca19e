//! The answer to a SELECT of totals, by one pass over its table.
ghost use Rattle.std.specs.Prelude.{◌≡◌, ◌≤◌, [], ◌∷◌, map, take, length, Some, None, IfOk, IfSome};
ghost use Rattle.ob_base.specs.Events.{Head, Row, Close};
ghost use Rattle.ob_base.specs.Limits.{buffered};
ghost use Rattle.ob_vault.specs.Places.{at};
ghost use Rattle.ob_group.specs.Labels.{agg_label};
ghost use Rattle.ob_group.specs.Steps.{EmitsAll};
ghost use Rattle.ob_select.specs.Selecting.{UsesRoom};
ghost use Rattle.ob_exec.specs.Totalling.{MayTotal, Totals};

use ob_base::{ColumnName, Emit, EmitErr, Label, NoMemory, Refusal, Schema, Shown};
use ob_flat::{Flat, OpErr};
use ob_group::{Grouped, agg_label, aggregate, group};
use ob_names::place_of;
use ob_order::Buckets;
use ob_room::RowBuffer;
use ob_row::{Agg, Pred};
use ob_sql::SelectTotals;
use ob_stages::{aggs_at, items_at};
use ob_store::BlockStore;
use ob_tables::error_of;
use ob_vault::{Revisions, Vault};
use ob_verdict::Outcome;
use std::alloc::Global;
use std::array;

// ---- what is emitted

// The labels of aggregates, in the first places of an array that holds those of any answer.
fn labels_of(schema: &Schema, aggs: &[Agg]) -> [Label; 32]
    requires few { length aggs.now ≤ 32 }
    ensures size { length result ≡ 32 }
    ensures value { take (length aggs.now) result ≡ map (agg_label schema.now) aggs.now }
{
    let mut labels: [Label; 32] = array::from_fn(|_| Label::from_bytes(b""));
    for i in 0..aggs.len() {
        labels[i] = agg_label(schema, &aggs[i]);
    }
    labels
}

// An answer of one row: its header, the row, and its number.
fn emit_row<E: Emit>(out: &mut E, labels: &[Label], cells: &[Shown]) -> Result<(), EmitErr>
    ensures { EmitsAll E.grew E.cut E.faults (Head labels.now ∷ Row cells.now ∷ Close 1 ∷ [])
        result out.old out.new }
{
    match out.head(labels) {
        Ok(()) => match out.row(cells) {
            Ok(()) => out.close(1),
            Err(error) => Err(error),
        },
        Err(error) => Err(error),
    }
}

// ---- the passes

// Aggregates of all selected rows: an answer of one row.
fn answer_aggregates<S: BlockStore, R: Revisions, E: Emit>(
    store: &mut S,
    vault: &mut Vault<R>,
    room: &mut RowBuffer,
    flat: &Flat,
    pred: &Pred,
    select: &SelectTotals,
    out: &mut E,
) -> Result<Outcome, OpErr>
    requires may { MayTotal flat.now pred.now select.now room.old
        (at R.state vault.old (S.state store.old)) }
    requires ungrouped { select.now.group ≡ None }
    ensures room { UsesRoom room.old room.new }
    ensures totals { Totals E.grew E.cut E.faults (buffered room.old.pack room.old.rows)
        room.old.pack flat.now select.now result (at R.state vault.old (S.state store.old))
        (at R.state vault.new (S.state store.new)) out.old out.new }
{
    let items = select.items.as_slice();
    let all = aggs_at(items, flat.schema.as_slice());
    let aggs = &all[..items.len()];
    match aggregate(store, vault, room, flat, pred, aggs) {
        Ok(cells) => {
            let labels = labels_of(&flat.schema, aggs);
            match emit_row(out, &labels[..aggs.len()], cells.as_slice()) {
                Ok(()) => Ok(Outcome::Rows(1)),
                Err(error) => Err(error_of(error)),
            }
        }
        Err(error) => Err(error),
    }
}

/// The buckets in which the groups are found, with a place for each row that may be open; with none where a
/// SELECT has no GROUP BY.
pub(crate) fn buckets_for(
    alloc: Global,
    select: &SelectTotals,
    rows: u32,
) -> Result<Buckets, NoMemory>
    ensures { IfOk result (λ buckets. IfSome select.now.group (λ key. rows ≤ buckets.most)) }
{
    match &select.group {
        None => Buckets::new(alloc, 0),
        Some(_) => Buckets::new(alloc, rows),
    }
}

// A row for each group of them.
fn answer_groups<S: BlockStore, R: Revisions, E: Emit>(
    store: &mut S,
    vault: &mut Vault<R>,
    room: &mut RowBuffer,
    buckets: &mut Buckets,
    flat: &Flat,
    pred: &Pred,
    select: &SelectTotals,
    key: &ColumnName,
    out: &mut E,
) -> Result<Outcome, OpErr>
    requires may { MayTotal flat.now pred.now select.now room.old
        (at R.state vault.old (S.state store.old)) }
    requires grouped { select.now.group ≡ Some key.now }
    requires places { room.old.rows ≤ buckets.old.most }
    ensures room { UsesRoom room.old room.new }
    ensures totals { Totals E.grew E.cut E.faults (buffered room.old.pack room.old.rows)
        room.old.pack flat.now select.now result (at R.state vault.old (S.state store.old))
        (at R.state vault.new (S.state store.new)) out.old out.new }
{
    let listed = select.items.as_slice();
    let columns = flat.schema.as_slice();
    let items = items_at(listed, columns);
    let place = place_of(key, columns, &[]) as u8;
    match group(
        store,
        vault,
        room,
        buckets,
        flat,
        pred,
        place,
        &items[..listed.len()],
        out,
    ) {
        Ok(Grouped::Groups(n)) => match out.close(n) {
            Ok(()) => Ok(Outcome::Rows(n)),
            Err(error) => Err(error_of(error)),
        },
        Ok(Grouped::TooMany) => Ok(Outcome::Refused(Refusal::TooManyGroups)),
        Err(error) => Err(error),
    }
}

/// Totals the rows of a table that make the condition true: reads each block once, in order, and then
/// emits the answer, of one row, or with GROUP BY of a row for each group. Where there are more groups
/// than may be kept it is refused, and nothing is emitted. Nothing is emitted either where the store
/// failed. It takes no memory itself.
pub(crate) fn answer_totals<S: BlockStore, R: Revisions, E: Emit>(
    store: &mut S,
    vault: &mut Vault<R>,
    room: &mut RowBuffer,
    buckets: &mut Buckets,
    flat: &Flat,
    pred: &Pred,
    select: &SelectTotals,
    out: &mut E,
) -> Result<Outcome, OpErr>
    requires may { MayTotal flat.now pred.now select.now room.old
        (at R.state vault.old (S.state store.old)) }
    requires places { IfSome select.now.group (λ key. room.old.rows ≤ buckets.old.most) }
    ensures room { UsesRoom room.old room.new }
    ensures totals { Totals E.grew E.cut E.faults (buffered room.old.pack room.old.rows)
        room.old.pack flat.now select.now result (at R.state vault.old (S.state store.old))
        (at R.state vault.new (S.state store.new)) out.old out.new }
{
    match &select.group {
        None => answer_aggregates(store, vault, room, flat, pred, select, out),
        Some(key) => answer_groups(store, vault, room, buckets, flat, pred, select, key, out),
    }
}
