//! Answers of groups and of totals.
ghost use Rattle.std.specs.Prelude.{◌≡◌, ◌≤◌, ◌<◌, [], length};
ghost use Rattle.ob_row.specs.Spelling.{kind_at};
ghost use Rattle.ob_group.specs.Held.{IsGroup, HasGroups};
ghost use Rattle.ob_group.specs.Labels.{header};
ghost use Rattle.ob_group.specs.Passes.{EmitsGroup, EmitsGroups};
ghost use Rattle.ob_group.specs.Running.{sums_shown};
ghost use Rattle.ob_group.specs.Steps.{EmitsAll, totals_events};

use crate::aggregation::Sums;
use crate::groups::show_group;
use crate::head::{agg_labels, emit_head};
use ob_base::{Emit, EmitErr, Kind, Schema, Shown};
use ob_room::ClearRow;
use ob_row::{Agg, Item, kind_at};
use std::array;

// Emits the row of a group, whose cells it makes in the first of these.
fn emit_group<E: Emit>(
    out: &mut E,
    kind: Kind,
    items: &[Item],
    group: &ClearRow,
    cells: &mut [Shown],
) -> Result<(), EmitErr>
    requires few { length items.now ≤ 32 }
    requires size { length items.now ≤ length cells.old }
    requires held { IsGroup kind (length items.now) group.now }
    ensures size { length cells.new ≡ length cells.old }
    ensures emits { EmitsGroup E.grew E.cut E.faults kind items.now group.now result
        out.old out.new }
{
    show_group(kind, items, group, cells);
    out.row(&cells[..items.len()])
}

// Emits the rows of these n groups, in order.
fn emit_rows<E: Emit>(
    out: &mut E,
    kind: Kind,
    items: &[Item],
    groups: &[ClearRow],
    n: usize,
) -> Result<(), EmitErr>
    requires few { length items.now ≤ 32 }
    requires most { n ≤ length groups.now }
    requires held { HasGroups kind (length items.now) n groups.now }
    ensures { EmitsGroups E.grew E.cut E.faults kind items.now n groups.now [] result
        out.old out.new }
{
    let mut cells: [Shown; 32] = array::from_fn(|_| Shown::Null);
    for i in 0..n {
        match emit_group(out, kind, items, &groups[i], &mut cells) {
            Ok(()) => {}
            Err(e) => return Err(e),
        }
    }
    Ok(())
}

/// Emits a grouped answer, once all blocks were read: its header, and a row for each of the `n` groups, in
/// order. Where the emitter fails, or has no memory, what was emitted by then is a first part of it.
pub fn emit_groups<E: Emit>(
    out: &mut E,
    schema: &Schema,
    key: u8,
    items: &[Item],
    groups: &[ClearRow],
    n: usize,
) -> Result<(), EmitErr>
    requires few { length items.now ≤ 32 }
    requires key { key < length schema.now }
    requires most { n ≤ length groups.now }
    requires held { HasGroups (kind_at schema.now key) (length items.now) n groups.now }
    ensures { EmitsGroups E.grew E.cut E.faults (kind_at schema.now key) items.now n
        groups.now (header schema.now key items.now) result out.old out.new }
{
    match emit_head(schema, key, items, out) {
        Ok(()) => emit_rows(out, kind_at(schema, key), items, groups, n),
        Err(e) => Err(e),
    }
}

/// Emits an answer of totals, once all blocks were read: its header, and a row with a cell for each
/// aggregate. Where the emitter fails, or has no memory, what was emitted by then is a first part of it.
pub fn emit_totals<E: Emit>(
    out: &mut E,
    schema: &Schema,
    aggs: &[Agg],
    sums: &Sums,
) -> Result<(), EmitErr>
    requires few { length aggs.now ≤ 32 }
    ensures cells { length (sums_shown aggs.now sums.now) ≡ length aggs.now }
    ensures emits { EmitsAll E.grew E.cut E.faults (totals_events schema.now aggs.now sums.now)
        result out.old out.new }
{
    let labels = agg_labels(schema, aggs);
    let cells = sums.cells(aggs.len());
    match out.head(&labels[..aggs.len()]) {
        Ok(()) => out.row(cells.as_slice()),
        Err(e) => Err(e),
    }
}
