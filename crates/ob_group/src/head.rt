//! Labels of grouped answers.
ghost use Rattle.std.specs.Prelude.{◌≡◌, ◌≤◌, ◌+◌, ◌++◌, length, map, take};
ghost use Rattle.ob_base.specs.Labels.{call_label};
ghost use Rattle.ob_flat.specs.Emission.{Takes};
ghost use Rattle.ob_group.specs.Labels.{label_at, agg_label, item_label, header};

use arrayvec::ArrayVec;
use ob_base::{Emit, EmitErr, Label, Schema};
use ob_row::{Agg, Item};
use std::array;

fn push_bytes(text: &mut ArrayVec<u8, 65>, bytes: &[u8])
    requires { length text.old.items + length bytes.now ≤ 65 }
    ensures { text.new.items ≡ text.old.items ++ bytes.now }
{
    for b in bytes {
        text.push(*b);
    }
}

// The name of the column at a place.
fn name_at(schema: &Schema, i: u8) -> &[u8]
    ensures value { result.now ≡ label_at schema.now i }
    ensures few { length result.now ≤ 32 }
{
    match schema.as_slice().get(usize::from(i)) {
        Some(column) => column.name.as_bytes(),
        None => b"",
    }
}

// The label of an aggregate of this name over a column of that one.
fn call_label(name: &[u8], of: &[u8]) -> Label
    requires { length name.now + length of.now ≤ 63 }
    ensures { result ≡ call_label name.now of.now }
{
    let mut text = ArrayVec::new();
    push_bytes(&mut text, name);
    push_bytes(&mut text, b"(");
    push_bytes(&mut text, of);
    push_bytes(&mut text, b")");
    Label::from_bytes(text.as_slice())
}

/// What heads an aggregate's cells: its name, and in parentheses its column's, or an asterisk.
pub fn agg_label(schema: &Schema, agg: &Agg) -> Label
    ensures { result ≡ agg_label schema.now agg.now }
{
    match agg {
        Agg::CountAll => Label::from_bytes(b"COUNT(*)"),
        Agg::Count(i) => call_label(b"COUNT", name_at(schema, *i)),
        Agg::Sum(i) => call_label(b"SUM", name_at(schema, *i)),
        Agg::Min(i) => call_label(b"MIN", name_at(schema, *i)),
        Agg::Max(i) => call_label(b"MAX", name_at(schema, *i)),
    }
}

// The label of an item: the key's column by its name.
fn item_label(schema: &Schema, key: u8, item: &Item) -> Label
    ensures { result ≡ item_label schema.now key item.now }
{
    match item {
        Item::Key => Label::from_bytes(name_at(schema, key)),
        Item::Agg(agg) => agg_label(schema, agg),
    }
}

// The labels of the items, in the first places of an array that holds those of any answer.
fn labels_of(schema: &Schema, key: u8, items: &[Item]) -> [Label; 32]
    requires few { length items.now ≤ 32 }
    ensures size { length result ≡ 32 }
    ensures value { take (length items.now) result ≡ map (item_label schema.now key) items.now }
{
    let mut labels: [Label; 32] = array::from_fn(|_| Label::from_bytes(b""));
    for i in 0..items.len() {
        labels[i] = item_label(schema, key, &items[i]);
    }
    labels
}

// The labels of aggregates, likewise.
pub(crate) fn agg_labels(schema: &Schema, aggs: &[Agg]) -> [Label; 32]
    requires few { length aggs.now ≤ 32 }
    ensures size { length result ≡ 32 }
    ensures value { take (length aggs.now) result ≡ map (agg_label schema.now) aggs.now }
{
    let mut labels: [Label; 32] = array::from_fn(|_| Label::from_bytes(b""));
    for i in 0..aggs.len() {
        labels[i] = agg_label(schema, &aggs[i]);
    }
    labels
}

// Emits the header of a grouped answer.
pub(crate) fn emit_head<E: Emit>(
    schema: &Schema,
    key: u8,
    items: &[Item],
    out: &mut E,
) -> Result<(), EmitErr>
    requires { length items.now ≤ 32 }
    ensures { Takes E.grew E.cut E.faults (header schema.now key items.now) result
        out.old out.new }
{
    let labels = labels_of(schema, key, items);
    out.head(&labels[..items.len()])
}
