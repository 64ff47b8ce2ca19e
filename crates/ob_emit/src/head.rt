//! Headers of answers.
ghost use Rattle.std.specs.Prelude.{◌≡◌, ◌≤◌, ◌+◌, ◌++◌, not, bytes_eq, length, take};
ghost use Rattle.std.specs.List.{list_any};
ghost use Rattle.ob_base.specs.declared.schema.Column.{Column as TableColumn};
ghost use Rattle.ob_base.specs.Labels.{column_label};
ghost use Rattle.ob_flat.specs.Emission.{Takes};
ghost use Rattle.ob_emit.specs.Emitting;
ghost use Rattle.ob_emit.specs.Emitting.{AreColumns};

use arrayvec::ArrayVec;
use ob_base::{Column, Emit, EmitErr, Label, Schema};
use std::array;

// Whether a column is of another table.
fn has_other(table: &[u8], columns: &[Column]) -> bool
    ensures { result
        ≡ list_any (λ (c : TableColumn). not (bytes_eq c.table table.now)) columns.now }
{
    match columns.split_first() {
        None => false,
        Some((column, columns)) => { column.table.as_bytes() != table || has_other(table, columns) }
    }
}

// Whether the columns are those of a join: of more than one table.
fn is_joined(columns: &[Column]) -> bool
    ensures { result ≡ Emitting.is_joined columns.now }
{
    match columns.split_first() {
        None => false,
        Some((column, columns)) => has_other(column.table.as_bytes(), columns),
    }
}

fn push_bytes(text: &mut ArrayVec<u8, 65>, bytes: &[u8])
    requires { length text.old.items + length bytes.now ≤ 65 }
    ensures { text.new.items ≡ text.old.items ++ bytes.now }
{
    text.try_extend_from_slice(bytes).unwrap();
}

// The label of a column: its name, in a join after its table's and a point.
fn label_of(joined: bool, column: &Column) -> Label
    ensures { result ≡ column_label joined column.now }
{
    if joined {
        let mut text = ArrayVec::new();
        push_bytes(&mut text, column.table.as_bytes());
        push_bytes(&mut text, b".");
        push_bytes(&mut text, column.name.as_bytes());
        Label::from_bytes(text.as_slice())
    } else {
        Label::from_bytes(column.name.as_bytes())
    }
}

// The labels of the columns at these places, in the first places of an array that holds those of any
// table.
fn labels_of(schema: &Schema, cols: &[u8]) -> [Label; 32]
    requires { AreColumns schema.now cols.now }
    ensures size { length result ≡ 32 }
    ensures value { take (length cols.now) result ≡ Emitting.labels_of schema.now cols.now }
{
    let columns = schema.as_slice();
    let joined = is_joined(columns);
    let mut labels: [Label; 32] = array::from_fn(|_| Label::from_bytes(b""));
    for i in 0..cols.len() {
        labels[i] = label_of(joined, &columns[usize::from(cols[i])]);
    }
    labels
}

/// Emits the header of a table's columns at these places: each by its name, and in a join by its table's
/// name, a point, and its own. It is a join where the columns are of more than one table. `Failed` where
/// the emitter failed, or its want of memory.
pub fn emit_head<E: Emit>(schema: &Schema, cols: &[u8], out: &mut E) -> Result<(), EmitErr>
    requires { AreColumns schema.now cols.now }
    ensures { Takes E.grew E.cut E.faults (Emitting.header schema.now cols.now)
        result out.old out.new }
{
    let labels = labels_of(schema, cols);
    out.head(&labels[..cols.len()])
}
