//! What the rows of a batch are answered, one after the other.
ghost use Rattle.std.specs.Prelude.{◌≡◌, ◌≤◌, ◌<◌, [], ℕ, List, Some, IfSome, length, slice_index_or};
ghost use Rattle.ob_base.specs.Schemas.{key_place};
ghost use Rattle.ob_vault.specs.Rows.{row_at};
ghost use Rattle.ob_row.specs.Rows.{Row};
ghost use Rattle.ob_row.specs.Slots.{Slots};
ghost use Rattle.ob_row.specs.Spelling.{Begins};
ghost use Rattle.ob_mutate.specs.Inserting.{insert_answer};
ghost use Rattle.ob_mutate.specs.Batches.{AreKept, AreListed, AreNotes, ArePlaces, AreRows, Foresees, KnowsSlots, inserted_as, inserted_one, insert_answers, rows_of, taken_after, taken_all};

use crate::inserting::Inserted;
use crate::noting::Notes;
use ob_base::Schema;
use ob_order::{Admitted, Order, admit};
use ob_room::ClearRow;
use ob_row::{kind_at, offset};

// The same answer.
fn inserted_as(admitted: Admitted) -> Inserted
    ensures { result ≡ inserted_as admitted }
{
    match admitted {
        Admitted::Done => Inserted::Done,
        Admitted::Duplicate => Inserted::Duplicate,
        Admitted::Full => Inserted::Full,
    }
}

// What row `i` of a batch is answered, where the rows before it were; the kept rows are told of its key,
// where it is taken.
fn answer_row(
    notes: &mut Notes,
    key: Option<u8>,
    schema: &Schema,
    order: &Order,
    kept: &[ClearRow],
    i: u32,
) -> Inserted
    requires key { key ≡ key_place schema.now }
    requires rows { AreRows schema.now kept.now }
    requires listed { AreListed schema.now key kept.now order.now }
    requires inside { i < length kept.now }
    requires notes { AreNotes kept.now notes.old }
    requires before { length notes.old.taken ≤ i }
    requires room { length notes.old.taken ≤ length notes.old.free }
    ensures there { notes.new ≡ record notes.old { there = notes.new.there } }
    ensures size { length notes.new.there ≡ length notes.old.there }
    ensures spare { result ≡ Inserted.Done → length notes.old.taken < length notes.old.free }
    ensures told { (row : Row) (slots : Slots) → Begins schema.now (Some row) (row_at kept.now i)
        → Foresees schema.now kept.now notes.old slots
        → (result ≡ insert_answer schema.now row slots)
        × IfSome (key_place schema.now) (λ place. KnowsSlots schema.now place kept.now
        notes.new.there (inserted_one schema.now row slots)) }
{
    let free = notes.spare();
    match key {
        Some(place) => {
            let at = offset(schema, place);
            let len = kind_at(schema, place).width() as usize;
            inserted_as(notes.admit(order, kept, at, len, i, free))
        }
        None => {
            if free == 0 {
                Inserted::Full
            } else {
                Inserted::Done
            }
        }
    }
}

// The same, and it is noted that the row is taken, where it is.
fn admit_row(
    notes: &mut Notes,
    key: Option<u8>,
    schema: &Schema,
    order: &Order,
    kept: &[ClearRow],
    i: u32,
) -> Inserted
    requires key { key ≡ key_place schema.now }
    requires rows { AreRows schema.now kept.now }
    requires listed { AreListed schema.now key kept.now order.now }
    requires inside { i < length kept.now }
    requires notes { AreNotes kept.now notes.old }
    requires before { length notes.old.taken ≤ i }
    requires room { length notes.old.taken ≤ length notes.old.free }
    ensures notes { AreNotes kept.now notes.new }
    ensures free { notes.new.free ≡ notes.old.free }
    ensures taken { notes.new.taken ≡ taken_after result i notes.old.taken }
    ensures room { length notes.new.taken ≤ length notes.new.free }
    ensures told { (row : Row) (slots : Slots) → Begins schema.now (Some row) (row_at kept.now i)
        → Foresees schema.now kept.now notes.old slots
        → (result ≡ insert_answer schema.now row slots)
        × Foresees schema.now kept.now notes.new (inserted_one schema.now row slots) }
{
    let answer = answer_row(notes, key, schema, order, kept, i);
    match answer {
        Inserted::Done => notes.take(i),
        Inserted::Duplicate | Inserted::Full => {}
    }
    answer
}

/// What each row of a batch is answered, where there are as many answers, and notes which are taken.
pub(crate) fn admit_rows(
    notes: &mut Notes,
    key: Option<u8>,
    schema: &Schema,
    order: &Order,
    kept: &[ClearRow],
    out: &mut [Inserted],
)
    requires key { key ≡ key_place schema.now }
    requires rows { AreRows schema.now kept.now }
    requires listed { AreListed schema.now key kept.now order.now }
    requires notes { AreNotes kept.now notes.old }
    requires none { notes.old.taken ≡ [] }
    ensures free { notes.new.free ≡ notes.old.free }
    ensures taken { ArePlaces (length kept.now) notes.new.taken }
    ensures out { length out.new ≡ length out.old }
    ensures told { (batch : List Row) (slots : Slots) → AreKept schema.now batch kept.now
        → length out.old ≡ length kept.now → Foresees schema.now kept.now notes.old slots
        → (out.new ≡ insert_answers schema.now batch slots)
        × (rows_of batch notes.new.taken ≡ taken_all schema.now batch slots) }
{
    for i in 0..kept.len().min(out.len()) {
        out[i] = admit_row(notes, key, schema, order, kept, i as u32);
    }
}
