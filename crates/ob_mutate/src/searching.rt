//! The pass that looks for an empty slot and a primary key.
ghost use Rattle.std.specs.Prelude.{◌≡◌, ◌≤◌, ◌<◌, Option, Some, Ok, IfSome, length};
ghost use Rattle.std.specs.List.{position};
ghost use Rattle.ob_base.specs.declared.schema.Column.{Column as TableColumn};
ghost use Rattle.ob_base.specs.Schemas.{width, key_place};
ghost use Rattle.ob_row.specs.Rows.{Row};
ghost use Rattle.ob_row.specs.Spelling.{Begins, FitsColumns};
ghost use Rattle.ob_mutate.specs.Searches.{agrees, found};

use ob_base::{Column, Schema};
use ob_flat::{Flat, Visit};
use ob_room::ClearRow;
use ob_row::{Cell, Malformed, read, same_value, value_of};

fn key_index(columns: &[Column]) -> Option<usize>
    requires { length columns.now ≤ 32 }
    ensures value { result ≡ position (λ (c : TableColumn). c.key) columns.now }
    ensures few { IfSome result (λ place. place < 32) }
{
    columns.iter().position(|column| column.key)
}

// The place of the primary key, if there is one.
pub(crate) fn key_place(schema: &Schema) -> Option<u8>
    ensures { result ≡ key_place schema.now }
{
    match key_index(schema.as_slice()) {
        Some(place) => Some(place as u8),
        None => None,
    }
}

// Whether the row that the first bytes spell has the primary key of these cells.
fn has_key(schema: &Schema, key: Option<u8>, cells: &[Cell], row: &ClearRow) -> bool
    requires wide { width schema.now ≤ length row.now }
    requires real { (other : Row) × Begins schema.now (Some other) row.now }
    requires within { IfSome key
        (λ place. (place < length schema.now) × (place < length cells.now)) }
    ensures { (other : Row) → Begins schema.now (Some other) row.now
        → result ≡ agrees key cells.now other }
{
    match key {
        Some(place) => same_value(
            cells[usize::from(place)].as_value(),
            value_of(schema, row, place),
        ),
        None => false,
    }
}

// What has been found: the first empty slot, and whether a row has the primary key.
#[derive(Clone, Copy, Debug, PartialEq, Eq)]
pub(crate) struct Finds {
    pub(crate) free: Option<u32>,
    pub(crate) duplicate: bool,
}

// Looks for an empty slot below the capacity, and for a row with the primary key of these cells.
#[derive(Drop)]
pub(crate) struct Search<'a> {
    pub(crate) key: Option<u8>,
    pub(crate) cells: &'a [Cell],
    pub(crate) finds: Finds,
}

impl<'a> Visit for Search<'a> {
    ghost use Rattle.std.specs.Prelude.{◌≡◌, ◌<◌, IfSome};
    ghost use Rattle.ob_base.specs.Schemas.{key_place};
    ghost use Rattle.ob_row.specs.Spelling.{FitsColumns};
    ghost use Rattle.ob_mutate.specs.Searches.{found};

    ghost after = { λ flat s i slot.
        record s { finds = found s.key s.cells.now flat.capacity s.finds i slot } };

    ghost Suits = { λ flat s i. (s.key ≡ key_place flat.schema) × FitsColumns flat.schema s.cells.now
        × IfSome s.finds.free (λ slot. slot < flat.capacity) };

    fn visit(&mut self, i: u32, flat: &Flat, row: &ClearRow) -> Result<(), Malformed> {
        if read(&flat.schema, row)? {
            if has_key(&flat.schema, self.key, self.cells, row) {
                self.finds.duplicate = true;
            }
        } else if i < flat.capacity && self.finds.free.is_none() {
            self.finds.free = Some(i);
        }
        Ok(())
    }
}
