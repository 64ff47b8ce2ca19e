//! A room of four rows.
ghost use Rattle.std.specs.Prelude.{◌≡◌, ◌<◌, ◌≤◌, [], length, slice_set, slice_index_or, replicate, max, IfOk};
ghost use Rattle.ob_room.specs.RoomState.{out, clear};
ghost use Rattle.ob_room.specs.LendingRow.{with_shelved};

use ob_room::RowBuffer;
use std::alloc::{AllocError, Global};

// Writes the first byte of the first row on the shelf.
fn mark_first(room: &mut RowBuffer, byte: u8)
    requires some { 0 < length room.old.shelf }
    requires wide { 0 < length (slice_index_or room.old.shelf 0 []) }
    ensures { room.new ≡ with_shelved room.old 0
        (slice_set (slice_index_or room.old.shelf 0 []) 0 byte) }
{
    let row = room.shelf_mut(0);
    let bytes = row.bytes_mut();
    bytes[0] = byte;
}

// Takes a row, writes into it, and gives it back.
fn take_and_give(room: &mut RowBuffer, byte: u8) -> u8
    requires free { 0 < length room.old.free }
    requires wide { 0 < room.old.width }
    requires held { length room.old.shelf ≤ out room.old }
    requires few { length room.old.free ≤ room.old.rows }
    ensures same { result ≡ byte }
    ensures rows { room.new.rows ≡ room.old.rows }
    ensures free { length room.new.free ≡ length room.old.free }
    ensures shelf { room.new.shelf ≡ room.old.shelf }
{
    match room.take() {
        None => unreachable!(),
        Some(mut row) => {
            row.bytes_mut()[0] = byte;
            let seen = row.bytes()[0];
            room.give(row);
            seen
        }
    }
}

// A row is taken, written, shelved, taken from the shelf and given back, and the room is as it was except for
// its greatest number.
fn shelve_one(room: &mut RowBuffer, byte: u8)
    requires all { length room.old.free ≡ room.old.rows }
    requires some { 0 < room.old.rows }
    requires zeros { room.old.free ≡ replicate room.old.rows (clear room.old.width) }
    requires empty { room.old.shelf ≡ [] }
    requires wide { 0 < room.old.width }
    ensures { room.new ≡ record room.old { high = max room.old.high 1 } }
{
    let Some(mut row) = room.take() else {
        unreachable!()
    };
    row.bytes_mut()[0] = byte;
    room.shelve(row);
    mark_first(room, 7);
    let Some(row) = room.unshelve() else {
        unreachable!()
    };
    room.give(row);
}

// Writes what a room says of itself.
fn put_room(out: &mut String, room: &RowBuffer) -> Result<(), AllocError> {
    let high = room.high();
    let rows = room.rows();
    let pack = room.pack();
    write!(out, "{rows} rows, {pack} a block, at most {high} out")
}

fn room_of_four(alloc: Global) -> Result<RowBuffer, AllocError>
    ensures { IfOk result (λ r. r ≡ record {
      rows = 4;
      width = 8;
      pack = 1;
      free = replicate 4 (clear 8);
      shelf = [];
      high = 0;
    }) }
{
    match RowBuffer::new(alloc, 4, 8, 1) {
        Ok(room) => Ok(room),
        Err(_) => Err(AllocError),
    }
}

/// Writes what comes of a row that is shelved, and of one that is taken and given back.
pub fn one(alloc: Global, out: &mut String) -> Result<(), AllocError> {
    let mut room = room_of_four(alloc)?;
    shelve_one(&mut room, 9);
    put_room(out, &room)?;
    let seen = take_and_give(&mut room, 7);
    write!(out, ", read {seen}; ")?;
    put_room(out, &room)
}

/// Writes what comes of rows that are all shelved, where one more is wanted.
pub fn all(alloc: Global, out: &mut String) -> Result<(), AllocError> {
    let mut room = room_of_four(alloc)?;
    room.shelve_clear(4);
    match room.take() {
        None => {}
        Some(row) => room.give(row),
    }
    put_room(out, &room)?;
    write!(out, ", shelf of {}", room.shelf().len())?;
    room.clear_shelf();
    write!(out, ", then of {}", room.shelf().len())
}
