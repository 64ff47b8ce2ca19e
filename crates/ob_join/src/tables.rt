//! The join of two tables.
ghost use Rattle.std.specs.Prelude.{◌≡◌, ◌≤◌, ◌<◌, ◌+◌, ◌*◌, ◌^◌, ◌++◌, max, length};
ghost use Rattle.ob_base.specs.Schemas.{width};
ghost use Rattle.ob_vault.specs.Places.{at};
ghost use Rattle.ob_vault.specs.Rows.{SameSizes};
ghost use Rattle.ob_row.specs.Results.{joined};
ghost use Rattle.ob_blocks.specs.Idle.{IsIdle};
ghost use Rattle.ob_vault.specs.Words.{MayStart};
ghost use Rattle.ob_join.specs.Join.{MayJoin, AreBuffers, AreKept, Joins, TellsSlots, join_of, join_in, fill_length, open_rows, result_slots};

use crate::filling::fill_result;
use crate::sides::Sides;
use ob_base::Schema;
use ob_flat::{Flat, OpErr, make_table};
use ob_order::Order;
use ob_room::{ClearRow, RowBuffer};
use ob_store::BlockStore;
use ob_vault::{Order as Turns, Revisions, Vault};

// The columns of the left table, and then those of the right one.
fn joined_schema(left: &Schema, right: &Schema) -> Schema
    requires { length left.now + length right.now ≤ 32 }
    ensures { result ≡ left.now ++ right.now }
{
    let mut schema = left.copied();
    for column in right.as_slice() {
        schema.push(column.copied());
    }
    schema
}

// The whole join over these rows: those of a right block, those of an output block, and those that are
// kept, so many blocks.
fn join_tables<S: BlockStore, R: Revisions>(
    store: &mut S,
    vault: &mut Vault<R>,
    order: &mut Order,
    rows: &mut [ClearRow],
    out: &mut [ClearRow],
    kept: &mut [ClearRow],
    sides: &Sides<'_>,
) -> Result<Flat, OpErr>
    requires starts { MayStart (1 + fill_length (join_of (length rows.old) sides.now))
        (at R.state vault.old (S.state store.old)) }
    requires tables { MayJoin (join_of (length rows.old) sides.now)
        (at R.state vault.old (S.state store.old)) }
    requires buffers { AreBuffers (join_of (length rows.old) sides.now) rows.old out.old }
    requires kept { AreKept (join_of (length rows.old) sides.now) kept.old }
    requires places { length kept.old ≤ order.old.most }
    requires few { length kept.old < 2 ^ 32 }
    ensures most { order.new.most ≡ order.old.most }
    ensures rows { SameSizes rows.old rows.new }
    ensures out { SameSizes out.old out.new }
    ensures kept { SameSizes kept.old kept.new }
    ensures joins { Joins (join_of (length rows.old) sides.now) result
        (at R.state vault.old (S.state store.old)) (at R.state vault.new (S.state store.new)) }
    ensures told { TellsSlots (join_of (length rows.old) sides.now)
        (result_slots (join_of (length rows.old) sides.now)) result
        (at R.state vault.old (S.state store.old)) (at R.state vault.new (S.state store.new)) }
{
    let pack = rows.len() as u32;
    let (left, right) = (sides.left, sides.right);
    let chunks = left.capacity.div_ceil(pack).div_ceil(sides.buffered);
    let capacity = chunks * right.capacity.div_ceil(pack) * pack;
    let schema = joined_schema(&left.schema, &right.schema);
    let region = make_table(store, vault, &schema, capacity, pack, Turns::Round)?;
    let fresh = Flat {
        schema,
        capacity,
        region,
    };
    match fill_result(store, vault, order, kept, sides, rows, out, &fresh) {
        Ok(()) => Ok(fresh),
        Err(e) => {
            vault.forget(region);
            Err(e)
        }
    }
}

/// Joins two tables where the cell of a left row at `lcol` is equal to that of a right row at `rcol`,
/// into a fresh region with the columns of both. `S` left slots are a chunk: as many as fill the blocks
/// that may be open beside two. The region has a block for each chunk and each right block: for chunk
/// `q`, its left blocks are read, and their rows kept; then each right block `v` is read, and place
/// `q * rights + v` is written, `rights` being the blocks of the right table. A slot has the right row
/// of its own slot after the first row of the chunk that agrees with it; it is a dummy where there is
/// none, and where the right slot lies behind the capacity. So each pair is found where no two left rows
/// of a chunk have equal cells, as those of a primary key.
///
/// The accesses follow from the capacities alone. The columns are at most 32, a joined row has at most
/// 1,024 bytes, and the region at most 16,777,216 slots. `Failed` where the store failed, `Tampered` with
/// the place of a block that is not what was written there last, or that has a malformed row, and
/// `NoMemory` before anything is read. After an error the fresh region is forgotten. The chunks, and the
/// dummies for right rows without a partner, are those of the hash join of ObliDB (Eskandarian and
/// Zaharia, PVLDB 13(2), 2019); a chunk's rows are sorted here.
pub fn join<S: BlockStore, R: Revisions>(
    store: &mut S,
    vault: &mut Vault<R>,
    room: &mut RowBuffer,
    order: &mut Order,
    left: &Flat,
    right: &Flat,
    lcol: u8,
    rcol: u8,
) -> Result<Flat, OpErr>
    requires starts { MayStart (1 + fill_length (join_in room.old left.now lcol right.now rcol))
        (at R.state vault.old (S.state store.old)) }
    requires tables { MayJoin (join_in room.old left.now lcol right.now rcol)
        (at R.state vault.old (S.state store.old)) }
    requires room { IsIdle (width (left.now.schema ++ right.now.schema)) room.old }
    requires places { room.old.rows ≤ order.old.most }
    ensures most { order.new.most ≡ order.old.most }
    ensures room { room.new ≡ record room.old {
      high = max room.old.high
          (open_rows (join_in room.old left.now lcol right.now rcol));
    } }
    ensures joins { Joins (join_in room.old left.now lcol right.now rcol) result
        (at R.state vault.old (S.state store.old)) (at R.state vault.new (S.state store.new)) }
    ensures told { TellsSlots (join_in room.old left.now lcol right.now rcol)
        (joined lcol rcol room.old.pack room.old.rows) result
        (at R.state vault.old (S.state store.old)) (at R.state vault.new (S.state store.new)) }
{
    let pack = room.pack();
    let buffered = (room.rows() - 2 * pack) / pack;
    let kept_blocks = buffered.min(left.capacity.div_ceil(pack));
    let open = room.open(2 * pack + kept_blocks * pack);
    let (blocks, kept) = open.split_at_mut(2 * pack as usize);
    let (rows, out) = blocks.split_at_mut(pack as usize);
    let sides = Sides {
        left,
        lcol,
        right,
        rcol,
        buffered,
    };
    let result = join_tables(store, vault, order, rows, out, kept, &sides);
    room.clear_shelf();
    result
}
