//! GROUP BY: a group in an open row each.
ghost use Rattle.std.specs.Prelude.{◌≡◌, ◌≤◌, max, length};
ghost use Rattle.ob_base.specs.Limits.{buffered};
ghost use Rattle.ob_base.specs.Schemas.{width};
ghost use Rattle.ob_vault.specs.Places.{at};
ghost use Rattle.ob_vault.specs.Rows.{SameSizes};
ghost use Rattle.ob_blocks.specs.Idle.{IsIdle};
ghost use Rattle.ob_row.specs.Truth.{is_true};
ghost use Rattle.ob_flat.specs.Flats.{IsSized, IsFlat};
ghost use Rattle.ob_flat.specs.Words.{HasSpare, IsTable, FitBlock, blocks_of};
ghost use Rattle.ob_group.specs.Passes.{AreItems, AreGroupRows, GroupsRows, open_rows};

use crate::emitting::emit_groups;
use crate::reading::group_blocks;
use ob_base::{Emit, EmitErr};
use ob_flat::{Flat, OpErr};
use ob_order::Buckets;
use ob_room::{ClearRow, RowBuffer};
use ob_row::{Item, Pred};
use ob_store::BlockStore;
use ob_vault::{Revisions, Vault};

/// How many groups were emitted; or there were more than may be kept at once, and nothing was emitted.
#[derive(Clone, Copy, Debug, PartialEq, Eq)]
pub enum Grouped {
    Groups(u64),
    TooMany,
}

// The whole of it over these rows, as many as a block has, and those for the groups.
fn group_table<S: BlockStore, R: Revisions, E: Emit>(
    store: &mut S,
    vault: &mut Vault<R>,
    buckets: &mut Buckets,
    rows: &mut [ClearRow],
    groups: &mut [ClearRow],
    flat: &Flat,
    pred: &Pred,
    key: u8,
    items: &[Item],
    out: &mut E,
) -> Result<Grouped, OpErr>
    requires spare { HasSpare (blocks_of (length rows.old) flat.now)
        (at R.state vault.old (S.state store.old)) }
    requires table { IsTable (length rows.old) flat.now (at R.state vault.old (S.state store.old)) }
    requires fit { FitBlock flat.now.schema rows.old }
    requires items { AreItems flat.now.schema key items.now }
    requires places { AreGroupRows groups.old }
    requires most { length groups.old ≤ buckets.old.most }
    ensures most { buckets.new.most ≡ buckets.old.most }
    ensures rows { SameSizes rows.old rows.new }
    ensures groups { SameSizes groups.old groups.new }
    ensures answers { GroupsRows E.grew E.cut E.faults (length groups.old) (length rows.old)
        flat.now (is_true pred.now) key items.now result
        (at R.state vault.old (S.state store.old)) (at R.state vault.new (S.state store.new))
        out.old out.new }
{
    match group_blocks(store, vault, buckets, rows, groups, flat, pred, key, items) {
        Ok(n) => {
            if n > groups.len() {
                Ok(Grouped::TooMany)
            } else {
                match emit_groups(out, &flat.schema, key, items, groups, n) {
                    Ok(()) => Ok(Grouped::Groups(n as u64)),
                    Err(EmitErr::Failed) => Err(OpErr::Sink),
                    Err(EmitErr::NoMemory) => Err(OpErr::NoMemory),
                }
            }
        }
        Err(e) => Err(e),
    }
}

/// Groups the rows of a table that make the condition true by the column at place `key`: reads each
/// block once, in order, and puts each row to its key's group. After that it emits the header and a row
/// for each group, in order of each group's first slot: the key, and the aggregates over the group's rows
/// as `aggregate` gives them. Answers how many groups there were.
///
/// At most `S` groups are kept, as many as there are rows in the blocks that may be open beside two. Where
/// there are more keys among these rows, all blocks are read all the same, nothing is emitted, and the
/// answer is `TooMany`.
///
/// `Failed` where the store failed, and `Tampered` with the place of a block that is not what was written
/// there last, or that has a malformed row: nothing is emitted then. Once all blocks were read, `Sink`
/// where the emitter failed, and `NoMemory` where it had no memory: what was emitted by then is a first
/// part of the whole. It takes no memory itself: `buckets` has room for a place of each row of `room`, and
/// a row's group is found in its key's bucket.
pub fn group<S: BlockStore, R: Revisions, E: Emit>(
    store: &mut S,
    vault: &mut Vault<R>,
    room: &mut RowBuffer,
    buckets: &mut Buckets,
    flat: &Flat,
    pred: &Pred,
    key: u8,
    items: &[Item],
    out: &mut E,
) -> Result<Grouped, OpErr>
    requires spare { HasSpare (blocks_of room.old.pack flat.now)
        (at R.state vault.old (S.state store.old)) }
    requires flat { IsFlat room.old.pack flat.now (at R.state vault.old (S.state store.old)) }
    requires size { IsSized flat.now.schema flat.now.capacity }
    requires room { IsIdle (width flat.now.schema) room.old }
    requires wide { 768 ≤ room.old.width }
    requires items { AreItems flat.now.schema key items.now }
    requires places { room.old.rows ≤ buckets.old.most }
    ensures most { buckets.new.most ≡ buckets.old.most }
    ensures room { room.new ≡ record room.old {
      high = max room.old.high (open_rows room.old.pack room.old.rows flat.now);
    } }
    ensures answers { GroupsRows E.grew E.cut E.faults (buffered room.old.pack room.old.rows)
        room.old.pack flat.now (is_true pred.now) key items.now result
        (at R.state vault.old (S.state store.old)) (at R.state vault.new (S.state store.new))
        out.old out.new }
{
    let pack = room.pack();
    let buffered = (room.rows() - 2 * pack) / pack;
    let kept_blocks = buffered.min(flat.capacity.div_ceil(pack));
    let open = room.open(pack + kept_blocks * pack);
    let (rows, groups) = open.split_at_mut(pack as usize);
    let result = group_table(
        store, vault, buckets, rows, groups, flat, pred, key, items, out,
    );
    room.clear_shelf();
    result
}
