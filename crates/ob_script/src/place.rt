//! What stands at a place of the parts that go over a region block by block.
ghost use Rattle.std.specs.Prelude.{◌≡◌, ◌≤◌, ◌<◌, ◌+◌, ◌*◌, ◌/◌, ◌%◌, ◌==◌, Some, length, slice_get, if◌then◌else◌};
ghost use Rattle.std.specs.Int.{div_ceil};
ghost use Rattle.ob_base.specs.Lists.{each};
ghost use Rattle.ob_script.specs.Parts.{small_pass, continuous_block, bucket_part, hash_slot, hash_block, join_chunk, path_place};
ghost use Rattle.ob_script.specs.Sections.{IsFew, IsLeaf};

use crate::bucket::{first_bucket, second_bucket};
use ob_base::Access;

// Of pairs of accesses, the first or the second.
fn pick(i: u64, first: Access, second: Access) -> Access
    ensures { result ≡ (if i % 2 == 0 then first else second) }
{
    if i % 2 == 0 { first } else { second }
}

/// A block that is read and then written to the same place, or to that of another region.
pub(crate) fn copied(i: u64, from: u64, to: u64, place: u32) -> Access
    ensures { result ≡ (if i % 2 == 0 then Access.Read from place else Access.Write to place) }
{
    pick(
        i,
        Access::Read {
            region: from,
            place,
        },
        Access::Write { region: to, place },
    )
}

/// The place of block `c` of the path of leaf `leaf`, counted from the root down, in a tree of this height.
pub(crate) fn path_place(height: u32, leaf: u32, c: u32) -> u32
    requires leaf { IsLeaf height leaf }
    requires within { c < 4 * (height + 1) }
    ensures { result ≡ path_place height leaf c }
{
    4 * ((((1 << height) + leaf) >> (height - c / 4)) - 1) + c % 4
}

/// The accesses of Small's passes.
#[tactic(auto, using(crate::proofs::Places::pass_read, crate::proofs::Places::pass_write, crate::proofs::Places::pass_few))]
pub(crate) fn pass_nth(
    from: u64,
    to: u64,
    blocks: u32,
    results: u32,
    buffered: u32,
    i: u64,
) -> Access
    requires few { IsFew blocks }
    requires results { IsFew results }
    requires buffered { IsFew buffered }
    requires some { 1 ≤ buffered }
    requires within { i < length
        (each (div_ceil results buffered) (small_pass from to blocks results buffered)) }
    ensures { slice_get
        (each (div_ceil results buffered) (small_pass from to blocks results buffered)) i
        ≡ Some result }
{
    let turn = u64::from(blocks) + u64::from(buffered);
    let pass = i / turn;
    let step = i % turn;
    if step < u64::from(blocks) {
        Access::Read {
            region: from,
            place: step as u32,
        }
    } else {
        Access::Write {
            region: to,
            place: (pass * u64::from(buffered) + (step - u64::from(blocks))) as u32,
        }
    }
}

/// The accesses of Continuous, after its region is filled.
#[tactic(auto, using(crate::proofs::Places::turn_read, crate::proofs::Places::turn_pair, crate::proofs::Places::turn_few, crate::proofs::Places::turn_block))]
pub(crate) fn turn_nth(from: u64, to: u64, pack: u32, slots: u32, rows: u32, i: u64) -> Access
    requires slots { IsFew slots }
    requires pack { 1 ≤ pack }
    requires few { pack ≤ 16 }
    requires rows { 1 ≤ rows }
    requires within { i < length
        (each (div_ceil slots pack) (continuous_block from to pack slots rows)) }
    ensures { slice_get
        (each (div_ceil slots pack) (continuous_block from to pack slots rows)) i
        ≡ Some result }
{
    let turn = 1 + 2 * u64::from(pack);
    let block = i / turn;
    let step = i % turn;
    if step == 0 {
        return Access::Read {
            region: from,
            place: block as u32,
        };
    }
    let slot = block * u64::from(pack) + (step - 1) / 2;
    let place = slot % u64::from(rows) / u64::from(pack);
    copied(step - 1, to, to, place as u32)
}

/// The accesses of Hash, after its region is filled.
#[tactic(auto, using(crate::proofs::Places::hash_read, crate::proofs::Places::hash_in, crate::proofs::Places::hash_few, crate::proofs::Places::hash_block_few))]
pub(crate) fn bucket_nth(
    from: u64,
    to: u64,
    pack: u32,
    slots: u32,
    rows: u32,
    depth: u32,
    i: u64,
) -> Access
    requires slots { IsFew slots }
    requires pack { 1 ≤ pack }
    requires few { pack ≤ 16 }
    requires some { 1 ≤ rows }
    requires rows { IsFew rows }
    requires deep { 1 ≤ depth }
    requires depth { depth ≤ 8 }
    requires within { i < length
        (each (div_ceil slots pack) (hash_block from to pack slots rows depth)) }
    ensures { slice_get
        (each (div_ceil slots pack) (hash_block from to pack slots rows depth)) i
        ≡ Some result }
{
    let turn = 1 + 4 * u64::from(depth) * u64::from(pack);
    let block = i / turn;
    let step = i % turn;
    if step == 0 {
        return Access::Read {
            region: from,
            place: block as u32,
        };
    }
    let each = 4 * u64::from(depth);
    let slot = block * u64::from(pack) + (step - 1) / each;
    slot_nth(to, rows, depth, slot as u32, (step - 1) % each)
}

// The accesses of both buckets of a slot.
#[tactic(auto, using(crate::proofs::Places::slot_first, crate::proofs::Places::slot_second))]
fn slot_nth(to: u64, rows: u32, depth: u32, slot: u32, i: u64) -> Access
    requires some { 1 ≤ rows }
    requires rows { IsFew rows }
    requires depth { depth ≤ 8 }
    requires within { i < 4 * depth }
    ensures { slice_get (hash_slot to rows depth slot) i ≡ Some result }
{
    let half = 2 * u64::from(depth);
    if i < half {
        in_bucket(to, first_bucket(rows, slot), depth, i)
    } else {
        in_bucket(to, second_bucket(rows, slot), depth, i - half)
    }
}

// The accesses of one bucket.
#[tactic(auto, using(crate::proofs::Places::at_bucket))]
fn in_bucket(to: u64, bucket: u32, depth: u32, i: u64) -> Access
    requires bucket { IsFew bucket }
    requires depth { depth ≤ 8 }
    requires within { i < 2 * depth }
    ensures { slice_get (bucket_part to depth bucket) i ≡ Some result }
{
    copied(i, to, to, bucket * depth + (i / 2) as u32)
}

/// The accesses of a join, after its region is made.
#[tactic(auto, using(crate::proofs::Places::left_read, crate::proofs::Places::right_pair, crate::proofs::Places::left_few, crate::proofs::Places::right_few, crate::proofs::Places::right_write, crate::proofs::Places::chunk_start))]
pub(crate) fn pair_nth(
    left: u64,
    right: u64,
    to: u64,
    lefts: u32,
    rights: u32,
    buffered: u32,
    i: u64,
) -> Access
    requires lefts { IsFew lefts }
    requires rights { IsFew rights }
    requires joined { IsFew (div_ceil lefts buffered * rights) }
    requires buffered { IsFew buffered }
    requires some { 1 ≤ buffered }
    requires within { i < length
        (each (div_ceil lefts buffered) (join_chunk left right to lefts rights buffered)) }
    ensures { slice_get
        (each (div_ceil lefts buffered) (join_chunk left right to lefts rights buffered)) i
        ≡ Some result }
{
    let turn = u64::from(buffered) + 2 * u64::from(rights);
    let chunk = i / turn;
    let step = i % turn;
    let first = chunk * u64::from(buffered);
    let here = u64::from(buffered).min(u64::from(lefts) - first);
    if step < here {
        return Access::Read {
            region: left,
            place: (first + step) as u32,
        };
    }
    let v = (step - here) / 2;
    pick(
        step - here,
        Access::Read {
            region: right,
            place: v as u32,
        },
        Access::Write {
            region: to,
            place: (chunk * u64::from(rights) + v) as u32,
        },
    )
}
