//! The parts of which every script is joined.
ghost use Rattle.std.specs.Prelude.{◌≡◌, ◌<◌, ◌^◌, true, Some, length, slice_get};
ghost use Rattle.ob_script.specs.Sections.{accesses_of, is_even, IsSized};

use crate::place::{bucket_nth, copied, pair_nth, pass_nth, path_place, turn_nth};
use ob_base::Access;

/// A part of a script; `blocks` are those of the region that is read.
#[derive(Clone, Copy, Debug, PartialEq, Eq)]
pub(crate) enum Section {
    /// A region is made, of blocks of this width and a tag.
    Make {
        region: u64,
        blocks: u32,
        width: u32,
    },
    /// A region's blocks are read in order.
    Reads {
        region: u64,
        blocks: u32,
    },
    /// A region's blocks are written in order.
    Writes {
        region: u64,
        blocks: u32,
    },
    /// Each block of a region is read and written to another.
    Copies {
        from: u64,
        to: u64,
        blocks: u32,
    },
    /// A region is discarded.
    Discard {
        region: u64,
    },
    /// In passes over a region, as many blocks as are buffered are written to another.
    Passes {
        from: u64,
        to: u64,
        blocks: u32,
        results: u32,
        buffered: u32,
    },
    /// For each slot in turn, the next slot of a result of so many rows is read and written.
    Turns {
        from: u64,
        to: u64,
        pack: u32,
        slots: u32,
        rows: u32,
    },
    /// For each slot in turn, both its buckets are read and written.
    Buckets {
        from: u64,
        to: u64,
        pack: u32,
        slots: u32,
        rows: u32,
        depth: u32,
    },
    /// For each chunk of left blocks, each right block is read, and a block of pairs is written.
    Pairs {
        left: u64,
        right: u64,
        to: u64,
        lefts: u32,
        rights: u32,
        buffered: u32,
    },
    /// The blocks of a leaf's path in an index's tree are read from the root down. No statement accesses an index yet.
    PathReads {
        region: u64,
        height: u32,
        leaf: u32,
    },
    /// The same blocks are written, in this order too.
    PathWrites {
        region: u64,
        height: u32,
        leaf: u32,
    },
}

impl Section {
    /// The number of its accesses.
    #[tactic(auto, using(crate::proofs::Sizes::size_is))]
    pub(crate) fn len(&self) -> u64
        requires { IsSized self.now }
        ensures value { result ≡ length (accesses_of self.now) }
        ensures few { result < 2 ^ 49 }
    {
        match *self {
            Section::Make { .. } => 1,
            Section::Reads { blocks, .. } => u64::from(blocks),
            Section::Writes { blocks, .. } => u64::from(blocks),
            Section::Copies { blocks, .. } => 2 * u64::from(blocks),
            Section::Discard { .. } => 1,
            Section::Passes {
                blocks,
                results,
                buffered,
                ..
            } => { u64::from(results.div_ceil(buffered)) * u64::from(blocks) + u64::from(results) }
            Section::Turns { pack, slots, .. } => {
                u64::from(slots.div_ceil(pack)) + 2 * u64::from(slots)
            }
            Section::Buckets {
                pack,
                slots,
                depth,
                ..
            } => { u64::from(slots.div_ceil(pack)) + 4 * u64::from(depth) * u64::from(slots) }
            Section::Pairs {
                lefts,
                rights,
                buffered,
                ..
            } => {
                u64::from(lefts.div_ceil(buffered)) * (2 * u64::from(rights)) + u64::from(lefts)
            }
            Section::PathReads { height, .. } => 4 * (u64::from(height) + 1),
            Section::PathWrites { height, .. } => 4 * (u64::from(height) + 1),
        }
    }

    /// Its access at place `i`, from 0.
    pub(crate) fn nth(&self, i: u64) -> Access
        requires sized { IsSized self.now }
        requires within { i < length (accesses_of self.now) }
        ensures { slice_get (accesses_of self.now) i ≡ Some result }
    {
        match *self {
            Section::Passes {
                from,
                to,
                blocks,
                results,
                buffered,
            } => pass_nth(from, to, blocks, results, buffered, i),
            Section::Turns {
                from,
                to,
                pack,
                slots,
                rows,
            } => turn_nth(from, to, pack, slots, rows, i),
            Section::Buckets {
                from,
                to,
                pack,
                slots,
                rows,
                depth,
            } => bucket_nth(from, to, pack, slots, rows, depth, i),
            Section::Pairs {
                left,
                right,
                to,
                lefts,
                rights,
                buffered,
            } => pair_nth(left, right, to, lefts, rights, buffered, i),
            _ => self.even_nth(i),
        }
    }

    // The same of a section whose blocks are all asked alike.
    #[tactic(auto, using(crate::proofs::Sizes::size_is, crate::proofs::Places::at_read, crate::proofs::Places::at_write, crate::proofs::Places::at_copy, crate::proofs::Places::at_path_read, crate::proofs::Places::at_path_write))]
    fn even_nth(&self, i: u64) -> Access
        requires even { is_even self.now ≡ true }
        requires sized { IsSized self.now }
        requires within { i < length (accesses_of self.now) }
        ensures { slice_get (accesses_of self.now) i ≡ Some result }
    {
        match *self {
            Section::Make {
                region,
                blocks,
                width,
            } => Access::Make {
                region,
                blocks,
                len: width + 32,
            },
            Section::Reads { region, .. } => Access::Read {
                region,
                place: i as u32,
            },
            Section::Writes { region, .. } => Access::Write {
                region,
                place: i as u32,
            },
            Section::Copies { from, to, .. } => copied(i, from, to, (i / 2) as u32),
            Section::Discard { region } => Access::Discard { region },
            Section::PathReads {
                region,
                height,
                leaf,
            } => Access::Read {
                region,
                place: path_place(height, leaf, i as u32),
            },
            Section::PathWrites {
                region,
                height,
                leaf,
            } => Access::Write {
                region,
                place: path_place(height, leaf, i as u32),
            },
            _ => unreachable!(),
        }
    }
}

impl Default for Section {
    fn default() -> Section {
        Section::Discard { region: 0 }
    }
}
