//! Buckets in memory.
use crate::version::Version;
use crate::writing::{Buckets, Failed};

/// A block that lies at a place.
#[derive(Clone, Copy)]
pub struct Laid {
    pub version: Version,
    pub rows: u64,
    pub left: Version,
    pub right: Version,
}

/// A region of buckets in memory, which fails at places that it doesn't have.
#[derive(Drop)]
pub struct MemBuckets {
    pub cells: Vec<Option<Laid>>,
}

impl Buckets for MemBuckets {
    ghost use Rattle.std.specs.Prelude.{OnOk, OnErr};
    ghost use Rattle.ob_linked.specs.Memory.{cells_in};
    ghost use Rattle.ob_linked.specs.Writing.{Puts, Spoils};

    ghost cells = { λ s. cells_in s.cells.items };

    fn put(
        &mut self,
        bucket: u32,
        version: Version,
        rows: u64,
        left: Version,
        right: Version,
    ) -> Result<(), Failed>
        ensures ok { OnOk result (Puts bucket version rows left right
            (cells_in self.old.cells.items) (cells_in self.new.cells.items)) }
        ensures err { OnErr result (Spoils bucket version
            (cells_in self.old.cells.items) (cells_in self.new.cells.items)) }
    {
        let side: u64 = if version.side { 1 } else { 0 };
        let place = (2 * u64::from(bucket) + side) as usize;
        if place < self.cells.len() {
            self.cells[place] = Some(Laid {
                version,
                rows,
                left,
                right,
            });
            Ok(())
        } else {
            Err(Failed)
        }
    }
}
