//! The first read that gave other bytes than were written.
ghost use Rattle.std.specs.Prelude.{◌≡◌, ◌≤◌, length, take};

use crate::blocks::LONGEST;

/// A read that gave other bytes than were written last, and how many accesses came before it.
#[derive(Clone, Copy, Drop)]
pub(crate) struct Caught {
    region: u64,
    place: u32,
    count: u64,
    len: u32,
    bytes: [u8; LONGEST],
}

impl Caught {
    pub(crate) fn new(region: u64, place: u32, count: u64, block: &[u8]) -> Caught
        requires { length block.now ≤ 16416 }
        ensures region { result.region ≡ region }
        ensures place { result.place ≡ place }
        ensures count { result.count ≡ count }
        ensures bytes { take result.len result.bytes ≡ block.now }
    {
        let mut bytes = [0; LONGEST];
        bytes[..block.len()].copy_from_slice(block);
        Caught {
            region,
            place,
            count,
            len: block.len() as u32,
            bytes,
        }
    }
}
