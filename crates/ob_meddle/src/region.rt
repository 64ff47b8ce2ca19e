//! A region's blocks as they were written, and as they stand.
ghost use Rattle.std.specs.Prelude.{◌≡◌, vec_len};

use crate::blocks::Blocks;
use std::alloc::{AllocError, Global};

/// The blocks of a region: what was written last, what stood before that, and what stands now.
#[derive(Drop)]
pub(crate) struct Region {
    pub(crate) live: bool,
    written: Vec<bool>,
    last: Blocks,
    stood: Blocks,
    stands: Blocks,
    ghost marked: { vec_len written ≡ stands.count },
    ghost lasts: { last.count ≡ stands.count },
    ghost stoods: { stood.count ≡ stands.count },
    ghost last_len: { last.len ≡ stands.len },
    ghost stood_len: { stood.len ≡ stands.len },
}

impl Region {
    ghost use Rattle.std.specs.Prelude.{ℕ, ◌≢◌, ◌≤◌, ◌<◌, false, true, None, Some, length, replicate, nat_lt, IfOk, if◌then◌else◌};
    ghost use Rattle.ob_meddle.specs.Flips.{flipped};
    ghost use Rattle.ob_meddle.specs.Held.{rest_of, is_of_size, stand_of, Differs, Agrees, can_flip, has_older, can_hold};

    /// A live region of zeros.
    pub(crate) fn new(alloc: Global, blocks: u32, len: u32) -> Result<Region, AllocError>
        requires blocks { blocks ≤ 134217728 }
        requires len { len ≤ 16416 }
        ensures rest { IfOk result (λ r. (rest_of r).live ≡ true) }
        ensures blocks { IfOk result (λ r. (rest_of r).blocks ≡ blocks) }
        ensures len { IfOk result (λ r. (rest_of r).len ≡ len) }
        ensures unwritten { IfOk result (λ r. (place : ℕ) → (rest_of r).last place ≡ None) }
        ensures zeros { IfOk result (λ r. (place : ℕ) → place < blocks
            → stand_of r place ≡ replicate len 0) }
    {
        Ok(Region {
            live: true,
            written: vec![in alloc; false; blocks as usize]?,
            last: Blocks::new(alloc, blocks, len)?,
            stood: Blocks::new(alloc, blocks, len)?,
            stands: Blocks::new(alloc, blocks, len)?,
        })
    }

    /// How long its blocks are, in bytes.
    pub(crate) fn len(&self) -> usize
        ensures value { result ≡ (rest_of self.now).len }
        ensures short { result ≤ 16416 }
    {
        self.stands.len as usize
    }

    /// Whether it has so many blocks of this length.
    pub(crate) fn has_size(&self, blocks: u32, len: u32) -> bool
        ensures { result ≡ is_of_size blocks len (rest_of self.now) }
    {
        self.stands.count == blocks && self.stands.len == len
    }

    /// Whether it has such a place.
    pub(crate) fn has(&self, place: u32) -> bool
        ensures { result ≡ nat_lt place (rest_of self.now).blocks }
    {
        place < self.stands.count
    }

    /// Copies what stands at a place to `buf`.
    pub(crate) fn read(&self, place: u32, buf: &mut [u8])
        requires place { place < (rest_of self.now).blocks }
        requires len { length buf.old ≡ (rest_of self.now).len }
        ensures { buf.new ≡ stand_of self.now place }
    {
        self.stands.read(place, buf);
    }

    /// Whether other bytes than these were written last at a place.
    pub(crate) fn differs(&self, place: u32, block: &[u8]) -> bool
        requires place { place < (rest_of self.now).blocks }
        requires len { length block.now ≡ (rest_of self.now).len }
        ensures differs { result ≡ true → Differs block.now ((rest_of self.now).last place) }
        ensures agrees { result ≡ false → Agrees block.now ((rest_of self.now).last place) }
    {
        self.written[place as usize] && !self.last.is(place, block)
    }

    /// Writes a block at a place.
    pub(crate) fn write(&mut self, place: u32, block: &[u8])
        requires place { place < (rest_of self.old).blocks }
        requires len { length block.now ≡ (rest_of self.old).len }
        ensures live { self.new.live ≡ self.old.live }
        ensures blocks { (rest_of self.new).blocks ≡ (rest_of self.old).blocks }
        ensures len { (rest_of self.new).len ≡ (rest_of self.old).len }
        ensures last { (rest_of self.new).last place ≡ Some block.now }
        ensures lasts { (x : ℕ) → x ≢ place
            → (rest_of self.new).last x ≡ (rest_of self.old).last x }
        ensures before { (rest_of self.new).before place ≡ stand_of self.old place }
        ensures befores { (x : ℕ) → x ≢ place
            → (rest_of self.new).before x ≡ (rest_of self.old).before x }
        ensures stands { stand_of self.new place ≡ block.now }
        ensures others { (x : ℕ) → x ≢ place → stand_of self.new x ≡ stand_of self.old x }
    {
        self.stood.take(place, &self.stands);
        self.last.write(place, block);
        self.stands.write(place, block);
        self.written[place as usize] = true;
    }

    /// Inverts the lowest bit of a byte.
    pub(crate) fn flip(&mut self, place: u32, byte: u32)
        ensures rest { rest_of self.new ≡ rest_of self.old }
        ensures here { stand_of self.new place
            ≡ (if can_flip place byte (rest_of self.old) then flipped byte (stand_of self.old place)
            else stand_of self.old place) }
        ensures others { (x : ℕ) → x ≢ place → stand_of self.new x ≡ stand_of self.old x }
    {
        if self.live && self.has(place) && byte < self.stands.len {
            self.stands.flip(place, byte);
        }
    }

    /// Puts back what stood at a place before its last write.
    pub(crate) fn age(&mut self, place: u32)
        ensures rest { rest_of self.new ≡ rest_of self.old }
        ensures here { stand_of self.new place
            ≡ (if has_older place (rest_of self.old) then (rest_of self.old).before place
            else stand_of self.old place) }
        ensures others { (x : ℕ) → x ≢ place → stand_of self.new x ≡ stand_of self.old x }
    {
        if self.live && self.has(place) && self.written[place as usize] {
            self.stands.take(place, &self.stood);
        }
    }

    /// Puts a block at a place.
    pub(crate) fn put(&mut self, place: u32, block: &[u8])
        ensures rest { rest_of self.new ≡ rest_of self.old }
        ensures here { stand_of self.new place
            ≡ (if can_hold place (length block.now) (rest_of self.old) then block.now
            else stand_of self.old place) }
        ensures others { (x : ℕ) → x ≢ place → stand_of self.new x ≡ stand_of self.old x }
    {
        if self.live && self.has(place) && block.len() == self.len() {
            self.stands.write(place, block);
        }
    }
}
