//! Blocks of one length.
ghost use Rattle.std.specs.Prelude.{◌≡◌, ◌<◌, ◌≤◌, ◌*◌, length, vec_len};
ghost use Rattle.ob_meddle.specs.Flips.{flipped};

use std::alloc::{AllocError, Global};

/// The longest block that there is, in bytes.
pub(crate) const LONGEST: usize = 16_416;

/// Blocks of one length, one after the other.
#[derive(Drop)]
pub(crate) struct Blocks {
    pub(crate) count: u32,
    pub(crate) len: u32,
    bytes: Vec<u8>,
    ghost sized: { vec_len bytes ≡ count * len },
    ghost short: { len ≤ 16416 },
}

impl Blocks {
    ghost use Rattle.std.specs.Prelude.{ℕ, ◌≢◌, ◌≤◌, false, true, replicate, IfOk};
    ghost use Rattle.ob_meddle.specs.Bytes.{block_at};

    /// Blocks of zeros.
    pub(crate) fn new(alloc: Global, count: u32, len: u32) -> Result<Blocks, AllocError>
        requires count { count ≤ 134217728 }
        requires len { len ≤ 16416 }
        ensures count { IfOk result (λ b. b.count ≡ count) }
        ensures len { IfOk result (λ b. b.len ≡ len) }
        ensures zeros { IfOk result (λ b. (place : ℕ) → place < count
            → block_at b place ≡ replicate len 0) }
    {
        let size = count as usize * len as usize;
        Ok(Blocks {
            count,
            len,
            bytes: vec![in alloc; 0; size]?,
        })
    }

    /// Copies the block at a place to `buf`.
    pub(crate) fn read(&self, place: u32, buf: &mut [u8])
        requires place { place < self.now.count }
        requires len { length buf.old ≡ self.now.len }
        ensures { buf.new ≡ block_at self.now place }
    {
        let from = place as usize * self.len as usize;
        buf.copy_from_slice(&self.bytes[from..from + self.len as usize]);
    }

    /// Whether the block at a place is this one.
    pub(crate) fn is(&self, place: u32, block: &[u8]) -> bool
        requires place { place < self.now.count }
        requires len { length block.now ≡ self.now.len }
        ensures same { result ≡ true → block_at self.now place ≡ block.now }
        ensures other { result ≡ false → block_at self.now place ≢ block.now }
    {
        let from = place as usize * self.len as usize;
        &self.bytes[from..from + self.len as usize] == block
    }

    /// Writes a block at a place.
    pub(crate) fn write(&mut self, place: u32, block: &[u8])
        requires place { place < self.old.count }
        requires len { length block.now ≡ self.old.len }
        ensures count { self.new.count ≡ self.old.count }
        ensures len { self.new.len ≡ self.old.len }
        ensures here { block_at self.new place ≡ block.now }
        ensures others { (x : ℕ) → x ≢ place → block_at self.new x ≡ block_at self.old x }
    {
        let from = place as usize * self.len as usize;
        self.bytes[from..from + self.len as usize].copy_from_slice(block);
    }

    /// Copies the block at a place from other blocks of as many and as long ones.
    pub(crate) fn take(&mut self, place: u32, from: &Blocks)
        requires place { place < self.old.count }
        requires count { from.now.count ≡ self.old.count }
        requires len { from.now.len ≡ self.old.len }
        ensures count { self.new.count ≡ self.old.count }
        ensures len { self.new.len ≡ self.old.len }
        ensures here { block_at self.new place ≡ block_at from.now place }
        ensures others { (x : ℕ) → x ≢ place → block_at self.new x ≡ block_at self.old x }
    {
        let start = place as usize * self.len as usize;
        self.write(place, &from.bytes[start..start + self.len as usize]);
    }

    /// Inverts the lowest bit of a byte of the block at a place.
    pub(crate) fn flip(&mut self, place: u32, byte: u32)
        requires place { place < self.old.count }
        requires byte { byte < self.old.len }
        ensures count { self.new.count ≡ self.old.count }
        ensures len { self.new.len ≡ self.old.len }
        ensures here { block_at self.new place ≡ flipped byte (block_at self.old place) }
        ensures others { (x : ℕ) → x ≢ place → block_at self.new x ≡ block_at self.old x }
    {
        let mut buffer = [0; LONGEST];
        let block = &mut buffer[..self.len as usize];
        self.read(place, block);
        flip_byte(block, byte);
        self.write(place, block);
    }
}

fn flip_byte(block: &mut [u8], byte: u32)
    requires { byte < length block.old }
    ensures { block.new ≡ flipped byte block.old }
{
    block[byte as usize] ^= 1;
}
