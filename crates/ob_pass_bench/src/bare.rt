//! Seals and unseals of blocks, and nothing else.
ghost use Rattle.std.specs.Prelude.{◌≡◌, ◌+◌, length};

use ob_seal::{At, Keys, seal, unseal};

/// The most bytes of a block's rows.
const LONGEST: usize = 16_384;

// Seals a block of these rows so many times, each for another place.
fn seal_all(keys: &Keys, count: u32, row: &[u8], block: &mut [u8])
    requires { length block.old ≡ length row.now + 32 }
    ensures { length block.new ≡ length block.old }
{
    for place in 0..count {
        let at = At {
            region: 1,
            place,
            number: 1,
        };
        seal(keys, at, row, block);
    }
}

// Seals a block of these rows, and opens it so many times. Answers how often it did.
fn open_all(keys: &Keys, count: u32, row: &mut [u8], block: &mut [u8]) -> u64
    requires { length block.old ≡ length row.old + 32 }
{
    let at = At {
        region: 1,
        place: 0,
        number: 1,
    };
    seal(keys, at, row, block);
    let mut opened = 0_u32;
    for _ in 0..count {
        let is_open = unseal(keys, at, block, row).is_ok();
        opened = opened.saturating_add(u32::from(is_open));
    }
    u64::from(opened)
}

/// Seals and opens so many blocks, whose rows have so many bytes, and answers how many opened; or none
/// where that is too long.
pub(crate) fn seal_open(seals: u32, unseals: u32, len: u32) -> Option<u64> {
    let len = len as usize;
    if len > LONGEST {
        return None;
    }
    let keys = Keys::derive(&[5; 32]);
    let mut rows = [7; 16_384];
    let mut blocks = [0; 16_416];
    let row = &mut rows[..len];
    let block = &mut blocks[..len + 32];
    seal_all(&keys, seals, row, block);
    Some(open_all(&keys, unseals, row, block))
}
