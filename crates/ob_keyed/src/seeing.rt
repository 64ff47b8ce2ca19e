//! What a watcher sees of a statement on an index.
ghost use Rattle.std.specs.Prelude.{◌≡◌};
ghost use Rattle.ob_keyed.specs.Seeing;

use ob_base::{End, Seen};

/// Of one that went to its end.
pub fn seen_whole(leaf: u32) -> Seen
    ensures { result ≡ Seeing.seen_whole leaf }
{
    Seen {
        k: None,
        plan: None,
        then: None,
        leaf: Some(u64::from(leaf)),
        end: End::Whole,
    }
}

/// Of one that was cut off after so many accesses, of an index with a stash of so many slots.
pub fn seen_cut(slots: u32, leaf: u32, accesses: u64) -> Seen
    ensures { result ≡ Seeing.seen_cut slots leaf accesses }
{
    let leaf = if accesses > u64::from(slots) {
        Some(u64::from(leaf))
    } else {
        None
    };
    Seen {
        k: None,
        plan: None,
        then: None,
        leaf,
        end: End::Cut(accesses),
    }
}
