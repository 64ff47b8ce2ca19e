//! A path is read by the version of its first bucket.
ghost use Rattle.std.specs.Prelude.{◌≡◌, ◌+◌, ◌*◌, ℕ, List, IfOk, OnOk, length};
ghost use Rattle.ob_linked.specs.Linked.{Block};
ghost use Rattle.ob_linked.specs.Reading.{WasSealed, Told, child_of};

use crate::version::Version;
use crate::writing::Step;

/// What a bucket's block has: its rows, and the versions of its children.
#[derive(Clone, Copy)]
pub struct Contents {
    pub rows: u64,
    pub left: Version,
    pub right: Version,
}

/// The store failed, or what lay at a bucket's place is no block of the version that was wanted.
#[derive(Clone, Copy)]
pub enum ReadErr {
    Failed,
    Tampered(u32),
}

/// A region of buckets in which others may change what lies there between any two calls: they can put any block that was
/// ever sealed anywhere, and nothing else.
pub trait Opens {
    ghost made: { Self → List (Block ℕ) };

    /// Opens the block of a bucket as this version.
    fn get(&mut self, bucket: u32, version: Version) -> Result<Contents, ReadErr>
        ensures ok { IfOk result (λ c. WasSealed (made self.old) bucket version c) }
        ensures keeps { made self.new ≡ made self.old };
}

fn child_version(contents: Contents, bucket: u32, child: u32) -> Version
    ensures { result ≡ child_of contents bucket child }
{
    if u64::from(child) == 2 * u64::from(bucket) + 1 {
        contents.left
    } else {
        contents.right
    }
}

/// Reads buckets, each the child of the one before, by the version of the first. What it gives is what the tree has.
pub fn read_path<B: Opens>(
    region: &mut B,
    version: Version,
    buckets: &[u32],
    steps: &mut [Step],
) -> Result<(), ReadErr>
    requires { length steps.old ≡ length buckets.now }
    ensures told { OnOk result (Told (B.made region.old) version buckets.now steps.new) }
    ensures keeps { B.made region.new ≡ B.made region.old }
{
    match (buckets.split_first(), steps.split_first_mut()) {
        (Some((bucket, below)), Some((step, rest))) => match region.get(*bucket, version) {
            Ok(contents) => {
                *step = Step {
                    bucket: *bucket,
                    version,
                    left: contents.left,
                    right: contents.right,
                    rows: contents.rows,
                };
                match below.split_first() {
                    Some((child, _)) => {
                        let next = child_version(contents, *bucket, *child);
                        read_path(region, next, below, rest)
                    }
                    None => Ok(()),
                }
            }
            Err(e) => Err(e),
        },
        _ => Ok(()),
    }
}
