//! A path is written to the other places of its buckets.
ghost use Rattle.std.specs.Prelude.{◌≡◌, ◌<◌, ◌≤◌, ◌+◌, ◌*◌, ◌^◌, ℕ, OnOk, OnErr, length, if◌then◌else◌, not};
ghost use Rattle.ob_linked.specs.Linked.{Cells, Tree, IsStoredIn, turned};
ghost use Rattle.ob_linked.specs.Writing.{Puts, Spoils, KeepsOthers, Writes, IsPathOf, buckets_of, rows_in, numbers_in, child_version, block_of};

use crate::version::Version;

/// The store failed.
#[derive(Clone, Copy)]
pub struct Failed;

/// A bucket of a path as it was read, and the rows that it is to have.
#[derive(Clone, Copy)]
pub struct Step {
    pub bucket: u32,
    pub version: Version,
    pub left: Version,
    pub right: Version,
    pub rows: u64,
}

/// A region of buckets, each with two places.
pub trait Buckets {
    ghost cells: { Self → Cells ℕ };

    /// Seals a bucket's block as this version, and writes it to its place. After `Failed` anything may lie there.
    fn put(
        &mut self,
        bucket: u32,
        version: Version,
        rows: u64,
        left: Version,
        right: Version,
    ) -> Result<(), Failed>
        ensures ok { OnOk result (Puts bucket version rows left right
            (cells self.old) (cells self.new)) }
        ensures err { OnErr result (Spoils bucket version (cells self.old) (cells self.new)) };
}

// The version of a child: the one that it gets, where the path goes on with it.
fn version_below(child: u64, was: Version, below: &[Step], run: u64, number: u64) -> Version
    ensures { result ≡ child_version child was below.now run number }
{
    match below.split_first() {
        None => was,
        Some((step, _)) => {
            if u64::from(step.bucket) == child {
                Version {
                    side: !step.version.side,
                    run,
                    number,
                }
            } else {
                was
            }
        }
    }
}

// Writes the buckets of a path, or of its lower part, from the top down.
fn write_steps<B: Buckets>(
    region: &mut B,
    path: &[Step],
    run: u64,
    number: u64,
) -> Result<(), Failed>
    requires { number + length path.now < 2 ^ 64 }
    ensures { Writes path.now run number result (B.cells region.old) (B.cells region.new) }
{
    match path.split_first() {
        None => Ok(()),
        Some((step, below)) => {
            let version = Version {
                side: !step.version.side,
                run,
                number,
            };
            let bucket = u64::from(step.bucket);
            let left = version_below(2 * bucket + 1, step.left, below, run, number + 1);
            let right = version_below(2 * bucket + 2, step.right, below, run, number + 1);
            match region.put(step.bucket, version, step.rows, left, right) {
                Ok(()) => write_steps(region, below, run, number + 1),
                Err(e) => Err(e),
            }
        }
    }
}

/// Writes the path of a tree to the other places of its buckets, with other rows, under the numbers from this one on. At
/// whichever call the store fails, the tree that there was lies there as before; and where none fails, so does the tree
/// with that path.
pub fn write_path<B: Buckets>(
    region: &mut B,
    path: &[Step],
    run: u64,
    number: u64,
) -> Result<(), Failed>
    requires { number + length path.now < 2 ^ 64 }
    ensures before { (n : ℕ) (t : Tree ℕ) → IsPathOf t path.now
        → IsStoredIn n t (B.cells region.old)
        → IsStoredIn n t (B.cells region.new) }
    ensures behind { OnOk result ((n : ℕ) (t : Tree ℕ) → IsPathOf t path.now
        → IsStoredIn n t (B.cells region.old)
        → IsStoredIn n (turned t (buckets_of path.now) (rows_in path.now) run
        (numbers_in number path.now))
        (B.cells region.new)) }
{
    write_steps(region, path, run, number)
}
