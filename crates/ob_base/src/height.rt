//! The height of an index's tree.
ghost use Rattle.std.specs.Prelude.{◌≡◌, ◌≤◌};
ghost use Rattle.ob_base.specs.Indexes.{height_of};

/// The least height of a tree that has a leaf for each of so many keys.
pub fn tree_height(keys: u32) -> u32
    requires { keys ≤ 16777216 }
    ensures value { result ≡ height_of keys }
    ensures few { result ≤ 24 }
{
    for height in 0..24 {
        if 1 << height >= keys {
            return height;
        }
    }
    24
}
