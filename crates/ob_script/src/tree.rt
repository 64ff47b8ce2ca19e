//! The sizes of an index's tree.
ghost use Rattle.std.specs.Prelude.{◌≡◌, ◌≤◌};
ghost use Rattle.ob_base.specs.Indexes.{tree_blocks};

/// The blocks of a tree of this height.
pub fn tree_blocks(height: u32) -> u32
    requires { height ≤ 24 }
    ensures { result ≡ tree_blocks height }
{
    4 * ((2 << height) - 1)
}
