//! The blocks of an access, in order.
ghost use Rattle.std.specs.Prelude.{◌≡◌, ◌<◌};
ghost use Rattle.ob_oram.specs.Walks.{IsWalk, blocks_in, place_in, slot_in};

// The blocks that an access reads or writes, one after the other: those of the stash, or those of a path from the
// root down.
#[derive(Clone, Copy)]
pub(crate) enum Walk {
    Stash { slots: u32, height: u32 },
    Path { height: u32, leaf: u32 },
}

impl Walk {
    // How many there are.
    pub(crate) fn blocks(self) -> u32
        requires { IsWalk self }
        ensures { result ≡ blocks_in self }
    {
        match self {
            Walk::Stash { slots, .. } => slots,
            Walk::Path { height, .. } => 4 * (height + 1),
        }
    }

    // The place of the block after so many.
    pub(crate) fn place(self, c: u32) -> u32
        requires walk { IsWalk self }
        requires within { c < blocks_in self }
        ensures { result ≡ place_in self c }
    {
        match self {
            Walk::Stash { .. } => c,
            Walk::Path { height, leaf } => {
                4 * ((((1 << height) + leaf) >> (height - c / 4)) - 1) + c % 4
            }
        }
    }

    // The slot of the buffer that it belongs to.
    pub(crate) fn slot(self, c: u32) -> usize
        requires walk { IsWalk self }
        requires within { c < blocks_in self }
        ensures { result ≡ slot_in self c }
    {
        match self {
            Walk::Stash { height, .. } => (4 * (height + 1) + c) as usize,
            Walk::Path { height, .. } => (4 * (height - c / 4) + c % 4) as usize,
        }
    }
}
