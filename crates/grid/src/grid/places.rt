//! Where links stand in a grid's block.

ghost use Rattle.std.specs.Prelude.{◌≡◌, ◌/◌, ◌<◌, true};
ghost use Rattle.alignment.specs.Alignment.{within};
ghost use Rattle.grid.specs.Layout.{block_bytes, enough, place};
ghost use Rattle.grid.specs.Grids.{bytes};

use crate::grid::{BLOCK_BYTES, Grid};

impl Grid {
    /// Whether the block is long enough to keep links.
    pub(crate) fn keeps_links(&self) -> bool
        ensures { result ≡ enough (bytes self.now) }
    {
        self.block.len() >= BLOCK_BYTES
    }

    /// The bit of the link between two words of the sheet.
    pub(crate) fn place(&self, left: u16, right: u16) -> usize
        requires left { within self.now.lengths.left left ≡ true }
        requires right { within self.now.lengths.right right ≡ true }
        ensures value { result ≡ place self.now.lengths.right left right }
        ensures inside { result / 8 < block_bytes }
    {
        (left as usize - 1) * self.lengths.right() as usize + (right as usize - 1)
    }
}
