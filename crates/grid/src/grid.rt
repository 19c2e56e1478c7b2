//! A sheet kept as bits in a block of bytes.

ghost use Rattle.std.specs.Prelude.{◌≡◌};
ghost use Rattle.alignment.specs.Links.{links};
ghost use Rattle.grid.specs.Layout.{grid_alignment};

use sheet::lengths::Lengths;

/// How many bytes of its block a grid uses.
pub const BLOCK_BYTES: usize = 32_768;

/// A sheet kept as bits in a block of bytes that the host hands over and gets back.
#[derive(Drop)]
pub struct Grid {
    lengths: Lengths,
    block: Vec<u8>,
    count: u32,
    ghost counted: { count ≡ links (grid_alignment lengths.left lengths.right block.items) },
}

mod block;
mod edits;
mod look_ups;
mod places;
