//! Taking a block over, and handing it back.

ghost use Rattle.std.specs.Prelude.{◌≡◌};
ghost use Rattle.grid.specs.Blocks.{test_block, laid, laid_state};
ghost use Rattle.grid.specs.Grids.{bytes, state_of};

use crate::grid::{BLOCK_BYTES, Grid};
use sheet::lengths::Lengths;
use sheet::refusal::Refusal;

impl Grid {
    /// Whether a grid can keep links in the block. A block of fewer than 32,768 bytes is refused.
    pub fn test(block: &[u8]) -> Result<(), Refusal>
        ensures { result ≡ test_block block.now }
    {
        if block.len() < BLOCK_BYTES {
            return Err(Refusal::BlockTooShort);
        }
        Ok(())
    }

    /// A grid without links on the block, whose first 32,768 bytes become zero. A shorter block is kept as it is, and takes no links.
    pub fn lay(lengths: Lengths, mut block: Vec<u8>) -> Grid
        ensures lengths { result.lengths ≡ lengths }
        ensures block { bytes result ≡ laid block.items }
        ensures state { state_of result ≡ laid_state lengths.left lengths.right block.items }
    {
        clear_used(&mut block);
        Grid {
            lengths,
            block,
            count: 0,
        }
    }

    /// The block as it is now.
    pub fn into_block(self) -> Vec<u8>
        ensures { result ≡ self.block }
    {
        self.block
    }
}

/// Sets the bytes that a grid uses to zero. A shorter block is kept as it is.
#[tactic(auto, using(crate::proofs::Laid::laid_from_fill))]
pub(crate) fn clear_used(block: &mut [u8])
    ensures { block.new ≡ laid block.old }
{
    if block.len() >= BLOCK_BYTES {
        let (used, _) = block.split_at_mut(BLOCK_BYTES);
        used.fill(0);
    }
}
