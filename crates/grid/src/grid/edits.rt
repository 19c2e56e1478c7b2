//! What a grid does as an editable sheet.

ghost use Rattle.std.specs.Prelude.{◌≡◌};
ghost use Rattle.sheet.specs.Edits.{Bounded, outcome, linking, unlinking, wiping};
ghost use Rattle.grid.specs.Blocks.{laid, linked_block, unlinked_block};
ghost use Rattle.grid.specs.Grids.{bytes, state_of};
ghost use Rattle.grid.specs.Bounded.{grid_bounded};
ghost use Rattle.std.proofs.Common.{refl};

use crate::bits;
use crate::grid::Grid;
use crate::grid::block::clear_used;
use sheet::refusal::Refusal;
use sheet::sheet::{Editable, Sheet};

/// A grid as an editable sheet. A refusal changes no byte of the block.
impl Editable for Grid {
    ghost state = { state_of };

    ghost means = { λ _. refl };

    ghost bounded = { λ s. grid_bounded s.lengths (bytes s) };

    /// How many links the grid can still take: one for each pair of words that is not linked, and none in a block that is too short.
    #[tactic(auto, using(crate::specs::Bounded::grid_bounded, alignment::proofs::Counts::links_le))]
    fn free(&self) -> u32 {
        if !self.keeps_links() {
            return 0;
        }
        self.lengths.left() as u32 * self.lengths.right() as u32 - self.count
    }

    /// Links two words, and sets the bit of their link. It refuses a left word outside the sheet, then a right word outside it, then words
    /// that are linked already, then a block that is too short.
    #[tactic(auto, using(crate::specs::Bounded::grid_bounded, crate::proofs::Edits::kept_where_none_free))]
    fn link(&mut self, left: u16, right: u16) -> Result<(), Refusal>
        ensures done { outcome result (state_of self.new) ≡ linking (state_of self.old) left right }
        ensures bounded { Bounded (state_of self.new) }
        ensures block { bytes self.new ≡ linked_block self.old.lengths.left self.old.lengths.right (bytes self.old) left right }
    {
        self.lengths.check_words(left, right)?;
        if self.linked(left, right) {
            return Err(Refusal::AlreadyLinked);
        }
        if self.free() == 0 {
            return Err(Refusal::NothingFree);
        }
        let b = self.place(left, right);
        bits::flip(&mut self.block, b);
        self.count += 1;
        Ok(())
    }

    /// Removes the link between two words, and clears its bit. It refuses a left word outside the sheet, then a right word outside it, then
    /// words that are not linked.
    #[tactic(auto, using(crate::specs::Bounded::grid_bounded))]
    fn unlink(&mut self, left: u16, right: u16) -> Result<(), Refusal>
        ensures done { outcome result (state_of self.new) ≡ unlinking (state_of self.old) left right }
        ensures bounded { Bounded (state_of self.new) }
        ensures block { bytes self.new ≡ unlinked_block self.old.lengths.left self.old.lengths.right (bytes self.old) left right }
    {
        self.lengths.check_words(left, right)?;
        if !self.linked(left, right) {
            return Err(Refusal::NotLinked);
        }
        let b = self.place(left, right);
        bits::flip(&mut self.block, b);
        self.count -= 1;
        Ok(())
    }

    /// Removes all links, and sets the first 32,768 bytes of the block to zero. A shorter block is kept as it is.
    fn wipe(&mut self)
        ensures done { state_of self.new ≡ wiping (state_of self.old) }
        ensures bounded { Bounded (state_of self.new) }
        ensures block { bytes self.new ≡ laid (bytes self.old) }
    {
        clear_used(&mut self.block);
        self.count = 0;
    }
}
