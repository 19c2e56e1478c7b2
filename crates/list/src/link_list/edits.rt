//! What a list does as an editable sheet.

ghost use Rattle.std.specs.Prelude.{◌≡◌, false, is_ok};
ghost use Rattle.sheet.specs.Edits.{Bounded, outcome, linking, unlinking, wiping};
ghost use Rattle.list.specs.Blocks.{left_block};
ghost use Rattle.list.specs.Lists.{records_of, alignment_of, state_of};
ghost use Rattle.list.specs.ListLaws.{list_bounded};
ghost use Rattle.std.proofs.Common.{refl};

use crate::link_list::{LinkList, MOST_LINKS};
use crate::record::{FREE, LinkRecord};
use sheet::refusal::Refusal;
use sheet::sheet::Editable;

/// A list as an editable sheet. A refusal changes no record of the block.
impl Editable for LinkList {
    ghost state = { state_of };

    ghost means = { λ _. refl };

    ghost bounded = { list_bounded };

    /// How many links the list can still take: one for each of the first 4,096 records of the block that holds no link.
    #[tactic(auto, using(crate::specs::ListLaws::list_bounded))]
    fn free(&self) -> u32 {
        (self.block.len().min(MOST_LINKS) - self.count) as u32
    }

    /// Links two words. The links from its place on move up by one record. It refuses a left word outside the sheet, then a right word outside
    /// it, then words that are linked already, then a list in which nothing is free.
    #[tactic(auto, using(crate::specs::ListLaws::list_bounded, crate::proofs::ListEdits::block_kept))]
    fn link(&mut self, left: u16, right: u16) -> Result<(), Refusal>
        ensures done { outcome result (state_of self.new) ≡ linking (state_of self.old) left right }
        ensures bounded { Bounded (state_of self.new) }
        ensures block { records_of self.new ≡ left_block (alignment_of self.old) (alignment_of self.new) (records_of self.old) }
        ensures kept { is_ok result ≡ false → records_of self.new ≡ records_of self.old }
    {
        self.lengths.check_words(left, right)?;
        let Err(k) = self.search(left, right) else {
            return Err(Refusal::AlreadyLinked);
        };
        if self.free() == 0 {
            return Err(Refusal::NothingFree);
        }
        self.block.copy_within(k..self.count, k + 1);
        self.block[k] = LinkRecord { left, right };
        self.count += 1;
        Ok(())
    }

    /// Removes the link between two words. The links after it move down by one record, and the record that this frees becomes (0, 0). It
    /// refuses a left word outside the sheet, then a right word outside it, then words that are not linked.
    #[tactic(auto, using(crate::specs::ListLaws::list_bounded, crate::proofs::ListEdits::block_kept))]
    fn unlink(&mut self, left: u16, right: u16) -> Result<(), Refusal>
        ensures done { outcome result (state_of self.new) ≡ unlinking (state_of self.old) left right }
        ensures bounded { Bounded (state_of self.new) }
        ensures block { records_of self.new ≡ left_block (alignment_of self.old) (alignment_of self.new) (records_of self.old) }
        ensures kept { is_ok result ≡ false → records_of self.new ≡ records_of self.old }
    {
        self.lengths.check_words(left, right)?;
        let Ok(k) = self.search(left, right) else {
            return Err(Refusal::NotLinked);
        };
        self.block.copy_within(k + 1..self.count, k);
        self.count -= 1;
        self.block[self.count] = FREE;
        Ok(())
    }

    /// Removes all links. The records that held them become (0, 0).
    fn wipe(&mut self)
        ensures done { state_of self.new ≡ wiping (state_of self.old) }
        ensures bounded { Bounded (state_of self.new) }
        ensures block { records_of self.new ≡ left_block (alignment_of self.old) (alignment_of self.new) (records_of self.old) }
    {
        self.block.slice_mut(..self.count).fill(FREE);
        self.count = 0;
    }
}
