//! A swapped sheet in a stack.

ghost use Rattle.stack.specs.Stacks.{over, swap, shown};
ghost use Rattle.std.proofs.Common.{ap};

use crate::edits::{at_words, edit_turned};
use crate::over;
use crate::stacked::Stacked;
use crate::step::Turn;
use history::operation::{Answer, Edit, LookUp};
use sheet::sheet::Sheet;
use turned::swapped::Swapped;

/// A swapped sheet, over the sheet below. An edit of it is one of the sheet below with its words exchanged.
impl<S: Stacked> Stacked for Swapped<S> {
    ghost stack = { λ s. over swap (S.Stacked.stack s.below) };

    ghost reads = { λ s. ap (shown swap) (S.Stacked.reads s.below) };

    fn look_up(&self, route: &[Turn], question: LookUp) -> Answer {
        over::look_up(self, &self.below, S::free_if_editable, route, question)
    }

    fn edit(&mut self, route: &[Turn], edit: Edit) -> Answer {
        let lengths = self.lengths();
        let turned = at_words(edit, |left, right| (right, left));
        edit_turned(&mut self.below, lengths, route, edit, turned)
    }
}
