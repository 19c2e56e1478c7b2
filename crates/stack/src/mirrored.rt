//! A mirrored sheet in a stack.

ghost use Rattle.stack.specs.Stacks.{over, mirror, shown};
ghost use Rattle.std.proofs.Common.{ap};

use crate::edits::{at_words, edit_turned};
use crate::over;
use crate::stacked::Stacked;
use crate::step::Turn;
use history::operation::{Answer, Edit, LookUp};
use sheet::sheet::Sheet;
use turned::mirrored::Mirrored;

/// A mirrored sheet, over the sheet below. An edit of it is one of the sheet below at the opposite right word.
impl<S: Stacked> Stacked for Mirrored<S> {
    ghost stack = { λ s. over mirror (S.Stacked.stack s.below) };

    ghost reads = { λ s. ap (shown mirror) (S.Stacked.reads s.below) };

    fn look_up(&self, route: &[Turn], question: LookUp) -> Answer {
        over::look_up(self, &self.below, S::free_if_editable, route, question)
    }

    fn edit(&mut self, route: &[Turn], edit: Edit) -> Answer {
        let lengths = self.lengths();
        let turned = at_words(edit, |left, right| (left, lengths.opposite(right)));
        edit_turned(&mut self.below, lengths, route, edit, turned)
    }
}
