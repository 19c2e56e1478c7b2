//! A borrowed sheet over its lender.

ghost use Rattle.stack.specs.Stacks.{over, borrowed};

use crate::over;
use crate::stacked::Stacked;
use crate::step::Turn;
use history::operation::{Answer, Edit, LookUp};

/// A shared borrow, over the sheet that is lent. It lets everything below be asked, and nothing be changed.
impl<'a, S: Stacked> Stacked for &'a S {
    ghost stack = { λ s. over borrowed (S.Stacked.stack s.now) };

    ghost reads = { λ s. S.Stacked.reads s.now };

    fn look_up(&self, route: &[Turn], question: LookUp) -> Answer {
        over::look_up(self, *self, |_| None, route, question)
    }

    fn edit(&mut self, _route: &[Turn], _edit: Edit) -> Answer {
        Answer::Nowhere
    }
}
