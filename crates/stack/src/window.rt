//! A window in a stack.

ghost use Rattle.stack.specs.Stacks.{over, window, shown};
ghost use Rattle.std.proofs.Common.{ap};

use crate::over;
use crate::stacked::Stacked;
use crate::step::Turn;
use history::operation::{Answer, Edit, LookUp};
use layers::window::Window;

/// A window, over the sheet below. It cannot be edited, and the sheet below can.
impl<S: Stacked> Stacked for Window<S> {
    ghost stack = { λ s. over (window s.left.first s.left.length s.right.first s.right.length) (S.Stacked.stack s.below) };

    ghost reads = { λ s. ap (shown (window s.left.first s.left.length s.right.first s.right.length)) (S.Stacked.reads s.below) };

    fn look_up(&self, route: &[Turn], question: LookUp) -> Answer {
        over::look_up(self, &self.below, |_| None, route, question)
    }

    fn edit(&mut self, route: &[Turn], edit: Edit) -> Answer {
        match route {
            [Turn::First, rest @ ..] => self.below.edit(rest, edit),
            [] | [Turn::Second, ..] => Answer::Nowhere,
        }
    }
}
