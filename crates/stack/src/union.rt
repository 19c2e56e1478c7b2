//! A union in a stack.

ghost use Rattle.stack.specs.Stacks.{both, union, joined};
ghost use Rattle.std.proofs.Common.{ap₂};

use crate::beside;
use crate::stacked::Stacked;
use crate::step::Turn;
use history::operation::{Answer, Edit, LookUp};
use layers::union::Union;

/// A union, over its parts. It cannot be edited, and its parts can.
impl<P: Stacked, Q: Stacked> Stacked for Union<P, Q> {
    ghost stack = { λ s. both union (P.Stacked.stack s.first) (Q.Stacked.stack s.second) };

    ghost reads = { λ s. ap₂ (joined union) (P.Stacked.reads s.first) (Q.Stacked.reads s.second) };

    fn look_up(&self, route: &[Turn], question: LookUp) -> Answer {
        beside::look_up(self, &self.first, &self.second, route, question)
    }

    fn edit(&mut self, route: &[Turn], edit: Edit) -> Answer {
        beside::edit(&mut self.first, &mut self.second, route, edit)
    }
}
