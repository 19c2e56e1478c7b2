//! A sheet that can only be asked, at the bottom of a stack.

ghost use Rattle.stack.specs.Stacks.{fixed};
ghost use Rattle.std.proofs.Common.{refl};

use crate::bottom::{Bottom, Fixed};
use history::operation::{Answer, Edit, LookUp};
use history::run;
use sheet::sheet::Sheet;
use stack::stacked::Stacked;
use stack::step::Turn;

/// The bottom of a stack that can only be asked. No route leads further down.
impl<S: Sheet> Stacked for Bottom<S, Fixed> {
    ghost stack = { λ s. fixed (S.Sheet.meaning s.sheet) };

    ghost reads = { λ _. refl };

    fn look_up(&self, route: &[Turn], question: LookUp) -> Answer {
        match route {
            [] => run::look_up(&self.sheet, None, question),
            [Turn::First | Turn::Second, ..] => Answer::Nowhere,
        }
    }

    fn edit(&mut self, _route: &[Turn], _edit: Edit) -> Answer {
        Answer::Nowhere
    }
}
