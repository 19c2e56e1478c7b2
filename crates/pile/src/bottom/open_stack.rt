//! An editable sheet, at the bottom of a stack.

ghost use Rattle.stack.specs.Stacks.{base};
ghost use Rattle.std.proofs.Common.{sym};

use crate::bottom::{Bottom, Open};
use history::operation::{Answer, Edit, LookUp};
use history::run;
use sheet::sheet::Editable;
use stack::stacked::Stacked;
use stack::step::Turn;

/// The bottom of a stack that can be edited. No route leads further down.
impl<S: Editable> Stacked for Bottom<S, Open> {
    ghost stack = { λ s. base (S.Editable.state s.sheet) };

    ghost reads = { λ s. sym (S.Editable.means s.sheet) };

    fn look_up(&self, route: &[Turn], question: LookUp) -> Answer {
        match route {
            [] => run::look_up(&self.sheet, Some(self.sheet.free()), question),
            [Turn::First | Turn::Second, ..] => Answer::Nowhere,
        }
    }

    fn edit(&mut self, route: &[Turn], edit: Edit) -> Answer {
        match route {
            [] => run::edit(&mut self.sheet, edit),
            [Turn::First | Turn::Second, ..] => Answer::Nowhere,
        }
    }
}
