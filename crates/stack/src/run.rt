//! Running a history on a stack.

ghost use Rattle.std.specs.Prelude.{◌≡◌};
ghost use Rattle.history.specs.Histories.{ran};
ghost use Rattle.stack.specs.Stacks.{Stack, reading};
ghost use Rattle.stack.specs.Histories.{step_told, step_left, living};

use crate::stacked::Stacked;
use crate::step::Step;
use history::operate::Operate;
use history::operation::{Answer, Operation};
use history::run::run_each;
use sheet::refusal::Refusal;

/// A step on any stack: its operation, at the end of its route.
impl<'a, S: Stacked> Operate<S> for Step<'a> {
    ghost View = { Stack };

    ghost state = { S.Stacked.stack };

    ghost answered = { step_told };

    ghost stepped = { step_left };

    fn operate(self, on: &mut S) -> Answer {
        match self.operation {
            Operation::Edit(edit) => on.edit(self.route, edit),
            Operation::LookUp(question) => on.look_up(self.route, question),
        }
    }
}

/// Runs a history on a stack, as `run_each`. The sheet on top then means what the stack left shows.
pub fn run<S: Stacked>(top: &mut S, history: &[Step], answers: &mut [Answer]) -> Result<(), Refusal>
    ensures done { ran result (S.stack top.new) answers.new ≡ living (S.stack top.old) history.now answers.old }
    ensures means { S.Sheet.meaning top.new ≡ reading (S.stack top.new) }
{
    run_each(top, history, answers)
}
