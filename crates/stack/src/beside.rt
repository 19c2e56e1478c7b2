//! What a layer over two sheets does, whichever layer it is: it cannot be edited, and its parts can.

ghost use Rattle.std.specs.Prelude.{◌≡◌};
ghost use Rattle.stack.specs.Stacks.{Joint, both, joined};
ghost use Rattle.stack.specs.Places.{look_told, Edited};

use crate::stacked::Stacked;
use crate::step::Turn;
use history::operation::{Answer, Edit, LookUp};
use history::run;
use sheet::sheet::Sheet;

/// Asks the layer itself, or the part that the route leads to.
pub(crate) fn look_up<T: Sheet, P: Stacked, Q: Stacked>(
    top: &T,
    first: &P,
    second: &Q,
    route: &[Turn],
    question: LookUp,
) -> Answer
    ensures { (j : Joint) → T.meaning top.now ≡ joined j (P.Sheet.meaning first.now) (Q.Sheet.meaning second.now) → result ≡ look_told (both j (P.Stacked.stack first.now) (Q.Stacked.stack second.now)) route.now question }
{
    match route {
        [] => run::look_up(top, None, question),
        [Turn::First, rest @ ..] => first.look_up(rest, question),
        [Turn::Second, rest @ ..] => second.look_up(rest, question),
    }
}

/// Edits the part that the route leads to.
pub(crate) fn edit<P: Stacked, Q: Stacked>(
    first: &mut P,
    second: &mut Q,
    route: &[Turn],
    edit: Edit,
) -> Answer
    ensures { (j : Joint) → Edited (both j (P.Stacked.stack first.old) (Q.Stacked.stack second.old)) route.now edit result (both j (P.Stacked.stack first.new) (Q.Stacked.stack second.new)) }
{
    match route {
        [] => Answer::Nowhere,
        [Turn::First, rest @ ..] => first.edit(rest, edit),
        [Turn::Second, rest @ ..] => second.edit(rest, edit),
    }
}
