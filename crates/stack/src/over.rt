//! What a layer over one sheet does, whichever layer it is.

ghost use Rattle.std.specs.Prelude.{◌≡◌, ℕ, Option};
ghost use Rattle.std.specs.Fn.{FnOnceReturnsAt};
ghost use Rattle.stack.specs.Stacks.{Layer, over, shown, free_through, free_of};
ghost use Rattle.stack.specs.Places.{look_told};

use crate::stacked::Stacked;
use crate::step::Turn;
use history::operation::{Answer, LookUp};
use history::run;
use sheet::sheet::Sheet;

/// Asks the layer itself, whose free is what `free` finds below, or asks the sheet below.
pub(crate) fn look_up<T: Sheet, S: Stacked, F: FnOnce(&S) -> Option<u32>>(
    top: &T,
    below: &S,
    free: F,
    route: &[Turn],
    question: LookUp,
) -> Answer
    requires { F.IsAlwaysCallable free }
    ensures { (l : Layer) → T.meaning top.now ≡ shown l (S.Sheet.meaning below.now) → ((f : Option ℕ) → FnOnceReturnsAt F.FnOnce free below.now f → f ≡ free_through l (free_of (S.Stacked.stack below.now))) → result ≡ look_told (over l (S.Stacked.stack below.now)) route.now question }
{
    match route {
        [] => run::look_up(top, free(below), question),
        [Turn::First, rest @ ..] => below.look_up(rest, question),
        [Turn::Second, ..] => Answer::Nowhere,
    }
}
