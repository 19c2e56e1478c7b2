//! Two piles of layers, as a host builds them, with their stacks written out.

ghost use Rattle.std.specs.Prelude.{◌≡◌, []};
ghost use Rattle.history.specs.Histories.{ran};
ghost use Rattle.stack.specs.Stacks.{over, both, borrowed, mirror, union};
ghost use Rattle.stack.specs.Places.{look_told};
ghost use Rattle.stack.specs.Histories.{living};
ghost use Rattle.pile.specs.Piles.{pile_of, sheets_of, at_bottom};

use crate::bottom::{Bottom, Fixed, Open};
use history::operation::{Answer, LookUp};
use layers::intersection::Intersection;
use layers::union::Union;
use layers::window::{Stretch, Window};
use sheet::refusal::Refusal;
use sheet::sheet::{Editable, Sheet};
use stack::run::run;
use stack::stacked::Stacked;
use stack::step::Step;
use turned::mirrored::Mirrored;
use turned::swapped::Swapped;

/// Asks the union of a sheet with its mirror. The sheet stands twice in it, lent.
pub fn ask_with_mirror<S: Stacked>(sheet: &S, question: LookUp) -> Answer
    ensures { result ≡ look_told (both union (over borrowed (S.stack sheet.now)) (over mirror (over borrowed (S.stack sheet.now)))) [] question }
{
    let both = Union {
        first: sheet,
        second: Mirrored { below: sheet },
    };
    both.look_up(&[], question)
}

/// Runs a history on a pile of every layer, and gives the sheets back: a window of the first sheet mirrored, united with what the second sheet
/// swapped and the third have in common. The first two can be edited.
pub fn run_on_every_layer<P: Editable, Q: Editable, S: Sheet>(
    sheets: (P, Q, S),
    left: Stretch,
    right: Stretch,
    history: &[Step],
    answers: &mut [Answer],
) -> ((P, Q, S), Result<(), Refusal>)
    ensures { ran result.1 (sheets_of (P.Editable.state result.0.0) (Q.Editable.state result.0.1) (S.Sheet.meaning result.0.2)) answers.new ≡ at_bottom (living (pile_of (P.Editable.state sheets.0) (Q.Editable.state sheets.1) (S.Sheet.meaning sheets.2) left right) history.now answers.old) }
{
    let (first, second, third) = sheets;
    let shown = Window {
        below: Mirrored {
            below: Bottom {
                sheet: first,
                kind: Open,
            },
        },
        left,
        right,
    };
    let common = Intersection {
        first: Swapped {
            below: Bottom {
                sheet: second,
                kind: Open,
            },
        },
        second: Bottom {
            sheet: third,
            kind: Fixed,
        },
    };
    let mut pile = Union {
        first: shown,
        second: common,
    };
    let ran = run(&mut pile, history, answers);
    let Union { first, second } = pile;
    let Intersection {
        first: swapped,
        second: fixed,
    } = second;
    let first = first.below.below.sheet;
    ((first, swapped.below.sheet, fixed.sheet), ran)
}
