//! Running a history.

ghost use Rattle.std.specs.Prelude.{◌≡◌};
ghost use Rattle.history.specs.Operations.{told, looked_up, editing};
ghost use Rattle.history.specs.Histories.{ran, running, running_by};
ghost use Rattle.history.specs.Laws.{places};

use crate::operate::Operate;
use crate::operation::{Answer, Edit, LookUp, Operation};
use sheet::refusal::Refusal;
use sheet::sheet::{Editable, Sheet};

/// Makes an edit, and answers how it went.
pub fn edit<S: Editable>(sheet: &mut S, edit: Edit) -> Answer
    ensures answer { result ≡ told (editing (S.state sheet.old) edit).answer }
    ensures after { S.state sheet.new ≡ (editing (S.state sheet.old) edit).after }
{
    match edit {
        Edit::Link(left, right) => sheet.link(left, right).into(),
        Edit::Unlink(left, right) => sheet.unlink(left, right).into(),
        Edit::Wipe => {
            sheet.wipe();
            Answer::Done
        }
    }
}

/// Asks a sheet that can take `free` more links, or that is not editable.
pub fn look_up<S: Sheet>(sheet: &S, free: Option<u32>, question: LookUp) -> Answer
    ensures { result ≡ looked_up (S.meaning sheet.now) free question }
{
    match question {
        LookUp::Lengths => {
            let lengths = sheet.lengths();
            Answer::Lengths(lengths.left(), lengths.right())
        }
        LookUp::Linked(left, right) => Answer::Linked(sheet.linked(left, right)),
        LookUp::NextLink(left, right) => Answer::NextLink(sheet.next_link(left, right)),
        LookUp::Free => free.map_or(Answer::Nowhere, Answer::Free),
    }
}

/// Makes the operations one after another, refused ones included, and writes each answer at its place.
///
/// Fewer places for answers than operations are refused; then nothing is done.
pub fn run_each<S, O: Operate<S>>(
    on: &mut S,
    history: &[O],
    answers: &mut [Answer],
) -> Result<(), Refusal>
    ensures { ran result (O.state on.new) answers.new ≡ running_by O.answered O.stepped (O.state on.old) history.now answers.old }
{
    if answers.len() < history.len() {
        return Err(Refusal::BlockTooShort);
    }
    // By index: after a loop over a zip of `iter_mut` nothing is known of the answers.
    for (k, operation) in history.iter().enumerate() {
        answers[k] = operation.operate(on);
    }
    Ok(())
}

/// Runs a history on an editable sheet, as `run_each`. Free and links together stay the same in any case.
pub fn run<S: Editable>(
    sheet: &mut S,
    history: &[Operation],
    answers: &mut [Answer],
) -> Result<(), Refusal>
    ensures done { ran result (S.state sheet.new) answers.new ≡ running (S.state sheet.old) history.now answers.old }
    ensures conserved { places (S.state sheet.new) ≡ places (S.state sheet.old) }
{
    run_each(sheet, history, answers)
}
