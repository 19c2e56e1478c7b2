//! What an edit of a swapped or mirrored sheet comes to: one of the sheet below, with its words turned.

ghost use Rattle.std.specs.Prelude.{◌≡◌, ℕ};
ghost use Rattle.stack.specs.Stacks.{Layer, over, free_of};
ghost use Rattle.stack.specs.Places.{moved, check_edit, refused_where, Edited, Turns};

use crate::stacked::Stacked;
use crate::step::Turn;
use history::operation::{Answer, Edit};
use sheet::lengths::Lengths;
use sheet::refusal::Refusal;

/// The same edit of the words that `words` gives for its own.
pub(crate) fn at_words<F: FnOnce(u16, u16) -> (u16, u16)>(edit: Edit, words: F) -> Edit
    requires { F.IsAlwaysCallable words }
    ensures { (w : ℕ → ℕ → ℕ × ℕ) → ((i j : ℕ) (p : ℕ × ℕ) → F.post words i j p → p ≡ w i j) → result ≡ moved w edit }
{
    match edit {
        Edit::Link(left, right) => {
            let (left, right) = words(left, right);
            Edit::Link(left, right)
        }
        Edit::Unlink(left, right) => {
            let (left, right) = words(left, right);
            Edit::Unlink(left, right)
        }
        Edit::Wipe => Edit::Wipe,
    }
}

/// Refuses words that are not there, the left word first.
fn check(lengths: Lengths, edit: Edit) -> Result<(), Refusal>
    ensures { result ≡ check_edit lengths.left lengths.right edit }
{
    match edit {
        Edit::Link(left, right) | Edit::Unlink(left, right) => lengths.check_words(left, right),
        Edit::Wipe => Ok(()),
    }
}

/// A refusal, where the sheet below can be edited at all.
fn refuse<S: Stacked>(below: &S, refusal: Refusal) -> Answer
    ensures { result ≡ refused_where (free_of (S.stack below.now)) refusal }
{
    below
        .free_if_editable()
        .map_or(Answer::Nowhere, |_| Answer::Refused(refusal))
}

/// Edits the layer itself, which has these lengths and for which the sheet below makes the edit `turned`, or edits the sheet below.
pub(crate) fn edit_turned<S: Stacked>(
    below: &mut S,
    lengths: Lengths,
    route: &[Turn],
    edit: Edit,
    turned: Edit,
) -> Answer
    ensures { (l : Layer) → Turns l (S.stack below.old) lengths.left lengths.right edit turned → Edited (over l (S.stack below.old)) route.now edit result (over l (S.stack below.new)) }
{
    match route {
        [] => match check(lengths, edit) {
            Ok(()) => below.edit(route, turned),
            Err(refusal) => refuse(below, refusal),
        },
        [Turn::First, rest @ ..] => below.edit(rest, edit),
        [Turn::Second, ..] => Answer::Nowhere,
    }
}
