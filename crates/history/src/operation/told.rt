//! How an edit went, as an answer.

ghost use Rattle.std.specs.Prelude.{◌≡◌};
ghost use Rattle.history.specs.Operations.{told};

use crate::operation::Answer;
use sheet::refusal::Refusal;

/// An edit that was made is done; one that was not is refused.
impl From<Result<(), Refusal>> for Answer {
    ghost from_gives = { λ e r. r ≡ told e };

    fn from(edited: Result<(), Refusal>) -> Answer {
        match edited {
            Ok(()) => Answer::Done,
            Err(refusal) => Answer::Refused(refusal),
        }
    }
}
