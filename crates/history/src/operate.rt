//! What a history is made of.

ghost use Rattle.std.specs.Prelude.{◌≡◌};
ghost use Rattle.history.specs.declared.operation.Answer.{Answer};

use crate::operation::Answer;

/// Something that is done with an `S`, and answers.
///
/// `View` is what contracts see an `S` as, and `state` sees it so; `answered` is what the operation answers, and `stepped` what it leaves.
pub trait Operate<S>: Copy {
    ghost View: { Type 0 };

    ghost state: { S → View };

    ghost answered: { View → Self → Answer };

    ghost stepped: { View → Self → View };

    /// Does it, and answers how it went.
    fn operate(self, on: &mut S) -> Answer
        ensures answer { result ≡ answered (state on.old) self }
        ensures after { state on.new ≡ stepped (state on.old) self };
}

mod operations;
