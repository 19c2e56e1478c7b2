//! The operations of an editable sheet.

ghost use Rattle.sheet.specs.Edits.{State};
ghost use Rattle.history.specs.Operations.{answered, stepped};

use crate::operate::Operate;
use crate::operation::{Answer, Operation};
use crate::run::{edit, look_up};
use sheet::sheet::Editable;

/// An operation on any editable sheet, by its links and what is free.
impl<S: Editable> Operate<S> for Operation {
    ghost View = { State };

    ghost state = { S.Editable.state };

    ghost answered = { answered };

    ghost stepped = { stepped };

    fn operate(self, on: &mut S) -> Answer {
        match self {
            Operation::Edit(change) => edit(on, change),
            Operation::LookUp(question) => look_up(on, Some(on.free()), question),
        }
    }
}
