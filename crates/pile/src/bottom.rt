//! A sheet at the bottom of a stack.

use sheet::lengths::Lengths;
use sheet::sheet::Sheet;

/// That operations may edit a sheet.
#[derive(Clone, Copy, Debug, PartialEq, Eq)]
pub struct Open;

/// That operations may only ask a sheet: its links stand from the start.
#[derive(Clone, Copy, Debug, PartialEq, Eq)]
pub struct Fixed;

/// A sheet as the bottom of a stack, open to edits or fixed.
#[derive(Drop)]
pub struct Bottom<S, K> {
    pub sheet: S,
    pub kind: K,
}

/// The sheet itself, as a sheet.
impl<S: Sheet, K> Sheet for Bottom<S, K> {
    ghost meaning = { λ s. S.Sheet.meaning s.sheet };

    ghost proper = { λ s. S.Sheet.proper s.sheet };

    fn lengths(&self) -> Lengths {
        self.sheet.lengths()
    }

    fn linked(&self, left: u16, right: u16) -> bool {
        self.sheet.linked(left, right)
    }

    fn next_link(&self, left: u16, right: u16) -> Option<u16> {
        self.sheet.next_link(left, right)
    }
}

mod fixed_stack;
mod open_stack;
