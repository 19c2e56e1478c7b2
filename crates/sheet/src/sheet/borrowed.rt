//! A borrowed sheet is a sheet.

use crate::lengths::Lengths;
use crate::sheet::Sheet;

/// A shared borrow of a sheet, with the sheet's meaning.
impl<'a, S: Sheet> Sheet for &'a S {
    ghost meaning = { λ s. S.Sheet.meaning s.now };

    ghost proper = { λ s. S.Sheet.proper s.now };

    fn lengths(&self) -> Lengths {
        (**self).lengths()
    }

    fn linked(&self, left: u16, right: u16) -> bool {
        (**self).linked(left, right)
    }

    fn next_link(&self, left: u16, right: u16) -> Option<u16> {
        (**self).next_link(left, right)
    }
}
