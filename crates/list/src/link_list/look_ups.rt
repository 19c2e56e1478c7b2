//! What a list answers as a sheet.

ghost use Rattle.list.specs.Lists.{alignment_of};
ghost use Rattle.list.specs.Proper.{list_proper};

use crate::link_list::LinkList;
use sheet::lengths::Lengths;
use sheet::sheet::Sheet;

/// A list as a sheet. Each look-up takes any numbers and changes nothing.
impl Sheet for LinkList {
    ghost meaning = { alignment_of };

    ghost proper = { list_proper };

    /// How many words there are on each side.
    fn lengths(&self) -> Lengths {
        self.lengths
    }

    /// Whether the two words are linked; "no" outside the sheet.
    fn linked(&self, left: u16, right: u16) -> bool {
        self.search(left, right).is_ok()
    }

    /// The least right word at or after `right` that is linked to `left`, if there is one.
    fn next_link(&self, left: u16, right: u16) -> Option<u16> {
        let (Ok(first) | Err(first)) = self.search(left, right);
        self.links()
            .get(first)
            .filter(|link| link.left == left)
            .map(|link| link.right)
    }
}
