//! What a grid answers as a sheet.

ghost use Rattle.grid.specs.Grids.{alignment_of};
ghost use Rattle.grid.specs.Proper.{grid_proper};

use crate::bits;
use crate::grid::Grid;
use sheet::lengths::Lengths;
use sheet::sheet::Sheet;

/// A grid as a sheet. Each look-up takes any numbers and changes nothing.
impl Sheet for Grid {
    ghost meaning = { alignment_of };

    ghost proper = { grid_proper };

    /// How many words there are on each side.
    fn lengths(&self) -> Lengths {
        self.lengths
    }

    /// Whether the two words are linked; "no" outside the sheet, and in a block that is too short.
    fn linked(&self, left: u16, right: u16) -> bool {
        self.keeps_links()
            && self.lengths.has_left(left)
            && self.lengths.has_right(right)
            && bits::is_set(&self.block, self.place(left, right))
    }

    /// The least right word at or after `right` that is linked to `left`, if there is one.
    fn next_link(&self, left: u16, right: u16) -> Option<u16> {
        if !self.keeps_links() || !self.lengths.has_left(left) {
            return None;
        }
        let row = self.place(left, 1);
        let from = row + right.max(1) as usize - 1;
        let b = bits::first_set(&self.block, from, row + self.lengths.right() as usize)?;
        Some((b - row + 1) as u16)
    }
}
