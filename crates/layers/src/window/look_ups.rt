//! What a window answers as a sheet.

ghost use Rattle.std.specs.Prelude.{◌≡◌};
ghost use Rattle.layers.specs.Windows.{seen, seen_proper};

use crate::window::{Stretch, Window};
use sheet::lengths::Lengths;
use sheet::sheet::Sheet;

/// A window as a sheet. Each look-up takes any numbers and changes nothing.
impl<S: Sheet> Sheet for Window<S> {
    ghost meaning = { λ w. seen w.left w.right (S.Sheet.meaning w.below) };

    ghost proper = { λ w. seen_proper w.left w.right (S.Sheet.meaning w.below) };

    /// How many words there are in each stretch. They are in range, so making a pair of them is not refused.
    fn lengths(&self) -> Lengths {
        Lengths::new(self.left.length, self.right.length).unwrap()
    }

    /// Whether the two words of the window are linked in the sheet below; "no" outside the window.
    fn linked(&self, left: u16, right: u16) -> bool {
        self.left
            .word_below(left)
            .zip(self.right.word_below(right))
            .is_some_and(|(left, right)| self.below.linked(left, right))
    }

    /// The least right word of the window at or after `right` that is linked to `left`, by the next link below.
    #[tactic(auto, using(crate::proofs::WindowLaws::window_next))]
    fn next_link(&self, left: u16, right: u16) -> Option<u16> {
        let left_below = self.left.word_below(left)?;
        let right_below = self.right.word_below(right.max(1))?;
        let found = self.below.next_link(left_below, right_below)?;
        self.right.word_inside(found)
    }
}
