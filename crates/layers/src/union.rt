//! Two sheets put together: the links of either.

ghost use Rattle.std.specs.Prelude.{◌≡◌};
ghost use Rattle.alignment.specs.Layers.{united};
ghost use Rattle.alignment.proofs.Layers.{united_proper};

use sheet::lengths::Lengths;
use sheet::sheet::Sheet;

/// The union of two sheets: on each side as many words as the longer has, and the links of either.
#[derive(Drop)]
pub struct Union<P, Q> {
    pub first: P,
    pub second: Q,
}

/// A union as a sheet. Each look-up takes any numbers and changes nothing.
impl<P: Sheet, Q: Sheet> Sheet for Union<P, Q> {
    ghost meaning = { λ u. united (P.Sheet.meaning u.first) (Q.Sheet.meaning u.second) };

    ghost proper = { λ u. united_proper _ _ (P.Sheet.proper u.first) (Q.Sheet.proper u.second) };

    /// The larger length on each side.
    fn lengths(&self) -> Lengths {
        self.first.lengths().larger(self.second.lengths())
    }

    /// Whether the two words are linked in one of the sheets.
    fn linked(&self, left: u16, right: u16) -> bool {
        self.first.linked(left, right) || self.second.linked(left, right)
    }

    /// The lesser of the next links of the two sheets.
    fn next_link(&self, left: u16, right: u16) -> Option<u16> {
        let first = self.first.next_link(left, right);
        let second = self.second.next_link(left, right);
        first.into_iter().chain(second).min()
    }
}
