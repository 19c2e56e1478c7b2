//! Two sheets put together: the links in both.

ghost use Rattle.std.specs.Prelude.{◌≡◌};
ghost use Rattle.alignment.specs.Layers.{intersected};
ghost use Rattle.alignment.proofs.Layers.{intersected_proper};

use sheet::lengths::Lengths;
use sheet::sheet::Sheet;

/// The intersection of two sheets: on each side as many words as the shorter has, and the links in both.
#[derive(Drop)]
pub struct Intersection<P, Q> {
    pub first: P,
    pub second: Q,
}

/// An intersection as a sheet. Each look-up takes any numbers and changes nothing.
impl<P: Sheet, Q: Sheet> Sheet for Intersection<P, Q> {
    ghost meaning = { λ n. intersected (P.Sheet.meaning n.first) (Q.Sheet.meaning n.second) };

    ghost proper = { λ n. intersected_proper _ _ (P.Sheet.proper n.first) (Q.Sheet.proper n.second) };

    /// The smaller length on each side.
    fn lengths(&self) -> Lengths {
        self.first.lengths().smaller(self.second.lengths())
    }

    /// Whether the two words are linked in both sheets.
    fn linked(&self, left: u16, right: u16) -> bool {
        self.first.linked(left, right) && self.second.linked(left, right)
    }

    /// The least right word at or after `right` that is linked to `left` in both sheets. Each sheet in turn is asked from the word of the
    /// other on, so what only one of them links is passed over.
    #[tactic(auto, using(crate::proofs::IntersectionLaws::intersection_next))]
    fn next_link(&self, left: u16, right: u16) -> Option<u16> {
        let mut from = right;
        loop {
            let first = self.first.next_link(left, from)?;
            let second = self.second.next_link(left, first)?;
            if first == second {
                return Some(first);
            }
            from = second;
        }
    }
}
