//! A sheet with its right words in the other order.

ghost use Rattle.std.specs.Prelude.{◌≡◌};
ghost use Rattle.alignment.specs.Layers.{opposite, mirrored};
ghost use Rattle.alignment.proofs.Turns.{mirrored_proper};
ghost use Rattle.sheet.specs.Turns.{mirrored_state};
ghost use Rattle.turned.specs.Last.{last_link};
ghost use Rattle.sheet.proofs.Turns.{turn_bounded_mirrored};
ghost use Rattle.std.proofs.Common.{ap};

use sheet::lengths::Lengths;
use sheet::refusal::Refusal;
use sheet::sheet::{Editable, Sheet};

/// The sheet below with its right words in the other order: the first right word here is the last one of the sheet below.
#[derive(Drop)]
pub struct Mirrored<S> {
    pub below: S,
}

impl<S: Sheet> Mirrored<S> {
    /// The right word of the sheet below that is shown as `right`, and the other way round. For a number that is no right word it is none.
    fn opposite(&self, right: u16) -> u16
        ensures { result ≡ opposite (S.Sheet.meaning self.now.below).rights right }
    {
        self.lengths().opposite(right)
    }

    /// The greatest right word of the sheet below at or before `last` that is linked to `left`. Each look-up halves the words where it can be.
    fn last_link(&self, left: u16, last: u16) -> Option<u16>
        ensures { result ≡ last_link (S.Sheet.meaning self.now.below) left last }
    {
        // By hand: the library searches slices, and this halves numbers by asking a sheet.
        let mut found = None;
        let mut low = 1;
        let mut high = last;
        while low <= high {
            let middle = low + (high - low) / 2;
            match self.below.next_link(left, middle) {
                Some(word) if word <= high => {
                    found = Some(word);
                    low = word + 1;
                }
                _ => high = middle - 1,
            }
        }
        found
    }
}

/// A mirrored sheet as a sheet. Each look-up takes any numbers and changes nothing.
impl<S: Sheet> Sheet for Mirrored<S> {
    ghost meaning = { λ s. mirrored (S.Sheet.meaning s.below) };

    ghost proper = { λ s. mirrored_proper (S.Sheet.meaning s.below) (S.Sheet.proper s.below) };

    /// How many words there are on each side.
    fn lengths(&self) -> Lengths {
        self.below.lengths()
    }

    /// Whether the two words are linked; "no" outside the sheet.
    fn linked(&self, left: u16, right: u16) -> bool {
        self.below.linked(left, self.opposite(right))
    }

    /// The least right word at or after `right` that is linked to `left`: the opposite of the greatest at or before the opposite of `right`.
    #[tactic(auto, using(crate::proofs::Last::next_link_mirrored))]
    fn next_link(&self, left: u16, right: u16) -> Option<u16> {
        self.last_link(left, self.opposite(right))
            .map(|word| self.opposite(word))
    }
}

// A line or two for a call: a common trait of turned sheets would have more lines than it saves.

/// A mirrored sheet as an editable sheet. A refusal changes nothing.
#[tactic(auto, using(sheet::proofs::Turns::turn_bounded_mirrored, sheet::proofs::Turns::turn_wiping_mirrored))]
impl<S: Editable> Editable for Mirrored<S> {
    ghost state = { λ s. mirrored_state (S.Editable.state s.below) };

    ghost means = { λ s. ap mirrored (S.Editable.means s.below) };

    ghost bounded = { λ s. turn_bounded_mirrored (S.Editable.state s.below) (S.Editable.bounded s.below) };

    /// How many links the sheet can still take: as many as the sheet below.
    fn free(&self) -> u32 {
        self.below.free()
    }

    /// Links two words in the sheet below. It refuses a left word outside this sheet, then a right word outside it, then what the sheet
    /// below refuses.
    fn link(&mut self, left: u16, right: u16) -> Result<(), Refusal> {
        let lengths = self.lengths();
        lengths.check_words(left, right)?;
        self.below.link(left, lengths.opposite(right))
    }

    /// Removes the link between two words from the sheet below. It refuses a left word outside this sheet, then a right word outside it,
    /// then what the sheet below refuses.
    fn unlink(&mut self, left: u16, right: u16) -> Result<(), Refusal> {
        let lengths = self.lengths();
        lengths.check_words(left, right)?;
        self.below.unlink(left, lengths.opposite(right))
    }

    /// Removes all links of the sheet below.
    fn wipe(&mut self) {
        self.below.wipe()
    }
}
