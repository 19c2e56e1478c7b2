//! A sheet with its sides exchanged.

ghost use Rattle.alignment.specs.Layers.{swapped};
ghost use Rattle.alignment.proofs.Turns.{swapped_proper};
ghost use Rattle.sheet.specs.Turns.{swapped_state};
ghost use Rattle.sheet.proofs.Turns.{turn_bounded_swapped};
ghost use Rattle.std.proofs.Common.{ap};

use sheet::lengths::Lengths;
use sheet::refusal::Refusal;
use sheet::sheet::{Editable, Sheet};

/// The sheet below with its sides exchanged: its right words are the left words here, and its left words the right words.
#[derive(Drop)]
pub struct Swapped<S> {
    pub below: S,
}

/// A swapped sheet as a sheet. Each look-up takes any numbers and changes nothing.
impl<S: Sheet> Sheet for Swapped<S> {
    ghost meaning = { λ s. swapped (S.Sheet.meaning s.below) };

    ghost proper = { λ s. swapped_proper (S.Sheet.meaning s.below) (S.Sheet.proper s.below) };

    /// How many words there are on each side.
    fn lengths(&self) -> Lengths {
        self.below.lengths().swapped()
    }

    /// Whether the two words are linked; "no" outside the sheet.
    fn linked(&self, left: u16, right: u16) -> bool {
        self.below.linked(right, left)
    }
}

// A line or two for a call: a common trait of turned sheets would have more lines than it saves.

/// A swapped sheet as an editable sheet. A refusal changes nothing.
#[tactic(auto, using(sheet::proofs::Turns::turn_bounded_swapped, sheet::proofs::Turns::turn_wiping_swapped))]
impl<S: Editable> Editable for Swapped<S> {
    ghost state = { λ s. swapped_state (S.Editable.state s.below) };

    ghost means = { λ s. ap swapped (S.Editable.means s.below) };

    ghost bounded = { λ s. turn_bounded_swapped (S.Editable.state s.below) (S.Editable.bounded s.below) };

    /// How many links the sheet can still take: as many as the sheet below.
    fn free(&self) -> u32 {
        self.below.free()
    }

    /// Links two words in the sheet below. It refuses a left word outside this sheet, then a right word outside it, then what the sheet
    /// below refuses.
    fn link(&mut self, left: u16, right: u16) -> Result<(), Refusal> {
        self.lengths().check_words(left, right)?;
        self.below.link(right, left)
    }

    /// Removes the link between two words from the sheet below. It refuses a left word outside this sheet, then a right word outside it,
    /// then what the sheet below refuses.
    fn unlink(&mut self, left: u16, right: u16) -> Result<(), Refusal> {
        self.lengths().check_words(left, right)?;
        self.below.unlink(right, left)
    }

    /// Removes all links of the sheet below.
    fn wipe(&mut self) {
        self.below.wipe()
    }
}
