//! What every sheet answers, and what an editable sheet also does.

ghost use Rattle.std.specs.Prelude.{◌≡◌};
ghost use Rattle.alignment.specs.Alignment.{Alignment, Proper};
ghost use Rattle.alignment.specs.Links.{next_link};
ghost use Rattle.sheet.specs.Edits.{State, Bounded, outcome, linking, unlinking, wiping};

use crate::lengths::Lengths;
use crate::refusal::Refusal;

/// Left words, right words and the links between them. Every look-up takes any numbers.
pub trait Sheet {
    ghost meaning: { Self → Alignment };

    /// How many words there are on each side.
    fn lengths(&self) -> Lengths
        ensures left { result.left ≡ (meaning self.now).lefts }
        ensures right { result.right ≡ (meaning self.now).rights };

    /// Whether the two words are linked; "no" outside the sheet.
    fn linked(&self, left: u16, right: u16) -> bool
        ensures { result ≡ (meaning self.now).linked left right };

    /// The least right word at or after `right` that is linked to `left`. Unless a sheet knows a shorter way, word by word.
    fn next_link(&self, left: u16, right: u16) -> Option<u16>
        ensures { result ≡ next_link (meaning self.now) left right }
    {
        (right..=self.lengths().right()).find(|word| self.linked(left, *word))
    }

    ghost proper: { (s : Self) → Proper (meaning s) };
}

/// A sheet that can also be changed. A refusal changes nothing. Each call promises itself that free and links together stay bounded.
pub trait Editable: Sheet {
    ghost state: { Self → State };

    /// How many links the sheet can still take.
    fn free(&self) -> u32
        ensures value { result ≡ (state self.now).free }
        ensures bounded { Bounded (state self.now) };

    /// Links two words.
    fn link(&mut self, left: u16, right: u16) -> Result<(), Refusal>
        ensures done { outcome result (state self.new) ≡ linking (state self.old) left right }
        ensures bounded { Bounded (state self.new) };

    /// Removes the link between two words.
    fn unlink(&mut self, left: u16, right: u16) -> Result<(), Refusal>
        ensures done { outcome result (state self.new) ≡ unlinking (state self.old) left right }
        ensures bounded { Bounded (state self.new) };

    /// Removes all links. It is never refused.
    fn wipe(&mut self)
        ensures done { state self.new ≡ wiping (state self.old) }
        ensures bounded { Bounded (state self.new) };

    ghost means: { (s : Self) → (state s).sheet ≡ Self.Sheet.meaning s };

    ghost bounded: { (s : Self) → Bounded (state s) };
}

mod borrowed;
