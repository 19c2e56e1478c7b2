//! The test of a length, and making and reading a pair of lengths.

ghost use Rattle.std.specs.Prelude.{◌≡◌, min, max};
ghost use Rattle.alignment.specs.Alignment.{within};
ghost use Rattle.alignment.specs.Layers.{opposite};
ghost use Rattle.sheet.specs.Lengths.{check_length, measured, check_lengths};
ghost use Rattle.sheet.specs.Words.{check_words};

use crate::lengths::Lengths;
use crate::refusal::Refusal;

/// The most words on a side.
const MOST_WORDS: u16 = 512;

/// Refuses a number that is no length: one outside 1..=512.
pub fn check_length(number: u16) -> Result<(), Refusal>
    ensures { result ≡ check_length number }
{
    if !(1..=MOST_WORDS).contains(&number) {
        return Err(Refusal::LengthOutOfRange);
    }
    Ok(())
}

impl Lengths {
    /// The pair of two lengths, each in 1..=512; any other is refused.
    pub fn new(left: u16, right: u16) -> Result<Lengths, Refusal>
        ensures { measured result ≡ check_lengths left right }
    {
        check_length(left)?;
        check_length(right)?;
        Ok(Lengths { left, right })
    }

    /// The right word that stands as far from the end as `right` does from the start. For a number that is no right word it is none.
    pub fn opposite(self, right: u16) -> u16
        ensures { result ≡ opposite self.right right }
    {
        (self.right + 1).saturating_sub(right)
    }

    /// How many left words there are.
    pub fn left(self) -> u16
        ensures { result ≡ self.left }
    {
        self.left
    }

    /// How many right words there are.
    pub fn right(self) -> u16
        ensures { result ≡ self.right }
    {
        self.right
    }

    /// The lengths of the sheet with its sides exchanged.
    pub fn swapped(self) -> Lengths
        ensures left { result.left ≡ self.right }
        ensures right { result.right ≡ self.left }
    {
        Lengths {
            left: self.right,
            right: self.left,
        }
    }

    // `larger` and `smaller` differ in one word: a shared form would need a closure and a contract over it.

    /// The larger length on each side.
    pub fn larger(self, other: Lengths) -> Lengths
        ensures left { result.left ≡ max self.left other.left }
        ensures right { result.right ≡ max self.right other.right }
    {
        Lengths {
            left: self.left.max(other.left),
            right: self.right.max(other.right),
        }
    }

    /// The smaller length on each side.
    pub fn smaller(self, other: Lengths) -> Lengths
        ensures left { result.left ≡ min self.left other.left }
        ensures right { result.right ≡ min self.right other.right }
    {
        Lengths {
            left: self.left.min(other.left),
            right: self.right.min(other.right),
        }
    }

    /// Whether there is a left word of this number.
    pub fn has_left(self, word: u16) -> bool
        ensures { result ≡ within self.left word }
    {
        (1..=self.left).contains(&word)
    }

    /// Whether there is a right word of this number.
    pub fn has_right(self, word: u16) -> bool
        ensures { result ≡ within self.right word }
    {
        (1..=self.right).contains(&word)
    }

    /// Refuses a left word that is not there, then a right word that is not.
    pub fn check_words(self, left: u16, right: u16) -> Result<(), Refusal>
        ensures { result ≡ check_words self.left self.right left right }
    {
        if !self.has_left(left) {
            return Err(Refusal::LeftOutside);
        }
        if !self.has_right(right) {
            return Err(Refusal::RightOutside);
        }
        Ok(())
    }
}
