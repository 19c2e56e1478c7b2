//! Making a stretch, and going between its words and those below.

ghost use Rattle.std.specs.Prelude.{◌≡◌};
ghost use Rattle.layers.specs.Stretches.{check_stretch, measured, word_below, word_inside};

use crate::window::Stretch;
use sheet::lengths::check_length;
use sheet::refusal::Refusal;

impl Stretch {
    /// The stretch of `length` words from word `first` on, both in 1..=512; any other number is refused.
    pub fn new(first: u16, length: u16) -> Result<Stretch, Refusal>
        ensures { measured result ≡ check_stretch first length }
    {
        check_length(first)?;
        check_length(length)?;
        Ok(Stretch { first, length })
    }

    /// The word below that a word of the stretch stands for, if the stretch has this word.
    pub(crate) fn word_below(self, word: u16) -> Option<u16>
        ensures { result ≡ word_below self.first self.length word }
    {
        (1..=self.length)
            .contains(&word)
            .then(|| self.first + word - 1)
    }

    /// The word of the stretch that stands for a word below, if there is one.
    pub(crate) fn word_inside(self, word: u16) -> Option<u16>
        ensures { result ≡ word_inside self.first self.length word }
    {
        (self.first..self.first + self.length)
            .contains(&word)
            .then(|| word - self.first + 1)
    }
}
