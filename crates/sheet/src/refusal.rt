//! Why a call on a sheet is refused.

ghost use Rattle.std.specs.Prelude.{◌≡◌};
ghost use Rattle.sheet.specs.Refusals.{refusal_number};

/// Why a call is refused. Each refusal has one number, by which texts and hosts know it.
#[derive(Clone, Copy, Debug, PartialEq, Eq)]
pub enum Refusal {
    /// A left word outside the sheet.
    LeftOutside = 1,
    /// A right word outside the sheet.
    RightOutside = 2,
    /// The two words are linked already.
    AlreadyLinked = 3,
    /// The two words are not linked.
    NotLinked = 4,
    /// The sheet can take no more links.
    NothingFree = 5,
    /// A sheet without links, where one with links is needed.
    NoLinks = 6,
    /// A length outside 1..=512.
    LengthOutOfRange = 7,
    /// A block or buffer that is too short, or a place past its end.
    BlockTooShort = 12,
}

impl Refusal {
    /// The number of the refusal.
    pub fn number(self) -> u8
        ensures { result ≡ refusal_number self }
    {
        self as u8
    }
}
