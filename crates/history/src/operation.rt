//! The operations of a history, and their answers.

use sheet::refusal::Refusal;

/// A change of an editable sheet. Words are given left word first.
#[derive(Clone, Copy, Debug, PartialEq, Eq)]
pub enum Edit {
    /// Links two words.
    Link(u16, u16),
    /// Removes the link between two words.
    Unlink(u16, u16),
    /// Removes all links.
    Wipe,
}

/// A question to a sheet. It changes nothing.
#[derive(Clone, Copy, Debug, PartialEq, Eq)]
pub enum LookUp {
    /// How many words there are on each side.
    Lengths,
    /// Whether two words are linked.
    Linked(u16, u16),
    /// The least right word at or after the second number that is linked to the first.
    NextLink(u16, u16),
    /// How many links an editable sheet can still take.
    Free,
}

/// One step of a history.
#[derive(Clone, Copy, Debug, PartialEq, Eq)]
pub enum Operation {
    Edit(Edit),
    LookUp(LookUp),
}

/// What an operation answers.
#[derive(Clone, Copy, Debug, PartialEq, Eq)]
pub enum Answer {
    /// The edit was made.
    Done,
    /// The edit was refused, and changed nothing.
    Refused(Refusal),
    /// The left words and the right words.
    Lengths(u16, u16),
    Linked(bool),
    NextLink(Option<u16>),
    Free(u32),
    /// There is no sheet at that place, or none that can do this.
    Nowhere,
}

mod told;
