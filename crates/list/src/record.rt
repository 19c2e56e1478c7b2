//! A link as a list keeps it.

/// A link as a list keeps it, in order by left word, then right word. A record that a removal freed is (0, 0).
#[derive(Clone, Copy, Debug, PartialEq, Eq, PartialOrd, Ord)]
pub struct LinkRecord {
    /// Its left word.
    pub left: u16,
    /// Its right word.
    pub right: u16,
}

/// A record that a removal freed.
pub(crate) const FREE: LinkRecord = LinkRecord { left: 0, right: 0 };
