//! The listing of a text: its sheet in the normal form, or the line of its first fault.

ghost use Rattle.std.specs.Prelude.{◌≡◌};
ghost use Rattle.engine.specs.declared.listing.Unlisted.TheVariants.{Block, Memory};

use sheet::refusal::Refusal;
use std::alloc::AllocError;

/// The bytes of a text that are read; what follows them is not.
pub const MOST_BYTES: usize = 65_536;

/// Why a text was not listed.
#[derive(Clone, Copy, Debug, PartialEq, Eq)]
pub enum Unlisted {
    /// The block is too short for a grid.
    Block(Refusal),
    /// There is no memory for the listing.
    Memory(AllocError),
}

impl From<Refusal> for Unlisted {
    ghost from_gives = { λ e r. r ≡ Block e };

    fn from(e: Refusal) -> Unlisted {
        Unlisted::Block(e)
    }
}

impl From<AllocError> for Unlisted {
    ghost from_gives = { λ e r. r ≡ Memory e };

    fn from(e: AllocError) -> Unlisted {
        Unlisted::Memory(e)
    }
}

mod lists;

pub use lists::list;
