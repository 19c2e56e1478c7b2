//! Carrying the links of one sheet over to another by way of their text.

ghost use Rattle.std.specs.Prelude.{◌≡◌};
ghost use Rattle.engine.specs.declared.copying.CopyFault.TheVariants.{Buffer, Text};

use sheet::refusal::Refusal;
use text::fault::Fault;

/// Why the links were not all carried over.
#[derive(Clone, Copy, Debug, PartialEq, Eq)]
pub enum CopyFault {
    /// The buffer is too short for the text. Nothing was changed.
    Buffer(Refusal),
    /// The other sheet refuses a link. The links before it were made.
    Text(Fault),
}

impl From<Refusal> for CopyFault {
    ghost from_gives = { λ e r. r ≡ Buffer e };

    fn from(e: Refusal) -> CopyFault {
        CopyFault::Buffer(e)
    }
}

impl From<Fault> for CopyFault {
    ghost from_gives = { λ e r. r ≡ Text e };

    fn from(e: Fault) -> CopyFault {
        CopyFault::Text(e)
    }
}

mod copies;

pub use copies::copy_links;
