//! The call that copies.

ghost use Rattle.std.specs.Prelude.{◌≡◌, length};
ghost use Rattle.engine.specs.Copying.{copied, copying, CarriesOver};

use crate::copying::CopyFault;
use loader::load::{load, open};
use sheet::sheet::{Editable, Sheet};
use writer::whole::write_sheet;

/// Writes the text of one sheet into a buffer, loads it into another sheet, and answers how many links were made.
///
/// A sheet of the same lengths, without links and with free enough, then has the same links. A buffer that is too short is refused and
/// nothing is changed; what the other sheet refuses is the fault of that line, and the links before it stand.
pub fn copy_links<P: Sheet, Q: Editable>(
    from: &P,
    onto: &mut Q,
    buffer: &mut [u8],
) -> Result<u32, CopyFault>
    ensures done { copied result (Q.Editable.state onto.new) buffer.new ≡ copying (P.Sheet.meaning from.now) (Q.Editable.state onto.old) buffer.old }
    ensures carries_over { CarriesOver (P.Sheet.meaning from.now) (Q.Editable.state onto.old) (length buffer.old) result (Q.Editable.state onto.new) }
{
    let end = write_sheet(buffer, 0, from)?;
    let (_, rest) = open(&buffer[..end])?;
    let made = load(onto, rest)?;
    Ok(made)
}
