//! The lines of a text, one by one.

ghost use Rattle.std.specs.Prelude.{◌≡◌, length};
ghost use Rattle.text.specs.Written.{lengths_line, link_line, end_line, fault_line, put, writing};

use crate::line::Line;
use sheet::lengths::Lengths;
use sheet::refusal::Refusal;
use text::fault::Fault;
use text::line::{Field, Head};

/// Writes the first line of a sheet, its lengths, into `out` from `at` on, and answers the place after it.
///
/// Where the line does not fit, `BlockTooShort` is the refusal, and `out` stays as it was.
pub fn write_lengths(out: &mut [u8], at: usize, lengths: Lengths) -> Result<usize, Refusal>
    ensures { put result out.new ≡ writing out.old at (lengths_line lengths.left lengths.right) }
{
    lengths_line(lengths).write(out, at)
}

/// Writes the line of one link into `out` from `at` on, and answers the place after it.
///
/// Where the line does not fit, `BlockTooShort` is the refusal, and `out` stays as it was.
pub fn write_link(out: &mut [u8], at: usize, left: u16, right: u16) -> Result<usize, Refusal>
    ensures { put result out.new ≡ writing out.old at (link_line (left, right)) }
{
    link_line(left, right).write(out, at)
}

/// Writes the last line of a sheet into `out` from `at` on, and answers the place after it.
///
/// Where the line does not fit, `BlockTooShort` is the refusal, and `out` stays as it was.
pub fn write_end(out: &mut [u8], at: usize) -> Result<usize, Refusal>
    ensures { put result out.new ≡ writing out.old at end_line }
{
    end_line().write(out, at)
}

/// Writes the line that tells of a fault into `out` from `at` on, and answers the place after it.
///
/// Where the line does not fit, `BlockTooShort` is the refusal, and `out` stays as it was.
pub fn write_fault(out: &mut [u8], at: usize, fault: Fault) -> Result<usize, Refusal>
    ensures { put result out.new ≡ writing out.old at (fault_line fault) }
{
    fault_line(fault).write(out, at)
}

/// How many bytes the line that tells of a fault has.
pub fn fault_len(fault: Fault) -> usize
    ensures { result ≡ length (fault_line fault) }
{
    fault_line(fault).len()
}

/// The first line of a sheet with these lengths.
pub(crate) fn lengths_line(lengths: Lengths) -> Line<2>
    ensures { result ≡ lengths_line lengths.left lengths.right }
{
    Line {
        head: Head::Sheet,
        fields: [
            Field::Number(lengths.left().into()),
            Field::Number(lengths.right().into()),
        ],
    }
}

/// The line of one link.
pub(crate) fn link_line(left: u16, right: u16) -> Line<2>
    ensures { result ≡ link_line (left, right) }
{
    Line {
        head: Head::Link,
        fields: [Field::Number(left.into()), Field::Number(right.into())],
    }
}

/// The last line of a sheet.
pub(crate) fn end_line() -> Line<0>
    ensures { result ≡ end_line }
{
    Line {
        head: Head::End,
        fields: [],
    }
}

/// The line that tells of a fault: the layer that found it, its number, the line, and the field.
fn fault_line(fault: Fault) -> Line<4>
    ensures { result ≡ fault_line fault }
{
    let Fault { line, cause } = fault;
    Line {
        head: Head::Fault,
        fields: [
            Field::Name(cause.layer()),
            Field::Number(cause.number().into()),
            Field::Number(line),
            Field::Number(cause.field().into()),
        ],
    }
}
