//! A whole sheet in its normal form.

ghost use Rattle.std.specs.Prelude.{◌≡◌, ◌+◌, ◌≤◌, length};
ghost use Rattle.text.specs.ReadsBack.{ReadsBack};
ghost use Rattle.text.specs.Written.{sheet_text, wrote, put, writing};

use crate::line::check_room;
use crate::lines::{end_line, lengths_line, link_line};
use crate::walk::Links;
use sheet::refusal::Refusal;
use sheet::sheet::Sheet;

/// How many bytes the text of a sheet has.
pub fn sheet_len<S: Sheet>(sheet: &S) -> usize
    ensures { result ≡ length (sheet_text (S.meaning sheet.now)) }
{
    let mut len = lengths_line(sheet.lengths()).len();
    for (left, right) in Links::of(sheet) {
        len += link_line(left, right).len();
    }
    len + end_line().len()
}

/// Writes the text of a sheet into `out` from `at` on, and answers the place after it.
///
/// Where the text does not fit, `BlockTooShort` is the refusal, and `out` stays as it was. What is written reads back to the same sheet.
pub fn write_sheet<S: Sheet>(out: &mut [u8], at: usize, sheet: &S) -> Result<usize, Refusal>
    ensures done { put result out.new ≡ writing out.old at (sheet_text (S.meaning sheet.now)) }
    ensures reads_back { ReadsBack (S.meaning sheet.now) }
{
    check_room(out.len(), at, sheet_len(sheet))?;
    Ok(put_sheet(out, at, sheet))
}

/// Writes the text of a sheet that the buffer has room for, and answers the place after it.
fn put_sheet<S: Sheet>(out: &mut [u8], at: usize, sheet: &S) -> usize
    requires { at + length (sheet_text (S.meaning sheet.now)) ≤ length out.old }
    ensures end { result ≡ at + length (sheet_text (S.meaning sheet.now)) }
    ensures after { out.new ≡ wrote out.old at (sheet_text (S.meaning sheet.now)) }
{
    let mut end = lengths_line(sheet.lengths()).put(out, at);
    for (left, right) in Links::of(sheet) {
        end = link_line(left, right).put(out, end);
    }
    end_line().put(out, end)
}
