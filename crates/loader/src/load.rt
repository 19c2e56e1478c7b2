//! Opening a text and loading its links.

ghost use Rattle.std.specs.Prelude.{◌≡◌, ◌+◌, length, drop, IfOk};
ghost use Rattle.text.specs.Lines.{lines, line_end};
ghost use Rattle.text.specs.Loading.{first_lengths, later, opening, loading, loaded, AsLinkings};
ghost use Rattle.loader.specs.Turns.{LineLoaded};
ghost use Rattle.loader.specs.Opened.{opened};

use crate::record::{read_lengths, read_record};
use crate::split::next_line;
use sheet::lengths::Lengths;
use sheet::sheet::Editable;
use text::fault::{Fault, RecordFault};
use text::line::Record;

/// The lengths in the first line, and the text after it.
#[tactic(auto, using(text::proofs::Pieces::line_end_splits))]
fn first_record(text: &[u8]) -> Result<(Lengths, &[u8]), RecordFault>
    ensures lengths { opened result ≡ first_lengths (lines text.now) }
    ensures place { IfOk result (λ p. line_end text.now + length p.1.now ≡ length text.now) }
    ensures rest { IfOk result (λ p. p.1.now ≡ drop (line_end text.now) text.now) }
    ensures later { IfOk result (λ p. lines p.1.now ≡ later (lines text.now)) }
{
    let (line, rest) = next_line(text)?;
    Ok((read_lengths(line)?, rest))
}

/// The lengths of the sheet in a text, and the rest of the text, which `load` loads.
///
/// A fault is one of line 1.
pub fn open(text: &[u8]) -> Result<(Lengths, &[u8]), Fault>
    ensures lengths { opened result ≡ opening (lines text.now) }
    ensures place { IfOk result (λ p. line_end text.now + length p.1.now ≡ length text.now) }
    ensures rest { IfOk result (λ p. p.1.now ≡ drop (line_end text.now) text.now) }
    ensures later { IfOk result (λ p. lines p.1.now ≡ later (lines text.now)) }
{
    let first = first_record(text).map_err(|cause| (1, cause))?;
    Ok(first)
}

/// Does what the next line says: links its words and gives the text after it, or gives none at the end.
fn load_line<'a, S: Editable>(
    sheet: &mut S,
    text: &'a [u8],
) -> Result<Option<&'a [u8]>, RecordFault>
    ensures { LineLoaded (S.state sheet.old) text.now result (S.state sheet.new) }
{
    let (line, rest) = next_line(text)?;
    match read_record(line)? {
        Record::Link(left, right) => {
            sheet.link(left, right)?;
            Ok(Some(rest))
        }
        Record::End => Ok(None),
    }
}

/// Loads the links of a text, from its line 2 on, and answers how many it made.
///
/// Stops after the first end line. The links made before a fault stand.
pub fn load<S: Editable>(sheet: &mut S, text: &[u8]) -> Result<u32, Fault>
    ensures done { loaded result (S.state sheet.new) ≡ loading 0 (S.state sheet.old) (lines text.now) }
    ensures linkings { AsLinkings (S.state sheet.old) (lines text.now) result (S.state sheet.new) }
{
    let mut rest = text;
    let mut made = 0;
    while let Some(tail) = load_line(sheet, rest).map_err(|cause| (made + 2, cause))? {
        rest = tail;
        made += 1;
    }
    Ok(made)
}
