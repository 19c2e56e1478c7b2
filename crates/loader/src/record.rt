//! What one line says.

ghost use Rattle.std.specs.Prelude.{◌≡◌, if◌then◌else◌, Ok, Err, MatchResult};
ghost use Rattle.loader.specs.Rest.{fields_left};
ghost use Rattle.sheet.specs.Lengths.{measured};
ghost use Rattle.text.specs.Lines.{clean, all_clean};
ghost use Rattle.text.specs.Records.{number_in, two_numbers, nothing, heading, lengths_in, record_in, as_lengths};
ghost use Rattle.text.specs.declared.fault.LineFault.TheVariants.{ForeignByte};

use crate::split::Fields;
use sheet::lengths::{Lengths, check_length};
use text::fault::{FieldFault, LineFault, RecordFault};
use text::line::Record;

/// Whether a line may hold the byte: a tab, or a visible byte.
fn is_clean(b: u8) -> bool
    ensures { result ≡ clean b }
{
    b == b'\t' || b.is_ascii_graphic()
}

/// Refuses a line with a byte that no line may hold.
fn check_bytes(line: &[u8]) -> Result<(), LineFault>
    ensures { result ≡ (if all_clean line.now then Ok tt else Err ForeignByte) }
{
    if line.iter().all(|b| is_clean(*b)) {
        Ok(())
    } else {
        Err(LineFault::ForeignByte)
    }
}

/// The number that the field at a place holds: one to three digits, and no needless zero in front.
#[tactic(auto, unfolding(text::specs::Records::number_in))]
fn number(field: &[u8], place: u8) -> Result<u16, FieldFault>
    ensures { result ≡ number_in place field.now }
{
    if field.is_empty() || field.len() > 3 || (field.len() > 1 && field[0] == b'0') {
        return Err(FieldFault::Number(place));
    }
    let mut value = 0;
    for b in field {
        if !b.is_ascii_digit() {
            return Err(FieldFault::Number(place));
        }
        value = value * 10 + u16::from(*b - b'0');
    }
    Ok(value)
}

/// The numbers in the two fields after a head.
fn two_numbers(mut fields: Fields<'_>) -> Result<(u16, u16), FieldFault>
    ensures { result ≡ two_numbers (fields_left fields.entry) }
{
    match (fields.next(), fields.next(), fields.next()) {
        (Some(left), Some(right), None) => Ok((number(left, 2)?, number(right, 3)?)),
        _ => Err(FieldFault::Count),
    }
}

/// Refuses a line with one more field.
fn no_field(mut fields: Fields<'_>) -> Result<(), FieldFault>
    ensures { result ≡ nothing (fields_left fields.entry) }
{
    if fields.next().is_some() {
        return Err(FieldFault::Count);
    }
    Ok(())
}

/// The head of a line, as the letter of the text, and the fields after it.
#[tactic(auto, unfolding(text::specs::Records::heading))]
fn take_head(line: &[u8]) -> Result<(char, Fields<'_>), RecordFault>
    ensures { MatchResult result (λ p. heading line.now ≡ Ok (p.0, fields_left p.1)) (λ e. heading line.now ≡ Err e) }
{
    check_bytes(line)?;
    let mut fields = Fields::of(line);
    match fields.next() {
        Some([head]) => Ok((char::from(*head), fields)),
        _ => Err(RecordFault::Head),
    }
}

/// Two numbers as the lengths of a sheet; a fault names the first bad field.
fn checked_lengths(left: u16, right: u16) -> Result<Lengths, RecordFault>
    ensures { measured result ≡ as_lengths (left, right) }
{
    Lengths::new(left, right).map_err(|refusal| {
        let field = if check_length(left).is_err() { 2 } else { 3 };
        RecordFault::Sheet(refusal, field)
    })
}

/// What the first line says: the lengths of the sheet.
#[tactic(auto, unfolding(text::specs::Records::lengths_in))]
pub(crate) fn read_lengths(line: &[u8]) -> Result<Lengths, RecordFault>
    ensures { measured result ≡ lengths_in line.now }
{
    let (head, fields) = take_head(line)?;
    match head {
        'S' => {
            let (left, right) = two_numbers(fields)?;
            checked_lengths(left, right)
        }
        _ => Err(RecordFault::Head),
    }
}

/// What a later line says: a link, or the end.
#[tactic(auto, unfolding(text::specs::Records::record_in))]
pub(crate) fn read_record(line: &[u8]) -> Result<Record, RecordFault>
    ensures { result ≡ record_in line.now }
{
    let (head, fields) = take_head(line)?;
    match head {
        'L' => {
            let (left, right) = two_numbers(fields)?;
            Ok(Record::Link(left, right))
        }
        'E' => {
            no_field(fields)?;
            Ok(Record::End)
        }
        _ => Err(RecordFault::Head),
    }
}
