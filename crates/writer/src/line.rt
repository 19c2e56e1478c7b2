//! One line of any kind: a head, its fields, and a line feed.

ghost use Rattle.std.specs.Prelude.{◌≡◌, ℕ, ◌+◌, ◌<◌, ◌≤◌, List, length, MatchResult};
ghost use Rattle.sheet.specs.declared.refusal.Refusal.TheVariants.{BlockTooShort};
ghost use Rattle.text.specs.Written.{field_bytes, line, wrote, put, writing};

use crate::number::{fill_number, number_len};
use sheet::refusal::Refusal;
use std::marker::Model;
use text::line::{Field, Head};

/// A line that is to be written. Clauses see its bytes.
#[derive(Drop)]
pub(crate) struct Line<const N: usize> {
    pub(crate) head: Head,
    pub(crate) fields: [Field; N],
}

impl<const N: usize> Model for Line<N> {
    ghost Value = { List ℕ };

    ghost view = { λ l. line l.head l.fields };

    ghost invariant = { λ l. length l.fields ≤ 8 };
}

impl<const N: usize> Line<N> {
    /// How many bytes the line has.
    pub(crate) fn len(&self) -> usize
        ensures value { result ≡ length self.now }
        ensures short { result ≤ 90 }
    {
        let mut len = 2;
        for &field in &self.fields {
            len += 1 + field_len(field);
        }
        len
    }

    /// Writes the line into a buffer that has room for it, from `at` on, and answers the place after it.
    ///
    /// Inlined, so that the fields of a line that its caller makes are not laid out in memory first.
    #[inline(always)]
    pub(crate) fn put(&self, out: &mut [u8], at: usize) -> usize
        requires { at + length self.now ≤ length out.old }
        ensures end { result ≡ at + length self.now }
        ensures after { out.new ≡ wrote out.old at self.now }
    {
        out[at] = self.head.letter() as u8;
        let mut end = at + 1;
        for &field in &self.fields {
            out[end] = b'\t';
            let start = end + 1;
            end = start + field_len(field);
            fill_field(&mut out[start..end], field);
        }
        out[end] = b'\n';
        end + 1
    }

    /// Writes the line, or refuses and leaves the buffer as it was.
    pub(crate) fn write(&self, out: &mut [u8], at: usize) -> Result<usize, Refusal>
        ensures { put result out.new ≡ writing out.old at self.now }
    {
        check_room(out.len(), at, self.len())?;
        Ok(self.put(out, at))
    }
}

/// Refuses where a buffer of `size` bytes has no room for `len` bytes from `at` on.
pub(crate) fn check_room(size: usize, at: usize, len: usize) -> Result<(), Refusal>
    ensures { MatchResult result (λ _. at + len ≤ size) (λ e. (size < at + len) × (e ≡ BlockTooShort)) }
{
    if at > size || len > size - at {
        return Err(Refusal::BlockTooShort);
    }
    Ok(())
}

/// How many bytes a field has.
fn field_len(field: Field) -> usize
    ensures value { result ≡ length (field_bytes field) }
    ensures short { result ≤ 10 }
{
    match field {
        Field::Number(number) => number_len(number),
        Field::Name(layer) => layer.name().len(),
    }
}

/// Fills a part that is as long as the field with it.
fn fill_field(part: &mut [u8], field: Field)
    requires { length part.old ≡ length (field_bytes field) }
    ensures { part.new ≡ field_bytes field }
{
    match field {
        Field::Number(number) => fill_number(part, number),
        Field::Name(layer) => part.copy_from_slice(layer.name()),
    }
}
