//! Cutting a text into lines, and a line into fields.

ghost use Rattle.std.specs.Prelude.{◌≡◌, ◌+◌, [], ◌∷◌, length, drop, MatchOption, MatchResult, ◌==◌};
ghost use Rattle.std.specs.Iterator.{YieldsFirstRef, item_count};
ghost use Rattle.std.specs.List.{after_first};
ghost use Rattle.text.specs.Lines.{pieces, lines, line_end, fields};
ghost use Rattle.text.specs.declared.fault.LineFault.TheVariants.{Unended};
ghost use Rattle.loader.specs.Rest.{fields_left};

use text::fault::LineFault;

/// What stands before the first separator and after it, if there is one.
fn split_once(bytes: &[u8], separator: u8) -> Option<(&[u8], &[u8])>
    ensures { MatchOption result (pieces separator bytes.now ≡ bytes.now ∷ [])
        (λ p. (pieces separator bytes.now ≡ p.0.now ∷ pieces separator p.1.now) × (p.1.now ≡ after_first (λ b. b == separator) bytes.now) × (length p.0.now + 1 + length p.1.now ≡ length bytes.now)) }
{
    let end = bytes.iter().position(|b| *b == separator)?;
    Some((&bytes[..end], &bytes[end + 1..]))
}

/// The next line, and the text after it.
#[tactic(auto, using(text::proofs::Pieces::lines_first, text::proofs::Pieces::lines_none, text::proofs::Pieces::line_end_rest))]
pub(crate) fn next_line(text: &[u8]) -> Result<(&[u8], &[u8]), LineFault>
    ensures { MatchResult result
        (λ p. (lines text.now ≡ p.0.now ∷ lines p.1.now) × (p.1.now ≡ drop (line_end text.now) text.now) × (length p.0.now + 1 + length p.1.now ≡ length text.now))
        (λ e. (e ≡ Unended) × (lines text.now ≡ [])) }
{
    split_once(text, b'\n').ok_or(LineFault::Unended)
}

/// The fields of a line that are still to come.
#[derive(Drop)]
pub(crate) struct Fields<'a> {
    rest: Option<&'a [u8]>,
}

impl<'a> Fields<'a> {
    /// All fields of a line.
    #[tactic(auto, unfolding(text::specs::Lines::fields))]
    pub(crate) fn of(line: &'a [u8]) -> Fields<'a>
        ensures { fields_left result ≡ fields line.now }
    {
        Fields { rest: Some(line) }
    }
}

impl<'a> Iterator for Fields<'a> {
    type Item = &'a [u8];

    ghost next_gives = { YieldsFirstRef fields_left };

    ghost remaining = { item_count fields_left };

    fn next(&mut self) -> Option<&'a [u8]> {
        let rest = self.rest.take()?;
        let Some((field, later)) = split_once(rest, b'\t') else {
            return Some(rest);
        };
        self.rest = Some(later);
        Some(field)
    }
}
