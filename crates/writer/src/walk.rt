//! The links of a sheet, one after another.

ghost use Rattle.std.specs.Prelude.{◌≡◌, ℕ, ◌+◌, ◌≤◌, List, [], ◌∷◌, MatchOption, IfSome};
ghost use Rattle.std.specs.Iterator.{YieldsFirst, item_count};
ghost use Rattle.alignment.specs.Alignment.{most_words};
ghost use Rattle.alignment.specs.Links.{in_order};
ghost use Rattle.writer.specs.LinksFrom.{links_from};

use sheet::sheet::Sheet;
use std::marker::Model;

/// The links of a sheet from two words on, by left word, then right word. Clauses see those that are left.
#[derive(Drop)]
pub(crate) struct Links<'a, S: Sheet> {
    sheet: &'a S,
    from: (u16, u16),
}

impl<'a, S: Sheet> Model for Links<'a, S> {
    ghost Value = { List (ℕ × ℕ) };

    ghost view = { λ l. links_from (S.meaning l.sheet.now) l.from.0 l.from.1 };
}

impl<'a, S: Sheet> Links<'a, S> {
    /// All links of a sheet.
    pub(crate) fn of(sheet: &'a S) -> Self
        ensures { result ≡ in_order (S.meaning sheet.now) }
    {
        Links {
            sheet,
            from: (1, 1),
        }
    }
}

/// A walk looks at each left word once, and once more for each link.
impl<'a, S: Sheet> Iterator for Links<'a, S> {
    type Item = (u16, u16);

    ghost next_gives = { YieldsFirst (λ rest. rest) };

    ghost remaining = { item_count (λ rest. rest) };

    fn next(&mut self) -> Option<(u16, u16)> {
        let (left, right) = first_from(self.sheet, self.from)?;
        self.from = (left, right + 1);
        Some((left, right))
    }
}

/// The first link from two words on, by left word, then right word.
fn first_from<S: Sheet>(sheet: &S, from: (u16, u16)) -> Option<(u16, u16)>
    ensures first { MatchOption result (links_from (S.meaning sheet.now) from.0 from.1 ≡ []) (λ p. links_from (S.meaning sheet.now) from.0 from.1 ≡ p ∷ links_from (S.meaning sheet.now) p.0 (p.1 + 1)) }
    ensures inside { IfSome result (λ p. p.1 ≤ most_words) }
{
    let (first, mut start) = from;
    for left in first..=sheet.lengths().left() {
        if let Some(right) = sheet.next_link(left, start) {
            return Some((left, right));
        }
        start = 1;
    }
    None
}
