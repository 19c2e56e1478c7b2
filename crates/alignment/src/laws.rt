//! Laws of alignments. Each function does nothing: its contract is a theorem, and the check asks for the proof.

ghost use Rattle.alignment.specs.Laws.{NextLinkIsLeast, LinksInOrder};

/// The next link is the least linked right word from the given one on; there is none only where no such word is linked.
pub fn next_link_is_least()
    ensures { NextLinkIsLeast }
{}

/// The links in order are all links, each once, by left word and then right word, and as many as are counted.
pub fn links_in_order()
    ensures { LinksInOrder }
{}
