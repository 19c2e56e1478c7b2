//! A sheet kept as a list of links in a block of records.

ghost use Rattle.std.specs.Prelude.{◌≡◌, ◌≤◌, take};
ghost use Rattle.alignment.specs.Links.{in_order};
ghost use Rattle.list.specs.Layout.{pairs, room, list_alignment};

use crate::record::LinkRecord;
use sheet::lengths::Lengths;

/// How many links a list keeps at most, and so how many records of its block it uses.
pub const MOST_LINKS: usize = 4_096;

/// A sheet kept as a list of links, by left word and then right word, in a block of records that the host hands over and gets back.
///
/// The count stands beside the block since the records after the links are the host's and stay as they are.
#[derive(Drop)]
pub struct LinkList {
    lengths: Lengths,
    block: Vec<LinkRecord>,
    count: usize,
    ghost fits: { count ≤ room block.items },
    ghost ordered: { pairs (take count block.items) ≡ in_order (list_alignment lengths.left lengths.right (take count block.items)) },
}

mod block;
mod edits;
mod look_ups;
mod places;
