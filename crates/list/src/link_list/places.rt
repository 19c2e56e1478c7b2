//! Where links stand in a list.

ghost use Rattle.std.specs.Prelude.{◌≡◌, take};
ghost use Rattle.std.specs.List.Sorted.{IsSearchInRange};
ghost use Rattle.list.specs.Layout.{searched};
ghost use Rattle.list.specs.Lists.{records_of, links_of};

use crate::link_list::LinkList;
use crate::record::LinkRecord;

impl LinkList {
    /// The links, in order.
    pub(crate) fn links(&self) -> &[LinkRecord]
        ensures { result.now ≡ take self.now.count (records_of self.now) }
    {
        &self.block[..self.count]
    }

    /// The place of the link of two words, or, if they are not linked, the place where it would stand.
    pub(crate) fn search(&self, left: u16, right: u16) -> Result<usize, usize>
        ensures bound { IsSearchInRange result self.now.count }
        ensures place { result ≡ searched (links_of self.now) (left, right) }
    {
        self.links().binary_search(&LinkRecord { left, right })
    }
}
