//! Taking a block over, and handing it back.

ghost use Rattle.std.specs.Prelude.{◌≡◌};
ghost use Rattle.list.specs.Blocks.{laid_state};
ghost use Rattle.list.specs.Lists.{state_of};

use crate::link_list::LinkList;
use crate::record::LinkRecord;
use sheet::lengths::Lengths;

impl LinkList {
    /// A list without links on the block, of which it uses at most the first 4,096 records. No record is changed.
    pub fn lay(lengths: Lengths, block: Vec<LinkRecord>) -> LinkList
        ensures lengths { result.lengths ≡ lengths }
        ensures block { result.block ≡ block }
        ensures state { state_of result ≡ laid_state lengths.left lengths.right block.items }
    {
        LinkList {
            lengths,
            block,
            count: 0,
        }
    }

    /// The block as it is now.
    pub fn into_block(self) -> Vec<LinkRecord>
        ensures { result ≡ self.block }
    {
        self.block
    }
}
