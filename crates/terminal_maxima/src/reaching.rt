ghost use Rattle.std.specs.Prelude.{◌<◌, IfSome, IfNone};
ghost use Rattle.terminal_maxima.specs.Reaching.{IsFirstReaching, IsGreatestPrefix, NoneReaches};

use crate::descent::first_place;
use crate::max_prefix::MaxPrefix;
use crate::summary::LEAVES;
use crate::tree::Tree;

impl Tree<MaxPrefix> {
    /// The greatest of 0 and all prefix sums, which is `high` of the whole.
    pub fn greatest_prefix(&self) -> i32
        ensures { IsGreatestPrefix self.now result }
    {
        self.nodes[1].high
    }

    /// The first place whose prefix sum, that place included, is at least the value. It goes down the tree, and
    /// looks at no more than a few nodes of each level.
    pub fn first_reaching(&self, value: i32) -> Option<u16>
        ensures found { IfSome result (IsFirstReaching self.now 0 value) }
        ensures none { IfNone result (NoneReaches self.now 0 value) }
    {
        self.first_from(0, value)
    }

    /// The first place, not before this one, whose prefix sum, that place included, is at least the value.
    pub fn first_from(&self, place: u16, value: i32) -> Option<u16>
        requires { place < LEAVES }
        ensures found { IfSome result (IsFirstReaching self.now place value) }
        ensures none { IfNone result (NoneReaches self.now place value) }
    {
        first_place(&self.nodes, place, value)
    }
}
