use crate::summary::Summary;

/// The most that one leaf adds or takes off.
pub const MOST_CHANGE: u32 = 65_536;

/// The sum of neighbouring leaves, and the greatest of their prefix sums.
///
/// Of one leaf the sum lies between -65,536 and 65,536.
#[derive(Clone, Copy)]
pub struct MaxPrefix {
    /// The sum of all leaves.
    pub sum: i32,
    /// The greatest of 0 and all prefix sums.
    pub high: i32,
}

impl Summary for MaxPrefix {
    ghost use Rattle.terminal_maxima.specs.MaxPrefix.{SumsLeaves, no_leaf, both};
    ghost use Rattle.terminal_maxima.specs.MaxPrefixLaws.{max_prefix_laws};

    ghost sums = { SumsLeaves };

    ghost empty = { no_leaf };

    ghost joined = { both };

    ghost laws = { max_prefix_laws };

    fn unit() -> MaxPrefix {
        MaxPrefix { sum: 0, high: 0 }
    }

    fn join(self, right: MaxPrefix) -> MaxPrefix {
        MaxPrefix {
            sum: self.sum + right.sum,
            high: self.high.max(self.sum + right.high),
        }
    }
}
