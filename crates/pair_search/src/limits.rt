/// No weight and no price is greater. It is above that of a vehicle with the longest ways home and out, and above each value of a
/// choice among least plans.
pub const GREATEST_PRICE: u64 = 4_503_599_627_370_496;

/// Farther than any search goes.
pub const FAR: u64 = GREATEST_PRICE + 1;

/// A cost at which no search reaches a group.
pub(crate) const UNREACHED: u64 = u64::MAX;
