//! A tree over the 8,192 minutes of a service day that answers maxima of prefix sums.
//!
//! A [`Tree`] holds one [`Summary`] for each minute, its leaf, and keeps the summary of all of them. One leaf is replaced by
//! writing 14 nodes, one of each level. A [`MaxPrefix`] sums the steps of a deficit function and knows the greatest of its
//! prefix sums. A tree of these goes down to find the first minute that reaches a value.
//!
//! The contract that the crates above use: a tree is its list of 8,192 leaves. `set` changes one of them, and `whole` is the
//! fold of all. `greatest_prefix` is the greatest of 0 and all prefix sums. `first_reaching` and `first_from` give the first
//! place whose prefix sum reaches a value.
//!
//! `src/tests.rt` shows a use.
//!
//! The contracts cite:
//!
//! - `Summary`: the laws of a summary
//! - `MaxPrefix`: the sum of some leaves, with the greatest of their prefix sums
//! - `MaxPrefixLaws`: it keeps these laws
//! - `Reaching`: the greatest prefix sum of a tree, and the first place whose prefix sum reaches a value
//!
//! `Nodes` is the invariant of the type alone: the nodes are the summaries of their leaves.
#![tactic(auto)]

mod descent;
mod max_prefix;
mod nodes;
mod reaching;
mod summary;
mod tree;

pub use max_prefix::{MOST_CHANGE, MaxPrefix};
pub use summary::{LEAVES, Summary};
pub use tree::Tree;

#[cfg(test)]
mod tests;
