//! The search of `pair_search` over lists of pairs with values, by which the greatest sum of values is chosen where few pairs count.
//!
//! [`PairLists`] has for each row the columns that it lists, in rising order, each with a value. [`link_all`] adds all rows to links
//! that link none, one after the other, each by a search along a shortest augmenting path. [`Room`] has the memory of searches.
//!
//! The contract that the crates above use: links and prices are matched and cover each listed pair, and they are what `found_each`
//! of `pair_search` computes. So of several nearest columns the first is taken. No look is noted and no step counted.
//!
//! A search touches no more than the lists of the rows in its tree. Columns stand in blocks, each with a lower bound of how near
//! they are, so that most blocks are passed over when the nearest column is picked.
//!
//! The contracts cite `Lists` (the pairs, and the value of one). `Trees` has terms for proofs alone.
#![tactic(auto)]

mod grow;
mod lists;
mod scan;
mod search;
mod settle;
mod tree;

pub use lists::{Pair, PairLists};
pub use search::{Room, link_all};
