//! The next trips that are preferred as stated are those of the blocks that `audit` judges.
//!
//! Laws for a reader, which nothing calls: [`laws::neighbours_law`]. Each is the contract of a function that does nothing.
//!
//! The contracts cite `Laws`; of `block_audit` `Stated`, and of `feed_likings` `Likings`.
#![tactic(auto)]

pub mod laws;
