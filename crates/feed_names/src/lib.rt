//! The names of the trips of an accepted feed are text, so that files which name them can be written and read back.
//!
//! The contract that the crates above use: each name of a trip that stands after the script is a text that has a byte
//! ([`laws::names_law`]). A law is the contract of a function that does nothing.
//!
//! The contracts cite `Laws`; of `desk_feed` `Feed`, and of `block_build` `Names`.
#![tactic(auto)]

pub mod laws;
