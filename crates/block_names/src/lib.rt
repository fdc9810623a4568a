//! How blocks get their names: those that a feed states for their trips, and numbers.
//!
//! [`Naming`] is what names are given by: what numbered ones begin with, and by slot the names that the feed states. It makes
//! the names of blocks. Each name gets a number first, so that names are compared as often as there are trips and free names;
//! numbers are compared once for each name and trip, and for each two trips of a block.
//!
//! The contract that the crates above use: the names are a function of these and of the blocks, `names_of`. Each is a text that
//! is not empty, and no two blocks have the same ([`laws::naming_law`]).
//!
//! Laws for a reader, which nothing calls: [`laws::numbered_law`], where no name is stated, the names are the numbers of the
//! blocks; and [`laws::stated_law`], a block that a stated name asks for has a stated name.
//!
//! The contracts cite `Names` (which name a block has) and `Numbered` (the same by numbers of names), of `block_build` `Names`,
//! and of `desk_settings` `Names` and `Selected`.
#![tactic(auto)]

mod free;
pub mod laws;
mod most;
mod naming;
mod numbers;
mod stated;

pub use naming::Naming;
