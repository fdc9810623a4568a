//! How the blocks of a feed are named, for each command that prints or writes them.
//!
//! [`read_naming`] reads the names that blocks keep, where the settings say that they keep those of the feed. [`OnNames`] is a
//! command on a feed of one that names blocks ([`NamingCommand`]). It puts the refusal of a name that is no text.
//!
//! The contract that the crates above use: how blocks are named is a function of what was read (`naming_in`). A command of this
//! kind does what it does of that, or puts the first refusal.
//!
//! `blocks_command` shows a use, in `src/blocks.rt`.
//!
//! The contracts cite:
//!
//! - `Naming`: how blocks are named by what was read
//! - `Commands`: what a command asks that names blocks
//! - of `block_names` `Names`; of `desk_feed` `Feed` and `Judging`
#![tactic(auto)]

mod command;
mod naming;

pub use command::{NamingCommand, OnNames};
pub use naming::read_naming;
