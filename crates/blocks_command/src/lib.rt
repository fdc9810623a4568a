//! The command that puts the numbers after each record of a script, and writes the last plan: `blocks`.
//!
//! [`run_blocks`] is a whole run over any shelf, sink and keeper, of a `NamingCommand` of `feed_naming`. It follows the script by
//! `follow_script` of `feed_desk`, and puts what becomes of each record.
//!
//! The contract that the crates above use: a run performs what `blocks` asks (`blocks_asked`). Of an accepted feed there is one
//! plan for each moment of the script, as `feed_desk` says. The text and the two files are functions of these plans. The two
//! files are a claim on which the verdict is yes.
//!
//! `run` of `desk_program` calls it.
//!
//! The contracts cite:
//!
//! - `Blocks`: what the command asks and does
//! - `Answers`: what is put of each record
//! - of `feed_desk` `Plans` and `Answers`; of `claim_files` `Written`
//! - of `feed_naming` `Commands`, and of `block_names` `Names`
//! - of `desk_run` `Performs`; of `desk_feed` `Feed`, `Judging` and `Schedule`
#![tactic(auto)]

mod answers;
mod blocks;

pub use blocks::run_blocks;
