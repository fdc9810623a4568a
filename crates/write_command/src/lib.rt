//! The command that writes the feed again: `write`.
//!
//! [`run_write`] is a whole run over any shelf, sink and keeper, of a `NamingCommand` of `feed_naming`. It takes the plan after the
//! script. Its timetable gives the text of the stop times, and its blocks give that of the trips.
//!
//! The contract that the crates above use: a run performs what `write` asks (`write_asked`).
//!
//! `run` of `desk_program` calls it.
//!
//! The contracts cite:
//!
//! - `Write`: what the command asks and writes
//! - of `block_writer` `Trips`, `StopTimes` and `Texts`
//! - of `feed_desk` `Drawn` and `Plans`
//! - of `feed_naming` `Commands`, and of `block_names` `Names`
//! - of `desk_run` `Performs`; of `desk_feed` `Feed`, `Judging` and `Schedule`
//!
//! `Writable` has terms of the functions inside.
#![tactic(auto)]

mod judging;
mod write;

pub use write::run_write;
