//! The commands that draw a plan or judge one: charts of the plan after the script, and whether blocks that somebody hands in
//! are least.
//!
//! [`run_chart`] draws the deficits and the blocks of the plan after the script, and [`run_check`] judges the two files of a
//! claim. Each is a whole run over any shelf, sink and keeper, of a `NamingCommand` of `feed_naming` and of a `FeedCommand` of
//! `desk_feed`.
//!
//! The contract that the crates above use: a run performs what its command asks (`chart_asked`, `check_asked`).
//!
//! `run` of `desk_program` calls them.
//!
//! The contracts cite:
//!
//! - `Chart`, `Check`: what each command asks and does
//! - of `feed_desk` `Drawn` and `Plans`
//! - of `feed_naming` `Commands`, and of `block_names` `Names`
//! - of `desk_run` `Performs`; of `desk_feed` `Feed`, `Judging`, `Edited` and `Schedule`
#![tactic(auto)]

mod chart;
mod check;

pub use chart::run_chart;
pub use check::run_check;
