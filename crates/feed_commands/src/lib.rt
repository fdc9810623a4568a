//! The commands that show what a feed says without scheduling it: its deficits, and its blocks without deadheads.
//!
//! [`run_deficits`] and [`run_fixed`] are whole runs over any shelf, sink and keeper, of a `TextCommand` of `desk_feed` and of a
//! `NamingCommand` of `feed_naming`. Each puts a text of the timetable after the script.
//!
//! The contract that the crates above use: a run performs what its command asks (`deficits_asked`, `fixed_asked`).
//!
//! `run` of `desk_program` calls them.
//!
//! The contracts cite `Deficits` and `Fixed` (what each command asks and shows), of `desk_run` `Performs`, of `desk_feed` `Feed`
//! and `Showing`, of `feed_naming` `Commands`, and of `block_names` `Names`.
#![tactic(auto)]

mod deficits;
mod fixed;

pub use deficits::run_deficits;
pub use fixed::run_fixed;
