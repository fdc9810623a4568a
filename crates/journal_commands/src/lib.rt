//! The commands on the journal of edits: `keep` and `kept`.
//!
//! [`run_keep`] and [`run_kept`] are whole runs over any shelf, sink and keeper. `keep` is a `FeedCommand` of `desk_feed`. It
//! takes the edit machine over the records of the journal, and then over those of the script. It appends the canonical lines of
//! the script's accepted records to the journal, all of them or none. `kept` writes the journal as a script, and reads no feed.
//!
//! The contract that the crates above use: a run performs what its command asks (`keep_asked`, `kept_asked`).
//!
//! `run` of `desk_program` calls them.
//!
//! The contracts cite:
//!
//! - `Keep`, `Kept`: what each command asks and does
//! - `Journal`: a journal as a script
//! - `Replay`: what becomes of the records
//! - of `desk_run` `Performs`; of `desk_feed` `Feed`, `Judging` and `Script`
//!
//! `Replayed` has terms of the functions inside.
#![tactic(auto)]

mod journal;
mod keep;
mod kept;
mod replay;

pub use keep::run_keep;
pub use kept::run_kept;
