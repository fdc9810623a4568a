//! The command that judges the blocks which a feed states by `block_id`: `audit`.
//!
//! [`run_audit`] is a whole run over any shelf, sink and keeper, of a `FeedCommand` of `desk_feed`. It puts the pairs of trips
//! that do not fit. Where all fit, it puts the vehicles and empty minutes of the stated blocks beside those of least blocks.
//!
//! The contract that the crates above use: a run performs what `audit` asks (`audit_asked`). It ends as no exactly where the stated
//! blocks are not a blocking, and puts `least` exactly where they are least.
//!
//! `run` of `desk_program` calls it.
//!
//! The contracts cite:
//!
//! - `Audit`: what the command asks and does
//! - `Lines`: what it prints
//! - of `block_audit` `Stated`, `Misfits` and `Laws`
//! - of `desk_run` `Performs`; of `desk_feed` `Feed`, `Judging` and `Schedule`
//!
//! `Auditable` has terms of the functions inside.
#![tactic(auto)]

mod audit;
mod judging;
mod lines;

pub use audit::run_audit;
