//! What is written of a feed, read again: it reads as the timetable, with the trips at their shifted minutes, and it states the
//! plan.
//!
//! The contract that the crates above use: the two files of `write` read as the timetable of the feed, with the trips at the
//! minutes at which they stand. Where all trips run and none is added, they state the blocks of the plan, which are least.
//!
//! [`laws::written_law`] says the first of each timetable that follows that of the feed. [`laws::follows_law`] says that what
//! stands after a script does. `write` joins them in what it gives. [`laws::early_law`] says when all times can be written.
//!
//! [`laws::plan_law`] says the second of the files of a feed in which all trips run and none is added. [`laws::script_law`] says
//! when a script leaves it so. It follows from four laws:
//!
//! - [`laws::moves_law`]: the written trips make the moves that were planned
//! - [`laws::names_law`]: each is named after its block
//! - [`laws::blocks_law`]: so the stated blocks are those of the plan
//! - [`laws::services_law`]: which records are those of the slots
//!
//! A law is the contract of a function that does nothing. The contracts cite `Laws` and `PlanLaws`, and by them `Follows`,
//! `Written`, `Planned` and `Found`. They also cite `Trips` and `StopTimes` of `block_writer`, `Stated`, `Misfits` and `Laws` of
//! `block_audit`, `Base` of `feed_read`, and `Machine` of `edit_script`.
#![tactic(auto)]

pub mod laws;
