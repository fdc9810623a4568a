//! The command on the edits of several planners: `planners`.
//!
//! [`run_planners`] is a whole run over any shelf, sink and keeper, of a `FeedCommand` of `desk_feed`. It reads
//! `planner_edits.csv` after the papers of a feed. It takes its records through `Planners` of `planner_desk`, over the
//! timetable after the script. It puts what becomes of each, and the records that stand. The timetable with these it schedules
//! from scratch.
//!
//! The contract that the crates above use: a run performs what `planners` asks (`planners_asked`). What is put is that of the
//! planners' machine over the timetable after the script. The numbers are those of blocks that are least over all blockings of
//! its timetable. At each moment the edits that stand are each accepted, and an undo takes out its own planner's last one and
//! it alone.
//!
//! `run` of `desk_program` calls it.
//!
//! The contracts cite:
//!
//! - `Planners`: what the command asks and does
//! - `Reading`: the script of the planners
//! - `Moments`: which records stand at each moment, and what holds of that
//! - `Answers`: what is put of each record
//! - `Numbers`: what is put of their timetable
//! - of `planner_desk` `Machine`, `Standing` and `Laws`
//! - of `desk_run` `Performs`; of `desk_feed` `Feed`, `Judging` and `Schedule`
//!
//! `Stepped` has terms of the functions inside.
#![tactic(auto)]

mod answers;
mod numbers;
mod planners;
mod reading;

pub use planners::run_planners;
