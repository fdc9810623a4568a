//! A timetable scheduled from scratch: its plan, and the blocks of that.
//!
//! [`schedule_of`] makes the plan of a timetable and its matrix and the blocks along its links.
//!
//! The contract that the crates above use: the plan is certified, and its blocks are least over all blockings.
//!
//! `planners_command` shows a use, in `src/planners.rt`.
//!
//! The contracts cite `Plans` of `deadhead_matrix`.
#![tactic(auto)]

mod schedule;

pub use schedule::{Schedule, schedule_of};
