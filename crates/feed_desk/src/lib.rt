//! The script of a feed, followed by a desk: the one plan after it.
//!
//! [`follow_script`] schedules the timetable of a feed and follows its script with a desk, record by record. An [`Answers`] says
//! what is put of each record. [`draw_after`] puts the lines of refused records alone, and gives the blocks of the last plan.
//! Every command that draws, writes or lists blocks of a feed takes them from here, so these are the same blocks.
//!
//! The contract that the crates above use: each moment of the script has one plan. It is certified and least over all blockings
//! of the timetable that stands then. Of the base timetable no least blocking is liked more. Where the same edits stand the plans
//! are equal. What is drawn is the last one.
//!
//! `joined_command` shows a use, in `src/joined.rt`.
//!
//! The contracts cite `Plans` (one plan for each moment), `Answers` (what is put of the records) and `Drawn` (what stands after
//! the script). Of `desk_core` they cite `Counts`, and of `desk_feed` `Edited`, `Schedule` and `Script`. `Moments` has terms of
//! the functions inside.
#![tactic(auto)]

mod answers;
mod draw;
mod follow;

pub use answers::{Answers, Refusals, ScriptRecord};
pub use draw::{Drawn, blocks_now, draw_after};
pub use follow::{Followed, follow_script};
