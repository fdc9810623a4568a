//! The desk: a timetable under edits, with its deficits and its plan in lockstep.
//!
//! A [`Desk`] holds a script, a matrix of least walks, a plan with its prices, and what is kept in step with the timetable
//! ([`InStep`]): the deficits of the trips that run, or [`NoDeficits`] where they are not asked for. [`Desk::apply`] does an
//! edit. The script makes its step, and the deficits follow the trip that it touched. The plan is repaired; an undo and a redo
//! restore it. [`Desk::undo`] undoes without memory.
//!
//! The contract that the crates above use:
//!
//! - The first plan is, of all least ones, that which is liked best.
//! - At each moment the plan is certified for the timetable and the matrix. The deficits hold the moves of the trips that run.
//! - A refused edit leaves the desk as it was.
//! - An accepted edit changes the links along the paths of its repair alone.
//! - An undo and a redo restore the plan as it was, prices included.
//!
//! So at two moments at which the same edits stand the timetable and the plan are equal ([`laws::same_edits_law`]).
//!
//! `feed_desk` shows a use, in `src/follow.rt`.
//!
//! The contracts cite:
//!
//! - `Desk`: what a desk is seen as, and what an edit does to it
//! - `Follow`: steps of a script, which what is kept follows
//! - `Counts`: its blocks and their empty minutes
//! - `Standing`: moments
//! - of `edit_script` `Script`; of `assignment_model` `Prices` and `Paths`
//! - of `plan_history` `History` and `Stands`; of `plan_choice` `Likings` and `Chosen`
//!
//! `Repair` has terms for proofs alone.
#![tactic(auto)]

mod counts;
mod desk;
mod follow;
pub mod laws;
mod repair;

pub use desk::Desk;
pub use follow::{InStep, NoDeficits};
