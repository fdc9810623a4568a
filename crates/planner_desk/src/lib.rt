//! A timetable under the edits of several planners, of whom each takes back edits of their own.
//!
//! [`read_planner_script`] reads the records of a file, each a planner's name and then an edit, as [`PlannerLine`]s.
//! [`Planners`] are a base timetable and the records that stand: [`Planners::step`] does what a planner asks for, or refuses it
//! and changes nothing. An edit of a trip stands after those before it. An undo takes out the planner's own last record that
//! stands, and it alone. So later ones of other planners stay. Where one of these names the same trip, it holds the record.
//! [`PlannerFault`] is why a record is refused.
//!
//! The contract that the crates above use: the timetable is the fold over the base of the edits that stand, in order. Each of
//! them is accepted there. A step makes that of its definition, or gives its refusal and leaves all as it was; lack of memory
//! comes last. Whatever is taken back, the edits that stand fold without a refusal ([`laws::folding_law`]). [`laws::undo_law`]
//! says what an undo takes out. Stepped over records, planners stay at the state of their machine ([`laws::machine_law`]).
//!
//! `planners_command` shows a use, in `src/planners.rt` and `src/answers.rt`.
//!
//! The contracts cite:
//!
//! - `Standing`: the timetable of records that stand, and what an undo takes out
//! - `Planners`: what planners are seen as, and a step
//! - `Machine`: the machine over the records of a script
//! - `Forms`: the forms of records, and the lines of a script
//! - `Laws`: the laws of these
#![tactic(auto)]

mod edit;
mod fault;
pub mod laws;
mod planners;
mod reading;
mod standing;

pub use edit::{MOST_PLANNER_EDITS, PlannerEdit, PlannerLine};
pub use fault::PlannerFault;
pub use planners::Planners;
pub use reading::read_planner_script;
