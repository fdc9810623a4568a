//! A plan under edits of its timetable, with the plans before it and after it.
//!
//! A [`PlanHistory`] holds one plan. Each edit repairs it, and notes the slots whose next trip or prices changed, with what was
//! there before and after: an item. An undo writes what was before over the plan, and a redo writes what was after; no plan is
//! kept whole. The last 256 edits can be undone.
//!
//! The first plan is made from nothing, and then chosen among all least plans by likings ([`PlanHistory::solve`] and
//! [`PlanHistory::choose`]).
//!
//! The contract that the crates above use:
//!
//! - Of all least plans the chosen one is liked best. Its prices are those of the plan that was made.
//! - After an edit the plan is certified for the given pairs, along the paths of a repair. An undo leads back to the plan
//!   before it.
//! - An undo and a redo restore a plan as it was, prices included.
//! - The last change lists exactly the slots that the last kept edit changed.
//!
//! [`PlanHistory::reserve`] takes the memory that the next edit needs, so that an edit, an undo or a redo takes none and cannot
//! fail. After each edit of a timetable its plan meets what is required, by `edit_law` of `price_repair` and
//! [`laws::replace_law`].
//!
//! `desk_core` shows a use, in `src/desk.rt`.
//!
//! The contracts cite:
//!
//! - `History`: what a history is seen as
//! - `Stands`: what a plan has for a slot, and the slots for which two plans differ
//! - of `undo_log` `Log`
//! - of `price_repair` and `assignment_model` what a repair asks and gives
//! - of `plan_choice` and `assignment_model` which plan is chosen
//!
//! `Items` is for proofs. It says what an item writes over a plan, and to which plans items lead. So it says how the two lists
//! of plans are computed.
#![tactic(auto)]

mod history;
mod item;
mod keep;
pub mod laws;
mod links;
mod stand;

pub use history::PlanHistory;
pub use stand::{Changed, Stand};
