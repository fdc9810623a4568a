//! A plan repaired after the trip of one slot was taken or added.
//!
//! Nothing is scheduled anew. [`after_take`] cuts the trip out of the plan. The trip before it and its next one may both still
//! have a price, so a search goes out from each. [`after_add`] goes out from the leaving side of the new trip, and then from
//! its entering side. A trip that moves is taken and then added. Neither takes memory.
//!
//! The contract that the crates above use: a plan that was certified with the trip, or without it, is certified for the pairs
//! now. Its links change along the two paths of a trip that is taken, or added, alone. No more than 2n^2 + 2n steps are
//! counted. After each edit of a timetable its plan meets what is required ([`laws::edit_law`]).
//!
//! `plan_history` shows a use, in `src/history.rt`.
//!
//! The contracts cite `Without` (plans for pairs with a trip more or less) and `Repaired` (plans after repairs, computed from the
//! plan before). They cite `Prices` and `Paths` of `assignment_model`, and `Pairs` of `pair_graph`. `Cut` has the plan between a
//! take and its searches.
#![tactic(auto)]

mod add;
pub mod laws;
mod sides;
mod take;

pub use add::after_add;
pub use take::after_take;
