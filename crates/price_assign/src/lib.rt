//! A plan of next trips with its dual prices, for the pairs of a timetable.
//!
//! A [`Solver`] holds a [`Plan`] and all the memory for making and repairing it, which [`Solver::open`] takes. A plan is
//! certified or loose for the network of the pairs. [`Solver::solve`] makes a plan from nothing: it adds the leaving side of
//! one trip after the other. [`Solver::search_left`] adds one to a loose plan, and [`Solver::search_right`] an entering side,
//! each by a search along a shortest augmenting path of the assignment problem.
//!
//! The contract that the crates above use: after `solve` the plan is certified, within a count of steps. A search takes a loose
//! plan to one with one side less left out, along the path of its definition. It takes no look twice, and each look is a
//! step. `solve` makes as many such searches as there are slots.
//!
//! `feed_schedule` shows a use, in `src/schedule.rt`.
//!
//! The contracts cite `Found` (the plans that are found, computed from the pairs) and `Plans` (plans with other slots, or another
//! entry). They cite `Prices` and `Paths` of `assignment_model`, and `Visits` of `pair_search`. The search is that of
//! `pair_search`.
#![tactic(auto)]

mod plan;
mod solver;

pub use plan::Plan;
pub use solver::Solver;
