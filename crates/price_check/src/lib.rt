//! The checker of a certificate: whether blocks and prices that were written prove that these blocks are least.
//!
//! A [`Claimed`] is what `blocks.csv` and `prices.csv` claim, record by record, whoever wrote them. [`check`] judges it against
//! a timetable and a matrix of least walks, and takes no memory. It answers yes with the vehicles and the empty minutes of the
//! blocks, or the first [`Reason`] why not. It uses no solver.
//!
//! `plan_commands` shows a use, in `src/check.rt`.
//!
//! The contract that the crates above use: the verdict is its definition; no reason holds exactly against a certificate
//! ([`laws::certificate_law`]), whose blocks are least ([`laws::least_law`]).
//!
//! The contracts cite:
//!
//! - `Claim`: the records, and the blocks that they make
//! - `Reasons`: the seven reasons, and the first of them that holds
//! - of `trip_model`, `assignment_model` and `deadhead_matrix` the networks, blocks, weights and certified plans
//!
//! The laws also cite `Certificate`, the plan that a claim gives, and what it proves. `Onward` has the terms of the ways on
//! from a trip, for proofs alone.
#![tactic(auto)]

mod blocks;
mod claim;
mod judging;
pub mod laws;
mod onward;
mod prices;
mod trips;
mod verdict;

pub use claim::{BlockRow, Claimed, MOST_PRICE, PriceRow};
pub use judging::check;
pub use verdict::{Reason, Verdict};
