//! The blocks that a feed states by the `block_id` of its trips, and whether vehicles can make them.
//!
//! [`stated_blocks`] makes them of the table of `trips.txt` and a timetable. [`misfits`] lists the neighbours that do not fit,
//! and why: no way leads there, a vehicle comes too late, or a rule of pairs forbids it.
//! [`stated_cost`] counts vehicles and empty minutes where all fit, and [`above_by`] says by how much these are above the
//! least.
//!
//! The contract that the crates above use: the stated blocks are a blocking of the timetable exactly where there is no misfit.
//! They are least exactly where they are above the least by nothing ([`laws`]).
//!
//! Laws for a reader, which nothing calls: [`laws::above_law`] and [`laws::order_law`].
//!
//! `audit_command` shows a use, in `src/audit.rt`.
//!
//! The contracts cite:
//!
//! - `Stated`: the stated blocks
//! - `Misfits`: the pairs that do not fit
//! - `Above`: by how much blocks are above the least
//! - `Laws`: the laws of these
//! - of `trip_model` `Blocking`, `Order` and `Timetable`
//! - of `deadhead_matrix` `Fitting`, the network of a timetable and a matrix
//! - of `pair_rules` `Rules`, which pairs rules allow
//! - of `price_check` which trips run
#![tactic(auto)]

mod cost;
pub mod laws;
mod misfit;
mod names;
mod stated;

pub use cost::{Above, above_by, stated_cost};
pub use misfit::{Misfit, Why, misfits};
pub use stated::{Stated, stated_blocks};
