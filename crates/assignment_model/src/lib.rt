//! The assignment problem of a network of trips: plans of next trips, and the dual prices that prove them least.
//!
//! A row is a trip that a vehicle leaves, a column is one that it enters, and a pair weighs what the link saves. The crate has
//! no code but laws.
//!
//! The contract that the crates above use: the blocks of a certified plan are least ([`laws::certified_law`]), and its prices tell
//! which other blockings are ([`laws::least_law`]). Of these one may be chosen by likings ([`laws::choice_law`]). The laws of
//! [`path_laws`] are of the paths along which a plan is repaired.
//!
//! Laws for a reader, which nothing calls: all of [`laws`] and of [`path_laws`].
//!
//! The contracts cite:
//!
//! - `Prices`: plans of next trips whose prices prove that they are least
//! - `Tight`: blocks that lose nothing of the prices
//! - `Choice`: of all least plans the one that is liked best
//! - `Paths`: the paths along which such a plan is repaired
#![tactic(auto)]

pub mod laws;
mod limits;
pub mod path_laws;

pub use limits::{MOST_DEADHEAD, MOST_LIKING, PRICED, VEHICLE_WEIGHT};
