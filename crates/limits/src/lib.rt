//! Every limit of the program, the weight of a vehicle, and the statuses, as numbers.
//!
//! Each is a constant of the lowest crate that needs it, and contracts cite it by its name. [`all_limits`],
//! [`weight_of_a_vehicle`] and [`all_statuses`] say which numbers the constants are.
#![tactic(auto)]

mod limits;
mod statuses;

pub use limits::{Limits, all_limits, weight_of_a_vehicle};
pub use statuses::{Statuses, all_statuses};
