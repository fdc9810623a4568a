//! The search over one side of the pairs of a timetable, by which a plan of next trips gains a leaving or an entering side.
//!
//! A [`Side`] shows pairs as rows and columns: leaving sides as rows and entering sides as columns, or the other way round. Its
//! columns stand in groups, of those that begin at one place. An [`Order`] arranges them. [`search_links`] adds a row to links,
//! by a search along a shortest augmenting path of the assignment problem. [`search_befores`] does so over the inverse of
//! links, and [`link_all`] adds all rows, as [`Departures`] has them in order. [`Lists`] has the memory of searches.
//!
//! The contract that the crates above use: links and prices that are matched and cover all rows but one do so with that row
//! too, along the path of its definition. The looks that a search notes in [`Looks`] are each at a pair that fits, at a group or at
//! a row. No two of them are alike, and each is a step.
//!
//! `price_assign` shows a use, in `src/plan.rt`.
//!
//! The contracts cite `Side` (the pairs, seen from one side), `Order` and `Groups` (how columns stand), `Assignment` and `Turned`
//! (links and prices that are matched), and `Visits` (the looks of a search). `Determined` and `Arranged` say what a search
//! finds, computed from its start. `Search`, `Leads`, `Relinking`, `Renamed`, `Fronts` and `Inverse` have terms
//! for proofs alone.
#![tactic(auto)]

mod groups;
mod grow;
pub mod invert;
pub mod laws;
mod leads;
mod limits;
mod line;
mod links;
mod lists;
mod look;
mod looks;
mod order;
mod orders;
pub mod relink;
mod rename;
mod scan;
mod search;
mod shift;
mod side;
mod tree;

pub use groups::Group;
pub use grow::{End, sooner};
pub use limits::{FAR, GREATEST_PRICE};
pub use lists::Lists;
pub use look::Look;
pub use looks::Looks;
pub use order::Column;
pub use orders::{Departures, Order};
pub use scan::{Found, Nearby, nearer_between};
pub use search::{link_all, search_befores, search_links};
pub use side::Side;
