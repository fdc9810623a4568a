//! Least walks between the places of a timetable, over the deadheads that the planner allows between its terminals.
//!
//! [`Deadheads::read`] reads what was found of `deadheads.csv` and adds the places that it names to the timetable; its records
//! are seen as entries ([`Entry`]). [`Matrix::of`] makes the matrix of entries between all places, and [`Matrix::read`] both at
//! once. [`Matrix::minutes`] looks up in how many minutes a vehicle can run empty from one place to another, along as many
//! entries as it takes. [`Matrix::walks_from`] lends those from one place. [`Pulls::read`] reads the pulls of places from what
//! was found of `depot.csv`, and [`Matrix::set_pulls`] takes them over. They are the minutes in which a vehicle comes from the
//! depot and goes back to it.
//!
//! The contract that the crates above use: the entries are those of the file, or the first refusal that is due. `minutes` is
//! the least walk of the entries. The blocks of a plan for a timetable and a matrix are least ([`laws::plan_law`]).
//!
//! Laws for a reader, which nothing calls: [`laws::no_entries_law`], [`laws::one_matrix_law`] and [`laws::class_law`].
//!
//! `desk_feed` shows a use, in `src/matrix.rt`.
//!
//! The contracts cite:
//!
//! - `Walks`: walks of entries, and the least
//! - `Matrix`: what a matrix is seen as
//! - `Deadheads`: the entries and the places of a file
//! - `Posts`: the places of a terminal, one for each class
//! - `Terminals`: walks from terminal to terminal, which walks between posts of one class take
//! - `Left`: the places that are left where the file is refused
//! - `Depot`, `Pulls`: the pulls of places
//! - `Fitting`: which trips a vehicle can make one after the other
//! - `Plans`: plans for a timetable and a matrix
//!
//! `Rows` has the terms of rows of minutes, and of the turns that make them least, for proofs alone.
#![tactic(auto)]

mod deadheads;
mod depot;
mod distances;
mod entry;
pub mod laws;
mod limits;
mod matrix;
mod posts;
mod pulls;
mod read;
mod through;
mod unplaced;
mod walks;
mod ways;

pub use deadheads::Deadheads;
pub use entry::Entry;
pub use limits::LONGEST_WALK;
pub use matrix::Matrix;
pub use pulls::{NO_PULL, Pull, Pulls};
pub use walks::Walks;
