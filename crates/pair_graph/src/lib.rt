//! Which trip one vehicle can make next after which, and what making it saves.
//!
//! [`Pairs`] only borrows a timetable and a matrix of least walks. [`Pairs::weight`] answers for two slots whether the second
//! trip can follow on the first, by a few look-ups and without memory. [`Pairs::without`] takes one slot as not live.
//! [`Pairs::row`] and [`Pairs::column`] are for a caller that looks at many pairs of one slot. At one place a vehicle saves as
//! much by each trip that is in time. So the minutes of one walk are enough for all trips that begin there, or that end there.
//! [`Pairs::move_at`] is for one that lays out what it needs of the trips.
//!
//! The contract that the crates above use: a pair has a weight exactly where it fits, that of the network of deadheads. That
//! network is one of one day, in which departures rise, as [`Pairs::slots`] says. So the laws of `assignment_model` hold of
//! plans over these pairs.
//!
//! `feed_schedule` shows a use, in `src/schedule.rt`.
//!
//! The contracts cite `Pairs` (what the pairs are seen as) and `Shares` (what a vehicle saves along a walk). Of
//! `deadhead_matrix` they cite `Fitting`, of `assignment_model` `Prices`, and of `trip_model` `Plain` and `Network`.
#![tactic(auto)]

mod column;
mod pairs;
mod row;
mod share;

pub use column::Column;
pub use pairs::Pairs;
pub use row::Row;
pub use share::Share;
