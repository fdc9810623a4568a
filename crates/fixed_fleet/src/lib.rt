//! Blocks without deadheads: which trip follows on which where vehicles never run empty, and how many vehicles that takes.
//!
//! [`fixed_links`] links the trips of a timetable first in, first out: trip by trip in order of departure, each is made by
//! the vehicle that has stood where it begins since the earliest minute, and by a new one where none stands there. It takes
//! the time of two sorts, and of one look at each trip for each place.
//!
//! The contract that the crates above use: the links number the trips less the sum of the maxima of the deficits, and no
//! blocking without deadheads has fewer blocks than that sum ([`laws::plain_blocks_law`], over any list of moves).
//!
//! `feed_commands` shows a use, in `src/fixed.rt`.
//!
//! The contracts cite `Rule` (the links of the rule), and of `trip_model` `Blocking`, `Plain`, `Links`, `Order`, `Deficit`
//! and `Maximum`.
#![tactic(auto)]

mod fixed;
pub mod laws;

pub use fixed::fixed_links;
