//! Joined deficits and running boards: the moves of the vehicles of blocks, with the deadheads put in.
//!
//! [`joined_moves`] lists what the vehicles of blocks do, trip by trip, with the deadheads between the trips that take time.
//! [`joined_deficits`] holds such moves, [`joined_lines`] prints the deficits beside those without deadheads, and
//! [`boards_text`] makes the text of `boards.csv`, the running board of each block.
//!
//! The contract that the crates above use: where blocks are least, the maxima of their joined moves add up to the number of
//! blocks ([`laws::joined_law`]). So with the deadheads of least blocks put in, every vehicle is seen in the deficits.
//!
//! `joined_command` shows a use, in `src/joined.rt`.
//!
//! The contracts cite:
//!
//! - `Joined`: the joined moves
//! - `Boards`: the written text
//! - `Lines`: the printed text
//! - of `trip_model` `Blocking`, `Deficit`, `Maximum`, `Plain` and `Timetable`
//! - of `deadhead_matrix` `Fitting` and `Matrix`; of `deficit_steps` `Holds`
#![tactic(auto)]

mod boards;
mod deficits;
pub mod laws;
mod legs;
mod limits;
mod lines;

pub use boards::boards_text;
pub use deficits::{joined_deficits, joined_moves};
pub use limits::MOST_MOVES;
pub use lines::joined_lines;
