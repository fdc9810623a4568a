//! The charts of a timetable: one line for each place or block, and one character for each ten minutes.
//!
//! A column is ten minutes. The columns go from that of the first departure to that of the last end of the trips that run.
//! [`deficit_chart`] draws in each column the greatest deficit of each place. [`block_chart`] draws whether the vehicle of each
//! block makes a trip, runs empty or waits.
//!
//! The contract that the crate above uses: byte for byte the chart of the timetable and the deficits, or of the blocks, is
//! drawn. Where deficits hold a list of moves, it is the chart of the deficits of that list.
//!
//! `plan_commands` shows a use, in `src/chart.rt`.
//!
//! The contracts cite `Columns` (which columns there are, and their minutes), `Deficits` (the characters and lines of
//! places) and `Blocks` (those of blocks).
#![tactic(auto)]

mod blocks;
mod columns;
mod deficits;
pub mod laws;

pub use blocks::block_chart;
pub use columns::{COLUMN_MINUTES, LAST_COLUMN};
pub use deficits::deficit_chart;
