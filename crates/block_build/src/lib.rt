//! Blocks, the trips that one vehicle makes one after the other, and how they and the prices of a plan are printed and written.
//!
//! [`blocks_of`] makes the blocks of links. [`block_minutes`] and [`empty_minutes`] count the minutes that one and that all run
//! empty. [`BlockNames`] are the names of blocks, [`NamedBlocks`] blocks with what they are printed by, [`SlotPrices`] the prices
//! of a plan. [`block_lines`] and [`price_lines`] print, [`blocks_text`] and [`prices_text`] make the texts of `blocks.csv` and
//! `prices.csv`.
//!
//! The contract that the crates above use: blocks are the chains of the links, in the order in which their first trips depart.
//! Each live slot is in them exactly once. A text is its definition, over all names.
//!
//! `feed_commands` shows a use, in `src/fixed.rt`.
//!
//! The contracts cite `Lines` (the printed texts), `Files` (the written ones) and `Names`. Of `trip_model` they cite `Blocking`,
//! `Links`, `Order`, `Plain` and `Timetable`, and of `deadhead_matrix` `Fitting` and `Matrix`.
#![tactic(auto)]

mod blocks;
mod build;
mod cost;
mod files;
mod lines;
mod named;
mod names;
mod prices;

pub use blocks::Blocks;
pub use build::blocks_of;
pub use cost::{block_minutes, empty_minutes};
pub use files::{blocks_text, prices_text};
pub use lines::{block_lines, price_lines};
pub use named::NamedBlocks;
pub use names::BlockNames;
pub use prices::SlotPrices;
