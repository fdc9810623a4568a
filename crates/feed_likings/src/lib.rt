//! How the links of a feed's trips are liked, by what its planner prefers.
//!
//! [`likings_of`] makes the likings of the settings, of the table of `trips.txt` and of the timetable that was read of it.
//! [`read_likings`] takes that table from what was read. By slot it finds the next trip of the stated block, and the number of
//! the line. Both take time that is nearly linear in the trips.
//!
//! The contract that the crates above use: the likings are a function of these three, `likings_of`.
//!
//! Laws for a reader, which nothing calls: [`laws::order_law`]. What is preferred counts more than all together that is
//! preferred less.
//!
//! `blocks_command` shows a use, in `src/blocks.rt`.
//!
//! The contracts cite:
//!
//! - `Units`: how much each preference counts
//! - `Laws`: what an order of preferences means for whole plans
//! - `Alike`: which trips are of one stated block, and which are of one line; `Numbered`: the same by numbers
//! - `Likings`: the likings of a feed
//! - of `plan_choice` `Likings`
//! - of `desk_settings` `Prefer` and `Selected`
#![tactic(auto)]

mod alike;
mod fields;
pub mod laws;
mod likings;
mod nexts;
mod units;

pub use likings::{likings_of, read_likings};
