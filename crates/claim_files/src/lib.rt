//! The claim of `blocks.csv` and `prices.csv`: blocks and prices as somebody hands them in, and the line of a `no`.
//!
//! [`read_claimed`] reads what was found of the two files as a claim, which `price_check::check` judges. [`claim_line`] is
//! the line of a claim that cannot be read ([`ClaimFault`]), and [`reason_line`] that of a reason against one that can.
//!
//! The contract that the crates above use: a claim has one row for each record, with its values and the slot of its trip. Or
//! the fault is the first that is due, in `blocks.csv` before `prices.csv`. What is written of blocks and prices reads back
//! ([`laws::read_back_law`]), and of a certified plan it is accepted ([`laws::accepted_law`]).
//!
//! `plan_commands` shows a use, in `src/check.rt`.
//!
//! The contracts cite:
//!
//! - `Claims`: what the two files claim, or why nothing
//! - `Blocks`, `Prices`: the records of each
//! - `Running`: the slot of a name
//! - `Lines`: the printed lines
//!
//! The laws also cite:
//!
//! - `Written`: the claim of written blocks and prices, and when they can be written
//! - of `block_build` `Files`, and of `price_check` the verdict
#![tactic(auto)]

mod blocks;
mod claim;
mod fault;
pub mod laws;
mod lines;
mod prices;
mod running;

pub use blocks::MOST_SHOWN;
pub use claim::read_claimed;
pub use fault::ClaimFault;
pub use lines::{claim_line, reason_line};
