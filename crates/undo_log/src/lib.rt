//! What can be undone and what can be redone, 256 edits deep.
//!
//! A [`Log`] is two lists, kept and undone, together at most 256 items. An edit is pushed onto the kept ones. An undo
//! takes the last kept item off and puts what redoes it onto the undone ones, and a redo goes the other way. A push
//! forgets all that was undone, and where 256 are kept it hands back the oldest.
//!
//! `plan_history` shows a use, in `src/history.rt`.
//!
//! The contract that the crates above use: each call says what both lists are afterwards and which item it handed back.
//! [`Log::open`] takes all the memory that a log ever needs. Items are moved. An item that a push forgets from the undone
//! ones is dropped.
//!
//! The contracts cite `Log`:
//!
//! - the two lists, `LogView`
//! - their limit, `UNDO_DEPTH`, `IsWithinDepth` and `HasRoom`
//! - what a push keeps, `latest_items`
//! - the item that an undo would take, `last_item`
#![tactic(auto)]

mod log;

pub use log::{Log, UNDO_DEPTH};
