//! The journal of edits: what a keeper of it promises, and a keeper in memory.
//!
//! A [`Keeper`] holds a journal, lines of text in their order, and counts its faults. It is a trait with one meaning, a
//! record of the journal, where that is told, and of the count, and a history of the calls that came to it. Callers are
//! generic over it, so that they are proved once: for [`MemoryKeeper`], which tells its journal, and for a real database,
//! which does not. [`Lines`] is what a load answers, and [`KeeperFault`] why a call does nothing.
//!
//! The contract that the crates above use: a load answers the whole journal, or `TooLong` where it has more lines than
//! were asked for at most; an append appends all lines in order or none; `Failed` comes only where the count rose, and
//! every other answer leaves it; each call is noted, a load with what it answered.
//!
//! `desk_run` shows a use of a keeper, in `src/reading.rt` and `src/carrying.rt`.
//!
//! The contracts cite `Keeper` (what a keeper holds, and what loads and appends do to it) and `MemoryKeeper`, and of
//! `desk_io` `Faults` (when a count rose), `History` (which calls came) and `Calls` (which calls are listed to fail).
#![tactic(auto)]

mod keeper;
mod lines;
mod memory_keeper;

pub use keeper::{Keeper, KeeperFault, answer_of};
pub use lines::Lines;
pub use memory_keeper::MemoryKeeper;
