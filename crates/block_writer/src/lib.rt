//! The agency's trips and stop times written again, with the block of each trip and the times of shifted trips moved.
//!
//! [`stop_times_text`] gives the bytes of `stop_times_blocks.txt`. Where no time changes and `stop_times.txt` has the form in which
//! it would be written, it lends the bytes of that file. Elsewhere it makes a text in one pass that keeps no record.
//! [`trips_text`] makes that of `trips_blocks.txt` of the table of `trips.txt`, which [`read_texts`] reads. All fields of both
//! files must be UTF-8, and the first that is not is refused. [`text_of`] is for those who read such fields.
//!
//! The contract that the crates above use: a text has the records that were read, in their order. Nothing is replaced but the
//! `block_id` of selected trips and the times of shifted ones. The text reads back as that table.
//!
//! Laws for a reader, which nothing calls: those of [`laws`].
//!
//! `write_command` shows a use, in `src/write.rt`.
//!
//! The contracts cite:
//!
//! - `Texts`: tables of texts, and why a paper is refused
//! - `Fields`: fields of a record
//! - `Trips`, `StopTimes`: the tables that are written, and their texts
//! - `Laws`: the laws of these
//! - of `gtfs_tables` `Table`, `Fold` and `Writing`
#![tactic(auto)]

mod fields;
pub mod laws;
mod plain;
mod stop_times;
mod texts;
mod trips;

pub use fields::text_of;
pub use stop_times::stop_times_text;
pub use texts::read_texts;
pub use trips::trips_text;
