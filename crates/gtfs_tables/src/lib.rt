//! Comma-separated files as tables, small texts as numbers and times, and the lines of refused files.
//!
//! [`read_records`] takes the records of a file one by one into a [`RecordReader`]. [`read_traced`] does so into a
//! [`TracedReader`], which also says what a refused file leaves of it. [`judge_table`] says whether a file is a table.
//! [`Table::read`] gives a header and rows of as many fields, and [`read_rows`] the records of a file that has no
//! header. [`read_time`], [`read_minute`] and [`read_number`] read values with spaces round them, which [`without_spaces`]
//! takes off, and [`digits_number`] reads digits alone. [`minute_text`] prints a minute, and [`RecordWriter`] writes records.
//! [`Paper`] and [`Column`] name the files and their columns, and [`feed_line`] is the line of a [`FeedFault`]. [`table_in`],
//! [`column_in`], [`text_in`], [`filled_in`], [`number_in`] and [`time_in`] read a feed's table step by step, each up to its
//! own refusal. [`place_of`] finds a column that need not be there. [`read_optional`] and [`optional_bytes`] read a file that
//! need not be there. [`Entries`] are names with a value each.
//!
//! The contract that the crates above use:
//!
//! - A fold gives its definition over the records that `csv` reads of the bytes. Or it gives the first refusal, or there was no
//!   memory.
//! - A time and a number are the values of their grammars.
//! - Records that are written read back, unless the text begins with a byte-order mark ([`laws::read_back_law`]).
//! - A writer that lost a record takes no other, and gives no bytes.
//!
//! Laws for a reader, which nothing calls: [`laws::minute_law`].
//!
//! `desk_settings` shows a use, in `src/terminals.rt`.
//!
//! The contracts cite:
//!
//! - `Records`: the records of a file
//! - `Parts`: how line ends and commas part a file that has no double quote
//! - `Rows`, `Table`: padding, the table or its fault, the place of a column
//! - `Times`, `Numbers`, `Spaces`: the grammars, and the rounding to minutes
//! - `Papers`, `Faults`: the printed names and lines
//! - `Reading`: reading one part after another up to the first refusal
//! - `Fold`: reading record by record
//! - `Entries`: names with a value each
//! - `Writing`: records as text
//! - `Laws`: what is written reads back
#![tactic(auto)]

mod entries;
mod fault;
mod field_list;
mod fold;
pub mod laws;
mod numbers;
mod paper;
mod parts;
mod reading;
mod records;
mod row;
mod spaces;
mod table;
mod times;
mod writing;

pub use entries::Entries;
pub use fault::{FeedFault, feed_line};
pub use fold::{
    RecordReader, TracedReader, judge_table, read_header, read_optional, read_records, read_traced,
};
pub use numbers::{digits_number, read_number};
pub use paper::{Column, MOST_BYTES, MOST_RECORDS, Paper};
pub use reading::{
    column_in, filled_in, number_in, optional_bytes, place_of, table_in, text_in, time_in,
};
pub use records::read_rows;
pub use row::Row;
pub use spaces::without_spaces;
pub use table::{Table, TableFault};
pub use times::{LAST_SECOND, minute_down, minute_text, minute_up, read_minute, read_time};
pub use writing::RecordWriter;
