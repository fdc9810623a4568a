//! The definitions on examples: what they say is computed, and is what one works out by hand.
//!
//! Each example is a function that does nothing. Its clause is an equation: a definition at given bytes, trips or records is what the
//! comment says. It is proved by computing. So a definition that says something else fails here, whatever the program does.
//!
//! They go from bytes to bytes. The files of `examples/depot` say two trips, a deadhead and the pulls of a depot. The plan for these
//! is computed with its prices, then the line that is printed, and the two files that are written. The bytes of these are a claim, on
//! which the verdict is yes. A script of four records is read from its bytes, and its answers are those that `blocks` prints.
//!
//! Beside them are a time and its rounding, a table, a deficit, the sum of the maxima, a script with an undo, a refused feed and its
//! line, a choice between two least plans, the names of blocks, and a verdict that is no.
//!
//! The matrix of the examples is written down: no definition computes least walks, since they are known by what they are.
#![tactic(auto)]

mod choices;
mod claims;
mod deficits;
mod edits;
mod feeds;
mod files;
mod names;
mod plans;
mod times;

pub use choices::{a_choice, a_stated_feed};
pub use claims::{a_claim, a_no, a_yes};
pub use deficits::{a_deficit, a_sum_of_maxima};
pub use edits::{a_file_of_edits, a_script, four_answers};
pub use feeds::{a_feed, a_refusal, a_refused_feed};
pub use files::a_table;
pub use names::{a_tie_of_names, names_of_blocks};
pub use plans::{a_file_of_blocks, a_file_of_prices, a_line, a_plan};
pub use times::{a_rounded_arrival, a_rounded_departure, a_time};
