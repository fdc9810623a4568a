//! The program over any shelf, sink and keeper: it judges the words after its name, reads the files of a feed, and puts its
//! answer.
//!
//! [`run`] is the whole program; [`command_of`] is the command that the words name, and [`put_usage`] the run of words that
//! name none. The executable hands it the folder that the words name ([`folder_of`]), standard output, the journal and a
//! count of steps. Then it puts the line of its status on standard error ([`status_line`]).
//!
//! The contract that the crates above use: by the words, what was written, appended and put, and the status, are those of the
//! files and the journal.
//!
//! The contracts cite `Commands` (what the words ask for), `Runs` (what a run of the program is) and `Status` (the lines on
//! standard error). Of `desk_run` they cite what becomes of what a command asks, and of the crates of commands what each asks.
#![tactic(auto)]

mod command;
mod status;
mod top;
mod usage;

pub use command::{CommandName, command_of, folder_of};
pub use status::status_line;
pub use top::run;
pub use usage::put_usage;
