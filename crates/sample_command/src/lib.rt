//! The command that needs no data: `sample`.
//!
//! [`run_sample`] is a whole run over any shelf, sink and keeper. It makes the feed of `feed_sample` in memory, and reads it as
//! one of a folder. It schedules the timetable after its script from scratch, judges the two files of that plan as `check`
//! does, and puts one line. It asks the shelf and the keeper for nothing, and writes nothing.
//!
//! The contract that the crates above use: a run performs what `sample` asks (`sample_asked`). Where the files of the sample
//! are accepted, the line has the three numbers of a certified plan of the timetable after the script. So they are the fewest
//! vehicles and then the fewest empty minutes, over all blockings. The two files of that plan are a claim on which `check` says
//! yes. Where they are not, the line is that of their first refusal.
//!
//! `run` of `desk_program` calls it.
//!
//! The contracts cite:
//!
//! - `Sample`: what the command asks, and the line
//! - of `feed_sample` `Sample`; of `claim_files` `Written`
//! - of `desk_run` `Performs`; of `desk_feed` `Feed`, `Judging` and `Schedule`
//!
//! `Summed` has terms of the functions inside.
#![tactic(auto)]

mod sample;
mod summary;

pub use sample::run_sample;
