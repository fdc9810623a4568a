//! Edits of a timetable: the records of a script, their canonical lines, a timetable under edits, and the texts of
//! refused ones.
//!
//! [`read_edit`] reads a record as an [`Edit`], and [`read_script`] the records of a file. [`edit_line`] writes an edit as its
//! canonical line, as [`shift_line`] does a shift. A [`Script`] is a timetable under edits. The last 256 of them can be undone.
//! [`Script::judge`] says what an edit of a trip does, or why it is refused, and [`Script::change`] does what was judged.
//! [`Script::step`] is both for every edit: it answers what it [`Touched`], or refuses the edit and changes nothing.
//! [`EditFault`] is why an edit is refused, and [`fault_text`] what is printed of it.
//!
//! [`follow_records`] goes through the records of a script, each once and in order. A [`Follower`] does what a record asks,
//! and answers whoever asked: a script or a desk, the replay of a journal, several planners.
//!
//! The contract that the crates above use: a record is the edit of its form, or of none. A script has one line for each record.
//! Every edit that is read is in form, and the canonical line of an edit in form reads back as the same edit
//! ([`laws::read_back_law`]). A script makes the step of its definition, or gives the first refusal in order and is as it was.
//! Stepped over records it stays at the state of the edit machine, whose timetable is the fold of the edits that stand
//! ([`laws::machine_law`]).
//!
//! Laws for a reader, which nothing calls: [`laws::folds_law`]. The edits that stand are each accepted over those before it.
//!
//! `desk_feed` shows a use, in `src/script.rt`.
//!
//! The contracts cite:
//!
//! - `Edits`: which edits are in form
//! - `Forms`: the forms of records, and the lines of a script
//! - `Lines`: canonical lines, and the texts of faults
//! - `Changes`: what an edit of a trip does to a timetable
//! - `Script`: what a script is seen as, and a step
//! - `Made`: what an edit was judged to do
//! - `Machine`, with `Timetables`: the edit machine
//! - `Follow`: the lines of a script, one after the other
//! - `Kept`: what a script keeps of its edits
//! - `Laws`: the laws of these
#![tactic(auto)]

mod changes;
mod edit;
mod fault;
mod fields;
mod follow;
pub mod laws;
mod reading;
mod script;
mod touched;
mod writing;

pub use changes::Judged;
pub use edit::{Edit, Line, MOST_SHIFT, MOST_SHOWS};
pub use fault::{EditFault, TripEnd, fault_text};
pub use follow::{Follower, follow_records};
pub use reading::{read_edit, read_script};
pub use script::Script;
pub use touched::Touched;
pub use writing::{edit_line, shift_line};
