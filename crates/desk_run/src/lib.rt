//! The shape of a run, for every command: what it reads, what it gives, and what becomes of that.
//!
//! A [`Command`] says which papers it reads, whether it reads the journal, and what outcome it gives of what it has read. An
//! [`Outcome`] is what it asks of the world. It has files to write in their order, lines to append to the journal or none, a
//! text to put, and an ending. The bytes of a file are made for it, or lent by a paper that was read ([`Content`]). [`perform`]
//! reads, asks the command, and carries the outcome out, over any shelf, sink and keeper, up to the first call that is refused.
//! It answers the status. The contract of [`perform`] has all that is promised of a run, by what the command asks. So a new
//! command proves nothing but its own outcome.
//!
//! The contract that the crates above use is `Performs`. What was read is what the calls answered (`found_by`). By that and the
//! status it has the one outcome that was carried out, whole or in part (`RunsAs`); the cause of each status (`HasCause`); which
//! status comes where no fault was counted (`IsComplete`); in which order which calls were made (`IsInOrder`); and how many steps
//! are counted at the most (`IsCounted`).
//!
//! `journal_commands` shows a use, in `src/kept.rt`.
//!
//! The contracts cite `World` (what stands outside the program), `Outside` (that, and which calls came to it), `Reading` (what is
//! read of it), `Outcome` (an outcome as contracts see it, and the status of its ending), `Becomes` (what becomes of an outcome),
//! `Commands` (what a command asks), `Runs` (what a run does to the world), `Causes` (when each status comes), `Order` (which
//! calls a run makes), `Answers` (what these answered) and `Performs`; of `desk_io` and `desk_keeper` what a shelf, a sink and a keeper are.
#![tactic(auto)]

mod carrying;
mod command;
mod fault;
mod outcome;
mod reading;
mod running;
mod status;

pub use carrying::carry_out;
pub use command::Command;
pub use fault::RunFault;
pub use outcome::{Content, Outcome, Writing};
pub use reading::{Loaded, Page, Read};
pub use running::perform;
pub use status::{
    DONE, EDITS_REFUSED, Ending, FEED_REFUSED, KEEPER_FAULT, NO, NO_MEMORY, READ_FAULT, USAGE,
    WRITE_FAULT,
};
