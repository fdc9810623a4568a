//! What a feed says, for every command that works on one.
//!
//! A command on a feed is a [`FeedCommand`]: what it asks, and the outcome that it gives of what an accepted feed says
//! ([`Said`]). One that puts a text of what stands after the script ([`Stands`]) is a [`TextCommand`], and [`AfterScript`] makes
//! a `FeedCommand` of it. [`OnFeed`] makes of a `FeedCommand` the `Command` of a run. It reads the [`FEED_PAPERS`] first, and
//! puts the first refusal of a feed that is not accepted. So no command judges a feed itself.
//!
//! What such commands need besides:
//!
//! - [`after_script`] is the timetable after the script.
//! - [`matrix_of`] is the matrix of its places, with the pulls and the rules of pairs.
//! - [`putting_after`] puts a text behind the lines of refused records.
//! - [`push_numbers_line`] is the line of the three numbers of a timetable.
//! - [`refuse`] puts a refusal.
//!
//! The contract that the crates above use: an accepted feed says what its papers say. Of a refused one the line of the first
//! refusal in the order of judging is put, and the run ends as refused. The timetable after the script is that of the edit
//! machine, and so are the lines of its refused records.
//!
//! Laws for a reader, which nothing calls: [`laws::first_refusal_law`]. A refusal is that of the first file that is refused.
//!
//! `feed_commands` shows a use, in `src/deficits.rt`.
//!
//! The contracts cite:
//!
//! - `Feed`: what the papers say, or their first refusal
//! - `First`: which refusal that is
//! - `Judging`: what is made of that, and what a command asks that works on a feed
//! - `Commands`: what a command is lent of a feed
//! - `Showing`: what a command asks that puts a text
//! - `Script`: the moments of a script, and what is printed of refused records
//! - `Numbers`: the line of three numbers
//! - `Edited`: the timetable, the refusals and the ending of a script
//! - of `desk_run` what is read and what an outcome is
//!
//! `Schedule` has the plan of a feed and its blocks, which commands draw, write or list.
#![tactic(auto)]

mod command;
mod feed;
mod judging;
pub mod laws;
mod matrix;
mod numbers;
mod script;

pub use command::{AfterScript, FeedCommand, OnFeed, Said, Stands, TextCommand};
pub use feed::Feed;
pub use judging::{FEED_PAPERS, Judged, judge_feed, refuse};
pub use matrix::matrix_of;
pub use numbers::push_numbers_line;
pub use script::{
    Edited, after_script, ending_by, push_reason, push_refusal, putting_after, step_script,
};
