//! The deficits of all places, kept as one change for each place and minute. Each place has a tree of `terminal_maxima`, whose
//! leaves sum these changes.
//!
//! [`Deficits`] holds moves: [`Deficits::add`] counts a departure where a move leaves and an arrival where it arrives, and
//! [`Deficits::take`] counts them no more. The value of a place at a minute is the sum of its changes so far.
//!
//! - `max` answers its greatest value and the first minute that has it.
//! - `first_max_from` answers the first such minute from some minute on.
//! - `total` answers the sum of the greatest values of all places.
//! - `step_list` answers the minutes at which the value changes.
//!
//! [`deficits_of`] holds the trips of a timetable that run, [`fixed_of`] is the sum of their greatest values, and
//! [`deficit_lines`] prints them, with the lines of [`push_steps`].
//!
//! The contract that the crate above uses: deficits are seen as the list of the changes of each place, 8,192 for each. Where
//! they hold a list of moves, the value of each place at each minute is the deficit of that list ([`laws::held_law`]). A move
//! that is added is held from then on, and one that is taken away no more.
//!
//! `feed_commands` shows a use, in `src/deficits.rt`.
//!
//! The contracts cite:
//!
//! - `Changes`: values, and what a move changes that is added or taken away
//! - `Holds`: when a list of moves is held
//! - `NextMaximum`: the first minute, from some minute on, that has the greatest value
//! - `Lines`: the printed text
//! - of `trip_model` `Deficit`, `Maximum`, `Fleet` and `Steps`
//!
//! `Leaves` is the view of a place alone.
#![tactic(auto)]

mod deficits;
pub mod laws;
mod lines;
mod row;
mod trips;

pub use deficits::Deficits;
pub use lines::{deficit_lines, push_steps};
pub use trips::{deficits_of, fixed_of};
