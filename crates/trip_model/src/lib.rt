//! The timetable of one service day: places, trip slots, the deficit functions of moves between places, and blocks. A block is
//! the trips that one vehicle makes one after the other.
//!
//! A [`Timetable`] is a list of places and a list of slots with one trip each. Places and slots are numbered from 0 in the
//! order in which they were pushed, and found by name. Its places are terminals, or, where vehicles are of classes
//! ([`Timetable::open_classed`]), posts, each a terminal with a class. A [`Move`] is what a deficit counts of a trip: where a
//! vehicle leaves and arrives, and in which minutes. [`Links`] say for each slot which trip its vehicle makes next, and
//! [`by_departure`] and [`by_end`] answer the slots in order of departure and of end. Its limits are constants, as
//! [`MOST_SLOTS`].
//!
//! The contract that the crates above use: a timetable is two lists and two numbers. Its names are distinct in each list, and
//! every trip is valid. [`Timetable::places`] and [`Timetable::slots`] hand this fact on. Links are a list, and those along
//! which departures rise make blocks in which each live slot is once ([`laws::links_law`]).
//!
//! `feed_read` shows a use, in `src/timetable.rt`.
//!
//! The contracts cite:
//!
//! - `Place`: terminals and posts
//! - `Trip`: valid trips, the move of a trip
//! - `Timetable`: what a timetable is seen as
//! - `Deficit`: departures less arrivals
//! - `Maximum`: the greatest value of a function of the minute, and its first minute
//! - `Steps`: the minutes at which such a function changes
//! - `Network`: which trips one vehicle can make one after the other
//! - `Blocking`: blocks, and when they are least
//! - `Plain`: vehicles that never run empty
//! - `Links`: the blocks that links make
//! - `Order`: slots by departure, and by end
//!
//! The laws of these are the contracts of [`laws`]. Laws for a reader, which nothing calls: [`laws::first_maximum_law`],
//! [`laws::steps_law`], [`laws::agreement_law`], [`laws::deficit_maximum_law`] and [`laws::before_law`].
#![tactic(auto)]

pub mod laws;
mod limits;
mod links;
mod order;
mod timetable;
mod trip;

pub use limits::{
    LAST_DEPARTURE, LAST_END, LAST_MINUTE, MINUTES, MOST_LAYOVER, MOST_PLACES, MOST_SLOTS,
    MOST_TOLERANCE,
};
pub use links::Links;
pub use order::{by_departure, by_end};
pub use timetable::Timetable;
pub use trip::{Move, Trip};
