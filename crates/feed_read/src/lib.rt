//! From a feed, as an agency publishes it, to its timetable.
//!
//! [`read_base`] makes the base timetable of `trips.txt`, `stop_times.txt` and the settings of a desk. It has the trips of the
//! chosen services, in the order of their records. Each goes from its first stop to its last by `stop_sequence`, wherever these
//! rows are in the file. A feed is classed where the settings give routes classes. Then each trip is of the class of its route,
//! and the places are posts, which are terminals with a class. So trips of two classes have no place in common.
//!
//! The contract that the crates above use: the timetable is `base_of` the three, or the refusal is the first of the order
//! of judging.
//!
//! Laws for a reader, which nothing calls: [`laws::ends_law`].
//!
//! `desk_feed` shows a use, in `src/feed.rt`.
//!
//! The contracts cite `Base`, the timetable of a feed. It uses these:
//!
//! - `Trips`: the selected trips and their classes
//! - `StopTimes`: their records of `stop_times.txt`
//! - `FeedTrips`: the first and the last of these records ([`laws::ends_law`]), and the trip that they make
//!
//! `Kept` (what is kept of stop times) has terms of the functions inside.
#![tactic(auto)]

mod feed;
mod feed_trip;
pub mod laws;
mod selection;
mod stop_time;
mod stop_times;
mod timetable;
mod trip_ends;
mod trips;

pub use feed::read_base;
