ghost use Rattle.std.specs.Prelude.{◌≡◌, length, map, All, IfOk};
ghost use Rattle.gtfs_tables.specs.Papers.{IsWithinLimit};
ghost use Rattle.gtfs_tables.specs.Reading.{Gives};
ghost use Rattle.trip_model.specs.Timetable.{AreDistinct};
ghost use Rattle.feed_read.specs.Base.{base_of};
ghost use Rattle.feed_read.specs.FeedTrips as spec;
ghost use Rattle.feed_read.specs.FeedTrips.{IsFeedTrip};
ghost use Rattle.feed_read.specs.Trips.{seen};

use crate::feed_trip::{FeedTrip, feed_trips_of};
use crate::selection::Selection;
use crate::stop_times::trip_ends_in;
use crate::timetable::timetable_of;
use crate::trips::trips_in;
use desk_io::Found;
use desk_settings::Settings;
use gtfs_tables::FeedFault;
use std::alloc::Global;
use trip_model::Timetable;

// The selected trips, by what `stop_times.txt` leaves of their stop times.
fn feed_trips_in(
    alloc: Global,
    settings: &Settings,
    selection: &Selection,
    stop_times: &Found,
) -> Result<Vec<FeedTrip>, FeedFault>
    requires { IsWithinLimit stop_times.now }
    ensures gives { Gives (λ feed_trips. feed_trips.items) result (spec.feed_trips_in settings.now (seen selection.now) stop_times.now) }
    ensures valid { IfOk result (λ feed_trips. All IsFeedTrip feed_trips.items) }
    ensures distinct { IfOk result (λ feed_trips. AreDistinct (map (λ feed_trip. feed_trip.name) feed_trips.items)) }
    ensures count { IfOk result (λ feed_trips. length feed_trips.items ≡ length selection.now.names) }
{
    let trip_ends = trip_ends_in(alloc, &selection.names, stop_times)?;
    feed_trips_of(alloc, settings, selection, &trip_ends)
}

/// The base timetable of a feed: the trips of the chosen services, in the order of `trips.txt`, all live and as published. Or
/// the first refusal in the order of judging. A trip departs in the minute of its first departure. It ends in that of its last
/// arrival, rounded up, plus the layover of its last terminal. Places are numbered as the trips meet them, slot by slot, from
/// before to.
///
/// Where the settings give routes classes, the feed is classed. A trip is of the class of its route, which is empty where the
/// route has none. It runs between posts, each a terminal with that class, named TERMINAL/CLASS. Then `trips.txt` must have the
/// column `route_id`. Elsewhere places are terminals.
///
/// Each file has at most [`gtfs_tables::MOST_BYTES`] bytes.
#[tactic(auto, unfolding(crate::specs::Base::base_of))]
pub fn read_base(
    alloc: Global,
    trips: &Found,
    stop_times: &Found,
    settings: &Settings,
) -> Result<Timetable, FeedFault>
    requires trips { IsWithinLimit trips.now }
    requires stop_times { IsWithinLimit stop_times.now }
    ensures { Gives (λ timetable. timetable) result (base_of settings.now trips.now stop_times.now) }
{
    let selection = trips_in(alloc, settings, trips)?;
    let feed_trips = feed_trips_in(alloc, settings, &selection, stop_times)?;
    timetable_of(alloc, settings, &feed_trips)
}
