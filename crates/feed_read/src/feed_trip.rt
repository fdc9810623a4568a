ghost use Rattle.std.specs.Prelude.{◌≡◌, ℕ, ◌<◌, ◌≤◌, false, [], length, slice_get, List, map, All, IfOk, IfSome};
ghost use Rattle.gtfs_tables.specs.declared.times.TheConstants.{LAST_SECOND};
ghost use Rattle.gtfs_tables.specs.Entries.{Name};
ghost use Rattle.gtfs_tables.specs.Reading.{Gives};
ghost use Rattle.trip_model.specs.Place.{has_slash};
ghost use Rattle.trip_model.specs.Timetable.{AreDistinct};
ghost use Rattle.desk_settings.specs.Settings.{SettingsView};
ghost use Rattle.feed_read.specs.FeedTrips as spec;
ghost use Rattle.feed_read.specs.Kept.{AreKept, AreTripEnds, end_seen, trip_ends_seen};
ghost use Rattle.feed_read.specs.Trips.{seen};
ghost use Rattle.feed_read.specs.StopTimes.{StopTimeView};

use crate::selection::Selection;
use crate::stop_time::End;
use crate::trip_ends::TripEnds;
use desk_io::{Memory, Text};
use desk_settings::Settings;
use gtfs_tables::{FeedFault, minute_down, minute_up};
use std::alloc::Global;

/// A trip as the feed has it: its name, the class of its vehicles, and its two terminals. Then its minutes of the service day,
/// with the layover at its end, and by how many minutes it may be moved.
pub(crate) struct FeedTrip {
    pub(crate) name: Text,
    pub(crate) class: Text,
    pub(crate) from: Text,
    pub(crate) to: Text,
    pub(crate) departs: u16,
    pub(crate) ends: u16,
    pub(crate) early: u8,
    pub(crate) late: u8,
}

impl Drop for FeedTrip {
    fn drop(self) {
        let Self {
            name: _,
            class: _,
            from: _,
            to: _,
            departs: _,
            ends: _,
            early: _,
            late: _,
        } = self;
    }
}

// The seconds at which a trip leaves its first stop time and reaches its last.
#[tactic(auto, unfolding(crate::specs::FeedTrips::feed_trip_between))]
fn times_between(
    alloc: Global,
    name: &str,
    first: &End,
    last: &End,
) -> Result<(u32, u32), FeedFault>
    ensures gives { (settings : SettingsView) (class : Name)
        → Gives (λ times. spec.feed_trip_at settings name.now class (end_seen first.now) (end_seen last.now) times.0 times.1) result
        (spec.feed_trip_between settings name.now class (end_seen first.now) (end_seen last.now)) }
    ensures forward { IfOk result (λ times. times.0 < times.1) }
    ensures on_day { IfOk result (λ times. times.1 ≤ LAST_SECOND) }
{
    let departure = first.departure.or(first.arrival);
    let arrival = last.arrival.or(last.departure);
    let (Some(departure), Some(arrival)) = (departure, arrival) else {
        return Err(FeedFault::NoTime(Text::of(alloc, name)?));
    };
    if departure >= arrival {
        return Err(FeedFault::NotForward(Text::of(alloc, name)?));
    }
    Ok((departure, arrival))
}

// A trip that leaves its first stop time and reaches its last at these seconds.
fn feed_trip_at(
    alloc: Global,
    settings: &Settings,
    name: &str,
    class: &str,
    first: &End,
    last: &End,
    times: (u32, u32),
) -> Result<FeedTrip, Memory>
    requires class { has_slash class.now ≡ false }
    requires forward { times.0 < times.1 }
    requires on_day { times.1 ≤ LAST_SECOND }
    ensures is { IfOk result (λ feed_trip. feed_trip ≡ spec.feed_trip_at settings.now name.now class.now
        (end_seen first.now) (end_seen last.now) times.0 times.1) }
    ensures valid { IfOk result spec.IsFeedTrip }
{
    let (departure, arrival) = times;
    let to = settings.terminal(last.stop.as_str());
    let (early, late) = settings.tolerance(name);
    Ok(FeedTrip {
        name: Text::of(alloc, name)?,
        class: Text::of(alloc, class)?,
        from: Text::of(alloc, settings.terminal(first.stop.as_str()))?,
        to: Text::of(alloc, to)?,
        departs: minute_down(departure),
        ends: minute_up(arrival) + settings.layover(to),
        early,
        late,
    })
}

// A trip between its first and its last stop time.
fn feed_trip_between(
    alloc: Global,
    settings: &Settings,
    name: &str,
    class: &str,
    first: &End,
    last: &End,
) -> Result<FeedTrip, FeedFault>
    requires { has_slash class.now ≡ false }
    ensures gives { Gives (λ feed_trip. feed_trip) result
        (spec.feed_trip_between settings.now name.now class.now (end_seen first.now) (end_seen last.now)) }
    ensures valid { IfOk result spec.IsFeedTrip }
    ensures name { IfOk result (λ feed_trip. feed_trip.name ≡ name.now) }
{
    let times = times_between(alloc, name, first, last)?;
    Ok(feed_trip_at(alloc, settings, name, class, first, last, times)?)
}

// The trip of that name and class with the stop times that were kept.
#[tactic(auto, unfolding(crate::specs::FeedTrips::feed_trip_of))]
fn feed_trip_of(
    alloc: Global,
    settings: &Settings,
    name: &str,
    class: &str,
    trip_ends: &TripEnds,
) -> Result<FeedTrip, FeedFault>
    requires { has_slash class.now ≡ false }
    ensures gives { (stop_times : List StopTimeView) → AreTripEnds stop_times (trip_ends_seen trip_ends.now)
        → Gives (λ feed_trip. feed_trip) result (spec.feed_trip_of settings.now name.now class.now stop_times) }
    ensures valid { IfOk result spec.IsFeedTrip }
    ensures name { IfOk result (λ feed_trip. feed_trip.name ≡ name.now) }
{
    if trip_ends.repeated {
        return Err(FeedFault::DuplicateSequence(Text::of(alloc, name)?));
    }
    match (&trip_ends.first, &trip_ends.last) {
        (Some(first), Some(last)) if trip_ends.sequences.len() >= 2 => {
            feed_trip_between(alloc, settings, name, class, first, last)
        }
        _ => Err(FeedFault::TooFewStops(Text::of(alloc, name)?)),
    }
}

/// The selected trips, slot by slot, with the stop times that were kept for each.
pub(crate) fn feed_trips_of(
    alloc: Global,
    settings: &Settings,
    selection: &Selection,
    trip_ends: &[TripEnds],
) -> Result<Vec<FeedTrip>, FeedFault>
    requires { length trip_ends.now ≡ length selection.now.names }
    ensures gives { (stop_times : List StopTimeView) → AreKept stop_times (map trip_ends_seen trip_ends.now) →
        Gives (λ feed_trips. feed_trips.items) result (spec.feed_trips_of settings.now (seen selection.now) stop_times) }
    ensures valid { IfOk result (λ feed_trips. All spec.IsFeedTrip feed_trips.items) }
    ensures distinct { IfOk result (λ feed_trips. AreDistinct (map (λ feed_trip. feed_trip.name) feed_trips.items)) }
    ensures count { IfOk result (λ feed_trips. length feed_trips.items ≡ length selection.now.names) }
{
    let mut feed_trips = Vec::new(alloc);
    for slot in 0..selection.names.len() {
        let name = selection.names.get(slot);
        let class = selection.classes[slot].as_str();
        let feed_trip = feed_trip_of(alloc, settings, name, class, &trip_ends[slot])?;
        feed_trips.push(feed_trip)?;
    }
    Ok(feed_trips)
}
