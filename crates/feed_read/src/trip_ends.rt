ghost use Rattle.std.specs.Prelude.{◌≡◌, All, IfOk, OnOk, length, option_map};
ghost use Rattle.feed_read.specs.FeedTrips as feed_trips;
ghost use Rattle.feed_read.specs.Kept as spec;
ghost use Rattle.feed_read.specs.StopTimes.{seen};

use crate::stop_time::{End, StopTime};
use desk_io::{Memory, Text};
use indexmap::IndexSet;
use std::alloc::Global;

/// What is kept of the stop times of one trip: their numbers along the trip, each once, and whether one came twice. Also the
/// first and the last stop time by these numbers.
#[derive(Drop)]
pub(crate) struct TripEnds {
    pub(crate) sequences: IndexSet<u64>,
    pub(crate) repeated: bool,
    pub(crate) first: Option<End>,
    pub(crate) last: Option<End>,
}

// The stop time, kept when its record is gone.
fn kept(alloc: Global, stop_time: &StopTime) -> Result<End, Memory>
    ensures { IfOk result (λ end. spec.end_seen end ≡ seen stop_time.now) }
{
    Ok(End {
        trip: stop_time.trip,
        stop: Text::of(alloc, stop_time.stop)?,
        arrival: stop_time.arrival,
        departure: stop_time.departure,
        sequence: stop_time.sequence,
    })
}

// The end of the lesser number, of the one that is least so far and a stop time.
fn sooner(alloc: Global, least: Option<End>, stop_time: &StopTime) -> Result<Option<End>, Memory>
    ensures { IfOk result (λ end. option_map spec.end_seen end ≡ feed_trips.sooner (option_map spec.end_seen least)
        (seen stop_time.now)) }
{
    match least {
        Some(least) if least.sequence <= stop_time.sequence => Ok(Some(least)),
        _ => Ok(Some(kept(alloc, stop_time)?)),
    }
}

// The end of the greater number, of the one that is greatest so far and a stop time.
fn later(alloc: Global, greatest: Option<End>, stop_time: &StopTime) -> Result<Option<End>, Memory>
    ensures { IfOk result (λ end. option_map spec.end_seen end ≡ feed_trips.later (option_map spec.end_seen greatest)
        (seen stop_time.now)) }
{
    match greatest {
        Some(greatest) if greatest.sequence >= stop_time.sequence => Ok(Some(greatest)),
        _ => Ok(Some(kept(alloc, stop_time)?)),
    }
}

impl TripEnds {
    /// What is kept of no stop times.
    fn new(alloc: Global) -> TripEnds
        ensures { spec.trip_ends_seen result ≡ spec.nothing_kept }
    {
        TripEnds {
            sequences: IndexSet::new(alloc),
            repeated: false,
            first: None,
            last: None,
        }
    }

    /// Takes one more stop time in.
    pub(crate) fn add(&mut self, alloc: Global, stop_time: &StopTime) -> Result<(), Memory>
        ensures { OnOk result (spec.trip_ends_seen self.new ≡ spec.with_kept (spec.trip_ends_seen self.old) (seen stop_time.now)) }
    {
        self.first = sooner(alloc, self.first.take(), stop_time)?;
        self.last = later(alloc, self.last.take(), stop_time)?;
        let new = self.sequences.insert(stop_time.sequence)?;
        self.repeated |= !new;
        Ok(())
    }
}

/// What is kept of no stop times, for each of so many slots.
pub(crate) fn no_trip_ends(alloc: Global, slots: usize) -> Result<Vec<TripEnds>, Memory>
    ensures count { IfOk result (λ trip_ends. length trip_ends.items ≡ slots) }
    ensures none { IfOk result (λ trip_ends. All (λ kept. spec.trip_ends_seen kept ≡ spec.nothing_kept) trip_ends.items) }
{
    let mut trip_ends = Vec::new(alloc);
    for _ in 0..slots {
        trip_ends.push(TripEnds::new(alloc))?;
    }
    Ok(trip_ends)
}
