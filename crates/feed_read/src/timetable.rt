ghost use Rattle.std.specs.Prelude.{◌≡◌, ◌<◌, ◌≤◌, false, [], ◌∷◌, ◌++◌, length, map, All, Contains, IfErr, IfOk, IfSome, OnOk};
ghost use Rattle.desk_settings.specs.Settings.{is_classed};
ghost use Rattle.gtfs_tables.specs.Reading.{Gives};
ghost use Rattle.trip_model.specs.declared.limits.TheConstants.{MOST_PLACES, MOST_SLOTS};
ghost use Rattle.trip_model.specs.Place.{has_slash, post_place};
ghost use Rattle.trip_model.specs.Timetable.{AreDistinct, number_of, place_names};
ghost use Rattle.feed_read.specs.Base as spec;
ghost use Rattle.feed_read.specs.FeedTrips.{IsFeedTrip};

use crate::feed_trip::FeedTrip;
use desk_io::{Memory, Text};
use desk_settings::Settings;
use gtfs_tables::{FeedFault, Paper};
use std::alloc::Global;
use trip_model::{MOST_PLACES, Timetable, Trip};

// The name of the post of a terminal for a class.
fn post_name(alloc: Global, terminal: &Text, class: &Text) -> Result<Text, Memory>
    ensures { IfOk result (λ name. name ≡ (post_place terminal.now class.now 0).name) }
{
    let (terminal, class) = (terminal.as_str(), class.as_str());
    Ok(Text::wrap(format!(in alloc; "{terminal}/{class}")?))
}

// The number of the place of a terminal for vehicles of a class.
fn find_place(
    alloc: Global,
    settings: &Settings,
    timetable: &Timetable,
    terminal: &Text,
    class: &Text,
) -> Result<Option<u16>, Memory>
    ensures number { IfOk result (λ place. place ≡ number_of (place_names timetable.now)
        (spec.place_of settings.now terminal.now class.now).name) }
    ensures within { IfOk result (λ place. IfSome place (λ p. p < length timetable.now.places)) }
{
    if settings.classed() {
        let name = post_name(alloc, terminal, class)?;
        Ok(timetable.find_place(name.as_str()))
    } else {
        Ok(timetable.find_place(terminal.as_str()))
    }
}

// Appends the place of a terminal for vehicles of a class.
fn append_place(
    settings: &Settings,
    timetable: &mut Timetable,
    terminal: &Text,
    class: &Text,
) -> Result<(), Memory>
    requires classed { timetable.old.classed ≡ is_classed settings.now }
    requires new { ¬ Contains (place_names timetable.old) (spec.place_of settings.now terminal.now class.now).name }
    requires named { has_slash class.now ≡ false }
    requires room { length timetable.old.places < MOST_PLACES }
    ensures { OnOk result (timetable.new ≡ record timetable.old {
      places = timetable.old.places ++ spec.place_of settings.now terminal.now class.now ∷ [];
    }) }
{
    let (terminal, class) = (terminal.as_str(), class.as_str());
    let layover = settings.layover(terminal);
    if settings.classed() {
        timetable.push_post(terminal, class, layover)?;
    } else {
        timetable.push_place(terminal, layover)?;
    }
    Ok(())
}

// Puts the place of a terminal for vehicles of a class at the end, where there is none yet.
fn push_place(
    alloc: Global,
    settings: &Settings,
    timetable: &mut Timetable,
    terminal: &Text,
    class: &Text,
) -> Result<(), FeedFault>
    requires classed { timetable.old.classed ≡ is_classed settings.now }
    requires named { has_slash class.now ≡ false }
    ensures pushed { OnOk result (timetable.new ≡ record timetable.old {
      places = spec.with_place timetable.old.places (spec.place_of settings.now terminal.now class.now);
    }) }
    ensures full { IfErr result (spec.IsFullOrMemory
        (spec.with_place timetable.old.places (spec.place_of settings.now terminal.now class.now))) }
{
    match find_place(alloc, settings, timetable, terminal, class)? {
        Some(_) => Ok(()),
        None if timetable.places() >= MOST_PLACES => Err(FeedFault::TooManyPlaces(
            Paper::StopTimes,
        )),
        None => Ok(append_place(settings, timetable, terminal, class)?),
    }
}

// The places of the trips, in the order in which the trips meet them.
fn push_places(
    alloc: Global,
    settings: &Settings,
    timetable: &mut Timetable,
    feed_trips: &[FeedTrip],
) -> Result<(), FeedFault>
    requires empty { timetable.old ≡ spec.timetable_over settings.now [] [] }
    requires valid { All IsFeedTrip feed_trips.now }
    ensures pushed { OnOk result (timetable.new ≡ spec.timetable_over settings.now
        (spec.places_met (spec.ends_of settings.now feed_trips.now)) []) }
    ensures full { IfErr result (spec.IsFullOrMemory (spec.places_met (spec.ends_of settings.now feed_trips.now))) }
{
    for trip in feed_trips {
        push_place(alloc, settings, timetable, &trip.from, &trip.class)?;
        push_place(alloc, settings, timetable, &trip.to, &trip.class)?;
    }
    Ok(())
}

// The slots of the trips, whose places are there already.
fn push_trips(
    alloc: Global,
    settings: &Settings,
    timetable: &mut Timetable,
    feed_trips: &[FeedTrip],
) -> Result<(), Memory>
    requires places { timetable.old ≡ spec.timetable_over settings.now (spec.places_met (spec.ends_of settings.now feed_trips.now)) [] }
    requires few { length feed_trips.now ≤ MOST_SLOTS }
    requires distinct { AreDistinct (map (λ feed_trip. feed_trip.name) feed_trips.now) }
    requires valid { All IsFeedTrip feed_trips.now }
    ensures { OnOk result (timetable.new ≡ spec.timetable_over settings.now (spec.places_met (spec.ends_of settings.now feed_trips.now))
        feed_trips.now) }
{
    for feed_trip in feed_trips {
        let from = find_place(
            alloc,
            settings,
            timetable,
            &feed_trip.from,
            &feed_trip.class,
        )?
        .unwrap();
        let to = find_place(alloc, settings, timetable, &feed_trip.to, &feed_trip.class)?.unwrap();
        let trip = Trip {
            from,
            to,
            departs: feed_trip.departs,
            ends: feed_trip.ends,
            offset: 0,
            early: feed_trip.early,
            late: feed_trip.late,
            live: true,
        };
        timetable.push_trip(feed_trip.name.as_str(), trip)?;
    }
    Ok(())
}

// A timetable without places and slots.
fn opened(alloc: Global, settings: &Settings) -> Timetable
    ensures { result ≡ spec.timetable_over settings.now [] [] }
{
    if settings.classed() {
        Timetable::open_classed(alloc, settings.early(), settings.late())
    } else {
        Timetable::open(alloc, settings.early(), settings.late())
    }
}

/// The timetable of trips: places in the order in which the trips meet them, and a slot for each trip.
#[tactic(auto, unfolding(crate::specs::Base::timetable_of))]
pub(crate) fn timetable_of(
    alloc: Global,
    settings: &Settings,
    feed_trips: &[FeedTrip],
) -> Result<Timetable, FeedFault>
    requires few { length feed_trips.now ≤ MOST_SLOTS }
    requires distinct { AreDistinct (map (λ feed_trip. feed_trip.name) feed_trips.now) }
    requires valid { All IsFeedTrip feed_trips.now }
    ensures { Gives (λ timetable. timetable) result (spec.timetable_of settings.now feed_trips.now) }
{
    let mut timetable = opened(alloc, settings);
    push_places(alloc, settings, &mut timetable, feed_trips)?;
    push_trips(alloc, settings, &mut timetable, feed_trips)?;
    // Its clause says that the timetable is valid.
    let _slots = timetable.slots();
    Ok(timetable)
}
