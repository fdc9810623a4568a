ghost use Rattle.std.specs.Prelude.{◌≡◌, ◌<◌, ◌≤◌, ◌++◌, IfOk, OnOk, string_bytes};
ghost use Rattle.feed_sample.specs.Sample as spec;

use crate::MOST_SAMPLE;
use desk_io::Memory;
use gtfs_tables::minute_text;
use std::alloc::Global;
use std::fmt::Write;

// The minute at which the trip of a number departs.
fn departure(i: u32) -> u16
    requires { i < MOST_SAMPLE }
    ensures value { result ≡ spec.departure i }
    ensures bound { result < 1200 }
{
    (300 + 37 * i % 900) as u16
}

// The minutes that the trip of a number takes.
fn running_time(i: u32) -> u16
    requires { i < MOST_SAMPLE }
    ensures value { result ≡ spec.running_time i }
    ensures bound { result ≤ 50 }
{
    (20 + 10 * (i % 4)) as u16
}

// Appends the record of a trip.
#[tactic(auto, unfolding(crate::specs::Sample::trip_line))]
fn push_trip(text: &mut String, i: u32) -> Result<(), Memory>
    ensures { OnOk result (string_bytes text.new ≡ string_bytes text.old ++ spec.trip_line i) }
{
    writeln!(text, "R,W,S{i}")?;
    Ok(())
}

// Appends the record of a stop of a trip, with one time for its arrival and its departure.
#[tactic(auto, unfolding(crate::specs::Sample::stop_line))]
fn push_stop(
    alloc: Global,
    text: &mut String,
    i: u32,
    minute: u16,
    place: u32,
    sequence: u32,
) -> Result<(), Memory>
    ensures { OnOk result (string_bytes text.new ≡ string_bytes text.old ++ spec.stop_line i minute place sequence) }
{
    let time = minute_text(alloc, minute)?;
    let time = time.as_str();
    writeln!(text, "S{i},{time}:00,{time}:00,P{place},{sequence}")?;
    Ok(())
}

// Appends the records of the two stops of a trip.
#[tactic(auto, unfolding(crate::specs::Sample::stop_lines))]
fn push_stops(alloc: Global, text: &mut String, i: u32) -> Result<(), Memory>
    requires { i < MOST_SAMPLE }
    ensures { OnOk result (string_bytes text.new ≡ string_bytes text.old ++ spec.stop_lines i) }
{
    let departs = departure(i);
    let arrives = departs + running_time(i);
    push_stop(alloc, text, i, departs, i % 8, 1)?;
    push_stop(alloc, text, i, arrives, (3 * i + 1) % 8, 2)
}

// Appends the record of the deadhead between two places, which are different.
#[tactic(auto, unfolding(crate::specs::Sample::deadhead_line))]
fn push_deadhead(text: &mut String, from: u32, to: u32) -> Result<(), Memory>
    requires from { from < 8 }
    requires to { to < 8 }
    ensures { OnOk result (string_bytes text.new ≡ string_bytes text.old ++ spec.deadhead_line from to) }
{
    if from == to {
        return Ok(());
    }
    let minutes = 5 + 2 * from.abs_diff(to);
    writeln!(text, "P{from},P{to},{minutes}")?;
    Ok(())
}

/// The text of `trips.txt`.
#[tactic(auto, unfolding(crate::specs::Sample::trip_lines_to))]
pub fn trips_text(alloc: Global, trips: u32) -> Result<String, Memory>
    ensures { IfOk result (λ text. string_bytes text ≡ spec.trips_text trips) }
{
    let mut text = String::from_str(alloc, "route_id,service_id,trip_id\n")?;
    for i in 0..trips {
        push_trip(&mut text, i)?;
    }
    Ok(text)
}

/// The text of `stop_times.txt`.
#[tactic(auto, unfolding(crate::specs::Sample::stop_lines_to))]
pub fn stop_times_text(alloc: Global, trips: u32) -> Result<String, Memory>
    requires { trips ≤ MOST_SAMPLE }
    ensures { IfOk result (λ text. string_bytes text ≡ spec.stop_times_text trips) }
{
    let mut text = String::from_str(
        alloc,
        "trip_id,arrival_time,departure_time,stop_id,stop_sequence\n",
    )?;
    for i in 0..trips {
        push_stops(alloc, &mut text, i)?;
    }
    Ok(text)
}

/// The text of `deadheads.csv`.
#[tactic(auto, unfolding(crate::specs::Sample::deadhead_lines_to))]
pub fn deadheads_text(alloc: Global) -> Result<String, Memory>
    ensures { IfOk result (λ text. string_bytes text ≡ spec.deadheads_text) }
{
    let mut text = String::from_str(alloc, "from,to,minutes\n")?;
    for pair in 0..64 {
        push_deadhead(&mut text, pair / 8, pair % 8)?;
    }
    Ok(text)
}
