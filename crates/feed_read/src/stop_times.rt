ghost use Rattle.std.specs.Prelude.{◌≡◌, ◌<◌, true, IfOk, IsAscii, OnOk, length, map, slice_index_or, slice_set};
ghost use Rattle.gtfs_tables.specs.Papers.{IsWithinLimit};
ghost use Rattle.gtfs_tables.specs.declared.paper.Column.{Column};
ghost use Rattle.gtfs_tables.specs.declared.paper.Paper.{Paper};
ghost use Rattle.gtfs_tables.specs.Reading as reading;
ghost use Rattle.gtfs_tables.specs.Reading.{Gives};
ghost use Rattle.feed_read.specs.Kept.{nothing_kept, trip_ends_seen, with_kept, Keeps};
ghost use Rattle.feed_read.specs.StopTimes as spec;
ghost use Rattle.feed_read.specs.StopTimes.{seen};

use crate::stop_time::StopTime;
use crate::trip_ends::{TripEnds, no_trip_ends};
use desk_io::{Found, Memory};
use desk_settings::Names;
use gtfs_tables::{
    Column, FeedFault, Paper, RecordReader, Row, column_in, filled_in, number_in, read_records,
    text_in, time_in,
};
use std::alloc::Global;

/// Where the required columns of `stop_times.txt` are.
#[derive(Clone, Copy)]
pub(crate) struct Columns {
    pub(crate) trip: usize,
    pub(crate) arrival: usize,
    pub(crate) departure: usize,
    pub(crate) stop: usize,
    pub(crate) sequence: usize,
}

// Whether all bytes of a name are ASCII. Names are short, and a plain loop over one is faster than a call.
fn is_ascii(name: &[u8]) -> bool
    ensures { result ≡ true → IsAscii name.now }
{
    for byte in name {
        if *byte >= 128 {
            return false;
        }
    }
    true
}

// Refuses the record of a trip whose name is not UTF-8.
fn judge_name(number: u32, name: &[u8]) -> Result<(), FeedFault>
    ensures { Gives (λ _. name.now) result (reading.text_in Paper.StopTimes number Column.TripId name.now) }
{
    if is_ascii(name) {
        return Ok(());
    }
    match str::from_utf8(name) {
        Ok(_) => Ok(()),
        Err(_) => Err(FeedFault::NotUtf8(Paper::StopTimes, number, Column::TripId)),
    }
}

// The record of the trip of a slot.
#[tactic(auto, unfolding(crate::specs::StopTimes::stop_time_in))]
fn stop_time_in<'a>(
    row: &'a Row,
    columns: &Columns,
    number: u32,
    trip: usize,
) -> Result<StopTime<'a>, FeedFault>
    ensures gives { Gives spec.seen result (spec.stop_time_in columns.now number trip row.now) }
    ensures trip { IfOk result (λ stop_time. stop_time.trip ≡ trip) }
{
    let paper = Paper::StopTimes;
    let arrival = text_in(
        paper,
        number,
        Column::ArrivalTime,
        row.field(columns.arrival),
    )?;
    let departure = text_in(
        paper,
        number,
        Column::DepartureTime,
        row.field(columns.departure),
    )?;
    let stop = text_in(paper, number, Column::StopId, row.field(columns.stop))?;
    let sequence = text_in(
        paper,
        number,
        Column::StopSequence,
        row.field(columns.sequence),
    )?;
    filled_in(paper, number, Column::StopId, stop)?;
    filled_in(paper, number, Column::StopSequence, sequence)?;
    let sequence = number_in(
        paper,
        number,
        Column::StopSequence,
        9,
        999_999_999,
        sequence,
    )?;
    let arrival = time_in(paper, number, Column::ArrivalTime, arrival)?;
    let departure = time_in(paper, number, Column::DepartureTime, departure)?;
    Ok(StopTime {
        trip,
        stop,
        arrival,
        departure,
        sequence,
    })
}

// Keeps the stop time of a trip at its slot.
fn keep(alloc: Global, trip_ends: &mut [TripEnds], stop_time: &StopTime) -> Result<(), Memory>
    requires { stop_time.now.trip < length trip_ends.old }
    ensures kept { OnOk result (map trip_ends_seen trip_ends.new ≡ slice_set (map trip_ends_seen trip_ends.old) stop_time.now.trip
        (with_kept (slice_index_or (map trip_ends_seen trip_ends.old) stop_time.now.trip nothing_kept) (seen stop_time.now))) }
    ensures count { length trip_ends.new ≡ length trip_ends.old }
{
    trip_ends[stop_time.trip].add(alloc, stop_time)
}

// What the records that were read leave of each trip, by its slot.
#[derive(Drop)]
struct StopTimes<'a> {
    alloc: Global,
    names: &'a Names,
    trip_ends: Vec<TripEnds>,
    ghost count: { length trip_ends.items ≡ length names.now },
}

impl<'a> RecordReader for StopTimes<'a> {
    ghost use Rattle.std.specs.Prelude.{ℕ, List, map};
    ghost use Rattle.feed_read.specs.Kept.{Kept, trip_ends_seen, with_record_kept};
    ghost use Rattle.feed_read.specs.StopTimes.{columns_in};

    type Columns = Columns;

    ghost State = { List Kept };

    ghost state = { λ read. map trip_ends_seen read.trip_ends.items };

    ghost columns_in = { columns_in };

    ghost step = { λ read. with_record_kept read.names.now };

    #[tactic(auto, unfolding(crate::specs::StopTimes::columns_in))]
    fn columns(&self, header: &Row) -> Result<Columns, FeedFault> {
        let trip = column_in(Paper::StopTimes, Column::TripId, header)?;
        let arrival = column_in(Paper::StopTimes, Column::ArrivalTime, header)?;
        let departure = column_in(Paper::StopTimes, Column::DepartureTime, header)?;
        let stop = column_in(Paper::StopTimes, Column::StopId, header)?;
        let sequence = column_in(Paper::StopTimes, Column::StopSequence, header)?;
        Ok(Columns {
            trip,
            arrival,
            departure,
            stop,
            sequence,
        })
    }

    #[tactic(auto, unfolding(crate::specs::Kept::with_record_kept))]
    fn record(&mut self, columns: &Columns, number: u32, row: &Row) -> Result<(), FeedFault> {
        let name = row.field(columns.trip);
        judge_name(number, name)?;
        let Some(trip) = self.names.number(name) else {
            return Ok(());
        };
        let stop_time = stop_time_in(row, columns, number, trip)?;
        keep(self.alloc, &mut self.trip_ends, &stop_time)?;
        Ok(())
    }
}

/// What the file leaves of the stop times of each of the trips of these names.
pub(crate) fn trip_ends_in(
    alloc: Global,
    names: &Names,
    found: &Found,
) -> Result<Vec<TripEnds>, FeedFault>
    requires { IsWithinLimit found.now }
    ensures keeps { Keeps (λ trip_ends. trip_ends.items) result (spec.stop_times_for names.now found.now) }
    ensures count { IfOk result (λ trip_ends. length trip_ends.items ≡ length names.now) }
{
    let none = StopTimes {
        alloc,
        names,
        trip_ends: no_trip_ends(alloc, names.len())?,
    };
    let read = read_records(alloc, Paper::StopTimes, found, none)?;
    Ok(read.trip_ends)
}
