ghost use Rattle.std.specs.Prelude.{◌≡◌, ◌≢◌, ◌<◌, ◌≤◌, ◌++◌, false, true, All, Err, IfErr, IfOk, IsUtf8, OnOk, Some};
ghost use Rattle.std.specs.Prelude.{length, map, slice_set};
ghost use Rattle.std.specs.Cow.{cow_value};
ghost use Rattle.std.proofs.Props.{props};
ghost use Rattle.gtfs_tables.specs.declared.fault.FeedFault.{FeedFault};
ghost use Rattle.gtfs_tables.specs.declared.paper.Paper.{Paper};
ghost use Rattle.gtfs_tables.specs.Papers.{IsWithinLimit};
ghost use Rattle.gtfs_tables.specs.Reading.{table_in};
ghost use Rattle.gtfs_tables.specs.Writing.{record_text};
ghost use Rattle.gtfs_tables.specs.declared.times.TheConstants.{LAST_SECOND};
ghost use Rattle.trip_model.specs.Timetable.{number_of, slot_names};
ghost use Rattle.block_writer.specs.Texts.{IsRefusedPaper, IsTextPaper};
ghost use Rattle.block_writer.specs.Fields.{slot_in};
ghost use Rattle.block_writer.specs.StopTimes as spec;
ghost use Rattle.block_writer.specs.StopTimes.{MovesNone, MovesSome};

use crate::fields::text_of;
use crate::plain::plain_bytes;
use crate::texts::judge_texts;
use desk_io::{Bytes, Found, Memory, Text};
use gtfs_tables::{
    Column, FeedFault, Paper, RecordReader, RecordWriter, Row, place_of, read_header, read_records,
    read_time,
};
use std::alloc::Global;
use std::borrow::Cow;
use trip_model::Timetable;

/// The columns of `stop_times.txt` that are known by their names.
const STOP_TIME_COLUMNS: [Column; 5] = [
    Column::TripId,
    Column::ArrivalTime,
    Column::DepartureTime,
    Column::StopId,
    Column::StopSequence,
];

// A second of the service day moved by so many minutes, and not below midnight.
fn moved(offset: i8, seconds: u32) -> u32
    requires { seconds ≤ LAST_SECOND }
    ensures value { result ≡ spec.moved offset seconds }
{
    let by = 60 * u32::from(offset.unsigned_abs());
    if offset < 0 {
        seconds.saturating_sub(by)
    } else {
        seconds + by
    }
}

// A second of the service day as `HH:MM:SS`, with hours in at least two digits.
fn time_text(alloc: Global, seconds: u32) -> Result<Text, Memory>
    ensures { IfOk result (λ text. text ≡ spec.time_digits seconds) }
{
    let hours = seconds / 3600;
    let minutes = seconds / 60 % 60;
    let rest = seconds % 60;
    Ok(Text::wrap(format!(in alloc; "{hours:02}:{minutes:02}:{rest:02}")?))
}

// The moved time of a field; a field without a time stays as it is.
fn moved_field(alloc: Global, offset: i8, field: &str) -> Result<Text, Memory>
    ensures { IfOk result (λ text. text ≡ spec.moved_field offset field.now) }
{
    match read_time(field) {
        Some(seconds) => time_text(alloc, moved(offset, seconds)),
        None => Text::of(alloc, field),
    }
}

// By how many minutes the rows of the trip in a slot are moved.
fn offset_at(timetable: &Timetable, base: u16, slot: u16) -> i8
    requires { slot < length timetable.now.slots }
    ensures { result ≡ spec.offset_of timetable.now base (Some slot) }
{
    let trip = timetable.trip(slot);
    if slot < base && trip.live {
        trip.offset
    } else {
        0
    }
}

// Whether the rows of some trip are moved.
fn moves_some(timetable: &Timetable, base: u16) -> bool
    ensures none { result ≡ false → MovesNone timetable.now base }
    ensures some { result ≡ true → MovesSome timetable.now base }
{
    for slot in 0..timetable.slots() {
        if offset_at(timetable, base, slot) != 0 {
            return true;
        }
    }
    false
}

// By how many minutes the rows of a trip of that name are moved.
fn offset_of(timetable: &Timetable, base: u16, trip: &str) -> i8
    ensures { result ≡ spec.offset_of timetable.now base (number_of (slot_names timetable.now) trip.now) }
{
    match timetable.find(trip) {
        Some(slot) => offset_at(timetable, base, slot),
        None => 0,
    }
}

// By how many minutes a row is moved. Where no rows are, its trip is not looked up.
fn offset_for(timetable: &Timetable, base: u16, some: bool, row: &Row, trip: usize) -> i8
    requires texts { All IsUtf8 row.now }
    requires none { some ≡ false → MovesNone timetable.now base }
    ensures { result ≡ spec.offset_of timetable.now base (slot_in timetable.now trip row.now) }
{
    if !some {
        return 0;
    }
    offset_of(timetable, base, text_of(row.field(trip)))
}

// Puts another field into a column, where there is such a column.
fn put_field<'a>(fields: &mut Vec<&'a [u8]>, place: usize, field: &'a str)
    ensures { map (λ field. field.now) fields.new.items ≡ slice_set (map (λ field. field.now) fields.old.items) place field.now }
{
    if place < fields.len() {
        fields[place] = field.as_bytes();
    }
}

// Appends a record with other fields in two columns, where it has them.
fn push_with<'a>(
    alloc: Global,
    records: &mut RecordWriter,
    row: &'a Row,
    first: usize,
    arrives: &'a str,
    second: usize,
    departs: &'a str,
) -> Result<(), Memory>
    ensures { OnOk result (records.new ≡ records.old ++ record_text (slice_set (slice_set row.now first arrives.now) second departs.now)) }
{
    let mut fields = row.fields(alloc)?;
    put_field(&mut fields, first, arrives);
    put_field(&mut fields, second, departs);
    records.push(&fields)
}

// Appends a record with the times of two columns moved.
fn push_moved(
    alloc: Global,
    records: &mut RecordWriter,
    row: &Row,
    arrival: usize,
    departure: usize,
    offset: i8,
) -> Result<(), Memory>
    requires { All IsUtf8 row.now }
    ensures { OnOk result (records.new ≡ records.old ++ record_text (spec.moved_row offset arrival departure row.now)) }
{
    let arrives = moved_field(alloc, offset, text_of(row.field(arrival)))?;
    let departs = moved_field(alloc, offset, text_of(row.field(departure)))?;
    push_with(
        alloc,
        records,
        row,
        arrival,
        arrives.as_str(),
        departure,
        departs.as_str(),
    )
}

// Appends a record with its times moved, or as it came where its trip is not shifted.
fn push_by(
    alloc: Global,
    records: &mut RecordWriter,
    row: &Row,
    arrival: usize,
    departure: usize,
    offset: i8,
) -> Result<(), Memory>
    requires { All IsUtf8 row.now }
    ensures { OnOk result (records.new ≡ records.old ++ record_text (spec.moved_by offset arrival departure row.now)) }
{
    if offset == 0 {
        return records.push_row(alloc, row);
    }
    push_moved(alloc, records, row, arrival, departure, offset)
}

/// Where the columns of a stop time are that is written again.
#[derive(Clone, Copy)]
pub(crate) struct Columns {
    trip: usize,
    arrival: usize,
    departure: usize,
}

// Appends the record of a stop time, with its times moved where its trip is shifted.
fn push_stop_time(
    alloc: Global,
    records: &mut RecordWriter,
    timetable: &Timetable,
    base: u16,
    some: bool,
    columns: &Columns,
    row: &Row,
) -> Result<(), Memory>
    requires texts { All IsUtf8 row.now }
    requires none { some ≡ false → MovesNone timetable.now base }
    ensures { OnOk result (records.new ≡ records.old
        ++ record_text (spec.stop_time_written timetable.now base columns.now.trip columns.now.arrival columns.now.departure row.now)) }
{
    let offset = offset_for(timetable, base, some, row, columns.trip);
    push_by(
        alloc,
        records,
        row,
        columns.arrival,
        columns.departure,
        offset,
    )
}

// The text of the header and of the records that were read. It is known whether rows of some trip are moved.
#[derive(Drop)]
struct StopTimes<'a> {
    alloc: Global,
    timetable: &'a Timetable,
    base: u16,
    some: bool,
    header: &'a Row,
    records: RecordWriter,
    ghost none: { some ≡ false → MovesNone timetable.now base } by { Prim.hlevel props },
}

impl<'a> RecordReader for StopTimes<'a> {
    ghost use Rattle.std.specs.Prelude.{List, ℕ};
    ghost use Rattle.block_writer.specs.StopTimes.{columns_in, with_stop_time};

    type Columns = Columns;

    ghost State = { List ℕ };

    ghost state = { λ written. written.records };

    ghost columns_in = { columns_in };

    ghost step = { λ written. with_stop_time
        (record { timetable = written.timetable.now; base = written.base; header = written.header.now }) };

    #[tactic(auto, unfolding(crate::specs::StopTimes::columns_in))]
    fn columns(&self, header: &Row) -> Result<Columns, FeedFault> {
        judge_texts(Paper::StopTimes, &STOP_TIME_COLUMNS, header, 0, header)?;
        Ok(Columns {
            trip: place_of(Column::TripId, header),
            arrival: place_of(Column::ArrivalTime, header),
            departure: place_of(Column::DepartureTime, header),
        })
    }

    fn record(&mut self, columns: &Columns, number: u32, row: &Row) -> Result<(), FeedFault> {
        judge_texts(
            Paper::StopTimes,
            &STOP_TIME_COLUMNS,
            self.header,
            number,
            row,
        )?;
        push_stop_time(
            self.alloc,
            &mut self.records,
            self.timetable,
            self.base,
            self.some,
            columns,
            row,
        )?;
        Ok(())
    }
}

/// The text of `stop_times_blocks.txt`, made in one pass over `stop_times.txt` that keeps no record. It has the records in
/// their order, each with as many fields as the header. Times of arrival and departure are moved where a trip in one of the
/// first `base` slots runs and is shifted. They are moved by its offset, and not below midnight. A field without a time stays
/// as it is. All other fields are as they were. All fields must be UTF-8, and the first that is not is refused. Where no trip
/// is shifted and the file is plain, its text is its bytes, and they are lent.
pub fn stop_times_text<'a>(
    alloc: Global,
    found: &'a Found,
    timetable: &Timetable,
    base: u16,
) -> Result<Cow<'a, Bytes>, FeedFault>
    requires { IsWithinLimit found.now }
    ensures written { IfOk result (λ text. IsTextPaper (λ table. cow_value text ≡ spec.stop_times_written table timetable.now base)
        (table_in Paper.StopTimes found.now)) }
    ensures refused { IfErr result (λ refused. refused ≢ FeedFault.Memory
        → IsRefusedPaper Paper.StopTimes spec.stop_time_columns (table_in Paper.StopTimes found.now) refused) }
{
    let header = read_header(alloc, Paper::StopTimes, found)?;
    let some = moves_some(timetable, base);
    if !some {
        if let Some(bytes) = plain_bytes(header.len(), found) {
            return Ok(Cow::Borrowed(bytes));
        }
    }
    let mut records = RecordWriter::new(alloc);
    records.push_row(alloc, &header)?;
    let begun = StopTimes {
        alloc,
        timetable,
        base,
        some,
        header: &header,
        records,
    };
    let written = read_records(alloc, Paper::StopTimes, found, begun)?;
    Ok(Cow::Owned(written.records.into_bytes()?))
}
