ghost use Rattle.std.specs.Prelude.{◌≡◌, ℕ, ◌<◌, ◌++◌, length, All, IfOk, IsUtf8, OnOk, None, slice_index_or};
ghost use Rattle.std.specs.Option.{IfSome};
ghost use Rattle.gtfs_tables.specs.Writing.{record_text};
ghost use Rattle.trip_model.specs.Timetable.{number_of, slot_names};
ghost use Rattle.block_writer.specs.Fields.{with_field};
ghost use Rattle.block_writer.specs.Texts.{AreTexts};
ghost use Rattle.block_writer.specs.Trips as spec;

use crate::fields::text_of;
use block_build::{BlockNames, Blocks};
use desk_io::{Bytes, Memory};
use gtfs_tables::{Column, RecordWriter, Row, Table, place_of};
use std::alloc::Global;
use trip_model::Timetable;

// Gives the slots of a block its number, but those that have one.
fn number_block(numbers: &mut Vec<Option<usize>>, block: &[u16], number: usize)
    requires slots { All (λ s. s < length numbers.old.items) block.now }
    ensures count { length numbers.new.items ≡ length numbers.old.items }
    ensures numbers { (s : ℕ) → s < length numbers.old.items
        → slice_index_or numbers.new.items s None ≡ spec.numbered (slice_index_or numbers.old.items s None) (spec.is_in s block.now)
        number }
{
    for slot in block {
        let place = usize::from(*slot);
        if numbers[place].is_none() {
            numbers[place] = Some(number);
        }
    }
}

// For each slot the number of its block, counted from 0.
fn block_numbers(alloc: Global, slots: u16, blocks: &Blocks) -> Result<Vec<Option<usize>>, Memory>
    requires slots { All (All (λ s. s < slots)) blocks.now }
    ensures { IfOk result (λ numbers. numbers.items ≡ spec.block_numbers slots blocks.now) }
{
    let mut numbers = vec![in alloc; None; usize::from(slots)]?;
    for before in 0..blocks.len() {
        number_block(&mut numbers, blocks.block(before), before);
    }
    Ok(numbers)
}

// The name of the block of a selected trip; empty where it does not run.
fn block_of<'a>(
    timetable: &Timetable,
    numbers: &[Option<usize>],
    names: &'a BlockNames,
    trip: &str,
) -> &'a str
    requires numbers { length numbers.now ≡ length timetable.now.slots }
    requires named { All (λ number. IfSome number (λ number. number < length names.now)) numbers.now }
    ensures { result.now ≡ spec.block_of timetable.now numbers.now names.now (number_of (slot_names timetable.now) trip.now) }
{
    let Some(slot) = timetable.find(trip) else {
        return "";
    };
    if !timetable.trip(slot).live {
        return "";
    }
    match numbers[usize::from(slot)] {
        Some(number) => names.name(number),
        None => "",
    }
}

// Appends a record with another field in a column, which comes at its end where it is new.
fn push_with<'a>(
    alloc: Global,
    records: &mut RecordWriter,
    row: &'a Row,
    place: usize,
    field: &'a str,
) -> Result<(), Memory>
    ensures { OnOk result (records.new ≡ records.old ++ record_text (with_field row.now place field.now)) }
{
    let mut fields = row.fields(alloc)?;
    if place < row.len() {
        fields[place] = field.as_bytes();
        return records.push(&fields);
    }
    fields.push(field.as_bytes())?;
    records.push(&fields)
}

// Appends the header, with `block_id` at its end where it names no such column.
fn push_header(
    alloc: Global,
    records: &mut RecordWriter,
    header: &Row,
    block: usize,
) -> Result<(), Memory>
    ensures { OnOk result (records.new ≡ records.old ++ record_text (spec.header_written block header.now)) }
{
    if block < header.len() {
        return records.push_row(alloc, header);
    }
    push_with(alloc, records, header, block, Column::BlockId.name())
}

// Appends a record with the block of its trip, where it is selected.
fn push_trip(
    alloc: Global,
    records: &mut RecordWriter,
    timetable: &Timetable,
    numbers: &[Option<usize>],
    names: &BlockNames,
    row: &Row,
    trip: usize,
    block: usize,
    chosen: bool,
) -> Result<(), Memory>
    requires numbers { length numbers.now ≡ length timetable.now.slots }
    requires named { All (λ number. IfSome number (λ number. number < length names.now)) numbers.now }
    requires text { All IsUtf8 row.now }
    ensures { OnOk result (records.new ≡ records.old
        ++ record_text (spec.trip_written timetable.now numbers.now names.now trip block chosen row.now)) }
{
    if chosen {
        let name = block_of(timetable, numbers, names, text_of(row.field(trip)));
        return push_with(alloc, records, row, block, name);
    }
    push_with(alloc, records, row, block, text_of(row.field(block)))
}

/// The text of `trips_blocks.txt`: the records of `trips.txt` in their order, each with as many fields as the header. `chosen`
/// says of each whether it is selected. The column `block_id` is the first of that name, or a new one at the end. There a
/// selected record has the name of the block of its trip's slot, or nothing where its trip does not run. Any other record has
/// there what it had, and all other fields are as they were.
pub fn trips_text(
    alloc: Global,
    trips: &Table,
    timetable: &Timetable,
    chosen: &[bool],
    blocks: &Blocks,
    names: &BlockNames,
) -> Result<Bytes, Memory>
    requires texts { AreTexts trips.now }
    requires chosen { length chosen.now ≡ length trips.now.rows }
    requires slots { All (All (λ s. s < length timetable.now.slots)) blocks.now }
    requires named { length names.now ≡ length blocks.now }
    ensures { IfOk result (λ text. text ≡ spec.trips_written trips.now timetable.now chosen.now blocks.now names.now) }
{
    let header = trips.header();
    let trip = place_of(Column::TripId, header);
    let block = place_of(Column::BlockId, header);
    let numbers = block_numbers(alloc, timetable.slots(), blocks)?;
    let mut records = RecordWriter::new(alloc);
    push_header(alloc, &mut records, header, block)?;
    for before in 0..trips.records() {
        let row = trips.row(before + 1);
        push_trip(
            alloc,
            &mut records,
            timetable,
            &numbers,
            names,
            row,
            trip,
            block,
            chosen[before as usize],
        )?;
    }
    records.into_bytes()
}
