ghost use Rattle.std.specs.Prelude.{◌≡◌, ◌<◌, ◌++◌, [], ◌∷◌, length, slice_index_or, All, IfOk, IsUtf8, OnOk};
ghost use Rattle.gtfs_tables.specs.Writing.{record_text, records_text};
ghost use Rattle.block_build.specs.Files as spec;
ghost use Rattle.block_build.specs.Names.{block_name};

use crate::{NamedBlocks, SlotPrices};
use deadhead_matrix::Matrix;
use desk_io::{Memory, Text};
use gtfs_tables::laws::written_text_law;
use gtfs_tables::{Column, RecordWriter};
use std::alloc::Global;
use trip_model::Timetable;

// Appends a record of three texts. What is text stays so.
fn push_record(
    records: &mut RecordWriter,
    first: &str,
    second: &str,
    third: &str,
) -> Result<(), Memory>
    ensures written { OnOk result (records.new ≡ records.old ++ record_text (first.now ∷ second.now ∷ third.now ∷ [])) }
    ensures text { OnOk result (IsUtf8 records.old → IsUtf8 records.new) }
{
    written_text_law();
    records.push(&[first.as_bytes(), second.as_bytes(), third.as_bytes()])
}

// The empty minutes before the trip of a number in a block: out of the depot, or from the trip before.
fn minutes_before(timetable: &Timetable, matrix: &Matrix, block: &[u16], n: usize) -> u32
    requires n { n < length block.now }
    requires slots { All (λ s. s < length timetable.now.slots) block.now }
    requires places { length matrix.now.walks ≡ length timetable.now.places }
    ensures { result ≡ spec.minutes_before timetable.now matrix.now block.now n }
{
    let from = timetable.trip(block[n]).from;
    if n == 0 {
        return u32::from(matrix.pull_out(from));
    }
    let to = timetable.trip(block[n - 1]).to;
    matrix.minutes(to, from).unwrap_or(0)
}

// The records of the block of a number, counted from 0, trip by trip.
fn push_block(
    alloc: Global,
    records: &mut RecordWriter,
    named: &NamedBlocks<'_>,
    number: usize,
) -> Result<(), Memory>
    requires { number < length named.now.blocks.now }
    ensures written { OnOk result (records.new ≡ records.old
        ++ records_text (spec.records_of_block named.now.timetable.now named.now.matrix.now (block_name named.now.names.now number)
        (slice_index_or named.now.blocks.now number []))) }
    ensures text { OnOk result (IsUtf8 records.old → IsUtf8 records.new) }
{
    let block = named.block(number);
    let name = named.name(number);
    for n in 0..block.len() {
        let trip = named.timetable.name(block[n]);
        let minutes = minutes_before(named.timetable, named.matrix, block, n);
        let minutes = format!(in alloc; "{minutes}")?;
        push_record(records, name, trip, &minutes)?;
    }
    Ok(())
}

/// The text of `blocks.csv`. For each trip, block by block, it has the name of its block, its own name and the empty minutes
/// before it. For the first trip of a block these are the minutes out of the depot, for every other those from the trip before.
/// Where there is no way from the trip before it has none.
pub fn blocks_text(alloc: Global, named: &NamedBlocks<'_>) -> Result<Text, Memory>
    ensures { IfOk result (λ text. text ≡ spec.blocks_text named.now.timetable.now named.now.matrix.now named.now.names.now
        named.now.blocks.now) }
{
    let mut records = RecordWriter::new(alloc);
    push_record(
        &mut records,
        Column::BlockId.name(),
        Column::TripId.name(),
        Column::Deadhead.name(),
    )?;
    for number in 0..named.blocks.len() {
        push_block(alloc, &mut records, named, number)?;
    }
    records.into_text()
}

// The record of a slot, where its trip runs.
fn push_prices(
    alloc: Global,
    records: &mut RecordWriter,
    prices: &SlotPrices<'_>,
    slot: u16,
) -> Result<(), Memory>
    requires { slot < length prices.now.timetable.now.slots }
    ensures written { OnOk result (records.new ≡ records.old
        ++ records_text (spec.price_record prices.now.timetable.now prices.now.leave.now prices.now.enter.now slot)) }
    ensures text { OnOk result (IsUtf8 records.old → IsUtf8 records.new) }
{
    let timetable = prices.timetable;
    if !timetable.trip(slot).live {
        return Ok(());
    }
    let leaving = format!(in alloc; "{}", prices.leave[usize::from(slot)])?;
    let entering = format!(in alloc; "{}", prices.enter[usize::from(slot)])?;
    push_record(records, timetable.name(slot), &leaving, &entering)
}

/// The text of `prices.csv`: for each trip that runs, slot by slot, its name, the price of leaving it and that of entering it.
pub fn prices_text(alloc: Global, prices: &SlotPrices<'_>) -> Result<Text, Memory>
    ensures { IfOk result (λ text. text ≡ spec.prices_text prices.now.timetable.now prices.now.leave.now prices.now.enter.now) }
{
    let mut records = RecordWriter::new(alloc);
    push_record(
        &mut records,
        Column::TripId.name(),
        Column::Leave.name(),
        Column::Enter.name(),
    )?;
    for slot in 0..prices.timetable.slots() {
        push_prices(alloc, &mut records, prices, slot)?;
    }
    records.into_text()
}
