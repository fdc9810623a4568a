ghost use Rattle.std.specs.Prelude.{◌≡◌, ◌≤◌, IfOk, length};
ghost use Rattle.gtfs_tables.specs.Papers.{IsWithinLimit};
ghost use Rattle.gtfs_tables.specs.Reading.{Gives};
ghost use Rattle.trip_model.specs.declared.limits.TheConstants.{MOST_SLOTS};
ghost use Rattle.claim_files.specs.Blocks as spec;

use crate::running::running;
use desk_io::{Found, Text};
use desk_settings::Names;
use gtfs_tables::{
    Column, FeedFault, Paper, RecordReader, Row, column_in, filled_in, number_in, read_records,
    text_in,
};
use price_check::BlockRow;
use std::alloc::Global;
use trip_model::{MOST_SLOTS, Timetable};

/// The most empty minutes that a record may show, of 6 digits.
pub const MOST_SHOWN: u32 = 999_999;

/// Where the required columns of `blocks.csv` are.
#[derive(Clone, Copy)]
pub(crate) struct Columns {
    block: usize,
    trip: usize,
    deadhead: usize,
}

// The block and the trip of a record, by their names, and the empty minutes that it shows.
#[tactic(auto, unfolding(crate::specs::Blocks::trip_in))]
fn trip_in<'a>(
    row: &'a Row,
    columns: &Columns,
    number: u32,
) -> Result<(&'a str, &'a str, u32), FeedFault>
    ensures { Gives (λ trip. (trip.0.now, trip.1.now, trip.2)) result (spec.trip_in columns.now number row.now) }
{
    let paper = Paper::Blocks;
    let most = u64::from(MOST_SHOWN);
    let block = text_in(paper, number, Column::BlockId, row.field(columns.block))?;
    let trip = text_in(paper, number, Column::TripId, row.field(columns.trip))?;
    let minutes = text_in(paper, number, Column::Deadhead, row.field(columns.deadhead))?;
    filled_in(paper, number, Column::BlockId, block)?;
    filled_in(paper, number, Column::TripId, trip)?;
    filled_in(paper, number, Column::Deadhead, minutes)?;
    let deadhead = number_in(paper, number, Column::Deadhead, 6, most, minutes)? as u32;
    Ok((block, trip, deadhead))
}

// The number of the block of a record after blocks of these names: the last goes on, and any other name must be new.
fn block_number(names: &Names, number: u32, name: &str) -> Result<usize, FeedFault>
    ensures gives { Gives (λ block. block) result (spec.block_number number names.now name.now) }
    ensures within { IfOk result (λ block. block ≤ length names.now) }
{
    let blocks = names.len();
    match names.number(name.as_bytes()) {
        None => Ok(blocks),
        Some(block) if block + 1 == blocks => Ok(block),
        Some(_) => Err(FeedFault::DuplicateRow(Paper::Blocks, number)),
    }
}

// The records that were read.
#[derive(Drop)]
struct Blocks<'a> {
    alloc: Global,
    timetable: &'a Timetable,
    names: Names,
    rows: Vec<BlockRow>,
    ghost few: { length rows.items ≤ MOST_SLOTS },
    ghost filled: { length names ≤ length rows.items },
}

impl<'a> RecordReader for Blocks<'a> {
    ghost use Rattle.claim_files.specs.Blocks as spec;

    type Columns = Columns;

    ghost State = { spec.BlocksRead };

    ghost state = { λ read. record { names = read.names; rows = read.rows.items } };

    ghost columns_in = { spec.columns_in };

    ghost step = { λ read. spec.with_trip read.timetable.now };

    #[tactic(auto, unfolding(crate::specs::Blocks::columns_in))]
    fn columns(&self, header: &Row) -> Result<Columns, FeedFault> {
        let block = column_in(Paper::Blocks, Column::BlockId, header)?;
        let trip = column_in(Paper::Blocks, Column::TripId, header)?;
        let deadhead = column_in(Paper::Blocks, Column::Deadhead, header)?;
        Ok(Columns {
            block,
            trip,
            deadhead,
        })
    }

    #[tactic(auto, unfolding(crate::specs::Blocks::with_trip))]
    fn record(&mut self, columns: &Columns, number: u32, row: &Row) -> Result<(), FeedFault> {
        if self.rows.len() >= usize::from(MOST_SLOTS) {
            return Err(FeedFault::TooManyTrips(number));
        }
        let (block, trip, deadhead) = trip_in(row, columns, number)?;
        let slot = running(self.timetable, trip);
        let trip = Text::of(self.alloc, trip)?;
        let at = block_number(&self.names, number, block)?;
        self.rows.push(BlockRow {
            block: at as u32,
            trip,
            slot,
            deadhead,
        })?;
        self.names.add(block)?;
        Ok(())
    }
}

/// The rows of `blocks.csv`.
pub(crate) fn blocks_of(
    alloc: Global,
    timetable: &Timetable,
    found: &Found,
) -> Result<Vec<BlockRow>, FeedFault>
    requires { IsWithinLimit found.now }
    ensures { Gives (λ rows. rows.items) result (spec.rows_of timetable.now found.now) }
{
    let none = Blocks {
        alloc,
        timetable,
        names: Names::new(alloc),
        rows: Vec::new(alloc),
    };
    let read = read_records(alloc, Paper::Blocks, found, none)?;
    Ok(read.rows)
}
