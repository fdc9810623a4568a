ghost use Rattle.std.specs.Prelude.{◌≡◌, ◌≤◌, length};
ghost use Rattle.gtfs_tables.specs.Papers.{IsWithinLimit};
ghost use Rattle.gtfs_tables.specs.Reading.{Gives};
ghost use Rattle.trip_model.specs.declared.limits.TheConstants.{MOST_SLOTS};
ghost use Rattle.claim_files.specs.Prices as spec;

use crate::running::running;
use desk_io::{Found, Text};
use gtfs_tables::{
    Column, FeedFault, Paper, RecordReader, Row, column_in, filled_in, number_in, read_records,
    text_in,
};
use price_check::{MOST_PRICE, PriceRow};
use std::alloc::Global;
use trip_model::{MOST_SLOTS, Timetable};

/// Where the required columns of `prices.csv` are.
#[derive(Clone, Copy)]
pub(crate) struct Columns {
    trip: usize,
    leave: usize,
    enter: usize,
}

// The trip of a record, by its name, and the prices of leaving it and of entering it.
#[tactic(auto, unfolding(crate::specs::Prices::prices_in))]
fn prices_in<'a>(
    row: &'a Row,
    columns: &Columns,
    number: u32,
) -> Result<(&'a str, u64, u64), FeedFault>
    ensures { Gives (λ prices. (prices.0.now, prices.1, prices.2)) result (spec.prices_in columns.now number row.now) }
{
    let paper = Paper::Prices;
    let trip = text_in(paper, number, Column::TripId, row.field(columns.trip))?;
    let leave = text_in(paper, number, Column::Leave, row.field(columns.leave))?;
    let enter = text_in(paper, number, Column::Enter, row.field(columns.enter))?;
    filled_in(paper, number, Column::TripId, trip)?;
    filled_in(paper, number, Column::Leave, leave)?;
    filled_in(paper, number, Column::Enter, enter)?;
    let leave = number_in(paper, number, Column::Leave, 12, MOST_PRICE, leave)?;
    let enter = number_in(paper, number, Column::Enter, 12, MOST_PRICE, enter)?;
    Ok((trip, leave, enter))
}

// The records that were read.
#[derive(Drop)]
struct Prices<'a> {
    alloc: Global,
    timetable: &'a Timetable,
    rows: Vec<PriceRow>,
}

impl<'a> RecordReader for Prices<'a> {
    ghost use Rattle.std.specs.Prelude.{List};
    ghost use Rattle.price_check.specs.declared.claim.PriceRow.{PriceRow};
    ghost use Rattle.claim_files.specs.Prices as spec;

    type Columns = Columns;

    ghost State = { List PriceRow };

    ghost state = { λ read. read.rows.items };

    ghost columns_in = { spec.columns_in };

    ghost step = { λ read. spec.with_prices read.timetable.now };

    #[tactic(auto, unfolding(crate::specs::Prices::columns_in))]
    fn columns(&self, header: &Row) -> Result<Columns, FeedFault> {
        let trip = column_in(Paper::Prices, Column::TripId, header)?;
        let leave = column_in(Paper::Prices, Column::Leave, header)?;
        let enter = column_in(Paper::Prices, Column::Enter, header)?;
        Ok(Columns { trip, leave, enter })
    }

    #[tactic(auto, unfolding(crate::specs::Prices::with_prices))]
    fn record(&mut self, columns: &Columns, number: u32, row: &Row) -> Result<(), FeedFault> {
        if self.rows.len() >= usize::from(MOST_SLOTS) {
            return Err(FeedFault::TooManyTrips(number));
        }
        let (trip, leave, enter) = prices_in(row, columns, number)?;
        let slot = running(self.timetable, trip);
        let trip = Text::of(self.alloc, trip)?;
        self.rows.push(PriceRow {
            trip,
            slot,
            leave,
            enter,
        })?;
        Ok(())
    }
}

/// The rows of `prices.csv`.
pub(crate) fn prices_of(
    alloc: Global,
    timetable: &Timetable,
    found: &Found,
) -> Result<Vec<PriceRow>, FeedFault>
    requires { IsWithinLimit found.now }
    ensures { Gives (λ rows. rows.items) result (spec.prices_of timetable.now found.now) }
{
    let none = Prices {
        alloc,
        timetable,
        rows: Vec::new(alloc),
    };
    let read = read_records(alloc, Paper::Prices, found, none)?;
    Ok(read.rows)
}
