ghost use Rattle.std.specs.Prelude.{◌≡◌};
ghost use Rattle.gtfs_tables.specs.Papers.{IsWithinLimit};
ghost use Rattle.gtfs_tables.specs.Reading.{Gives};
ghost use Rattle.desk_settings.specs.Tolerances as spec;

use crate::minutes::Tolerance;
use desk_io::Found;
use gtfs_tables::{
    Column, Entries, FeedFault, Paper, RecordReader, Row, column_in, filled_in, number_in,
    read_optional, text_in,
};
use std::alloc::Global;
use trip_model::MOST_TOLERANCE;

/// Where the required columns of `tolerances.csv` are.
#[derive(Clone, Copy)]
pub(crate) struct Columns {
    trip: usize,
    early: usize,
    late: usize,
}

// The trip and the tolerances of a record.
#[tactic(auto, unfolding(crate::specs::Tolerances::tolerance_in))]
fn tolerance_in<'a>(
    row: &'a Row,
    columns: &Columns,
    number: u32,
) -> Result<(&'a str, (Tolerance, Tolerance)), FeedFault>
    ensures { Gives (λ entry. (entry.0.now, entry.1)) result (spec.tolerance_in columns.now number row.now) }
{
    let paper = Paper::Tolerances;
    let most = u64::from(MOST_TOLERANCE);
    let trip = text_in(paper, number, Column::TripId, row.field(columns.trip))?;
    let early = text_in(paper, number, Column::Early, row.field(columns.early))?;
    let late = text_in(paper, number, Column::Late, row.field(columns.late))?;
    filled_in(paper, number, Column::TripId, trip)?;
    filled_in(paper, number, Column::Early, early)?;
    filled_in(paper, number, Column::Late, late)?;
    let early = number_in(paper, number, Column::Early, 2, most, early)?;
    let late = number_in(paper, number, Column::Late, 2, most, late)?;
    let tolerances = (Tolerance::of(early as u16), Tolerance::of(late as u16));
    Ok((trip, tolerances))
}

// The tolerances of the records that were read.
#[derive(Drop)]
struct Tolerances {
    entries: Entries<(Tolerance, Tolerance)>,
}

impl RecordReader for Tolerances {
    ghost use Rattle.std.specs.Prelude.{ℕ};
    ghost use Rattle.gtfs_tables.specs.Entries.{Entries};
    ghost use Rattle.desk_settings.specs.Tolerances as spec;

    type Columns = Columns;

    ghost State = { Entries (ℕ × ℕ) };

    ghost state = { λ read. read.entries };

    ghost columns_in = { spec.columns_in };

    ghost step = { λ _. spec.with_tolerance };

    #[tactic(auto, unfolding(crate::specs::Tolerances::columns_in))]
    fn columns(&self, header: &Row) -> Result<Columns, FeedFault> {
        let trip = column_in(Paper::Tolerances, Column::TripId, header)?;
        let early = column_in(Paper::Tolerances, Column::Early, header)?;
        let late = column_in(Paper::Tolerances, Column::Late, header)?;
        Ok(Columns { trip, early, late })
    }

    fn record(&mut self, columns: &Columns, number: u32, row: &Row) -> Result<(), FeedFault> {
        let (trip, tolerances) = tolerance_in(row, columns, number)?;
        self.entries
            .add_record(Paper::Tolerances, number, trip, tolerances)
    }
}

/// The tolerances that the file gives trips; none where it is not there.
pub(crate) fn tolerances_of(
    alloc: Global,
    found: &Found,
) -> Result<Entries<(Tolerance, Tolerance)>, FeedFault>
    requires { IsWithinLimit found.now }
    ensures { Gives (λ entries. entries) result (spec.tolerances_of found.now) }
{
    let entries = Entries::new(alloc);
    let read = read_optional(alloc, Paper::Tolerances, found, Tolerances { entries })?;
    Ok(read.entries)
}
