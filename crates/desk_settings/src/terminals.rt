ghost use Rattle.std.specs.Prelude.{◌≡◌};
ghost use Rattle.gtfs_tables.specs.Papers.{IsWithinLimit};
ghost use Rattle.gtfs_tables.specs.Reading.{Gives};
ghost use Rattle.desk_settings.specs.Terminals as spec;

use desk_io::{Found, Text};
use gtfs_tables::{
    Column, Entries, FeedFault, Paper, RecordReader, Row, column_in, filled_in, read_optional,
    text_in,
};
use std::alloc::Global;

/// Where the required columns of `terminals.csv` are.
#[derive(Clone, Copy)]
pub(crate) struct Columns {
    stop: usize,
    terminal: usize,
}

// The stop and the terminal of a record.
#[tactic(auto, unfolding(crate::specs::Terminals::terminal_in))]
fn terminal_in<'a>(
    row: &'a Row,
    columns: &Columns,
    number: u32,
) -> Result<(&'a str, &'a str), FeedFault>
    ensures { Gives (λ entry. (entry.0.now, entry.1.now)) result (spec.terminal_in columns.now number row.now) }
{
    let paper = Paper::Terminals;
    let stop = text_in(paper, number, Column::StopId, row.field(columns.stop))?;
    let terminal = text_in(paper, number, Column::Terminal, row.field(columns.terminal))?;
    filled_in(paper, number, Column::StopId, stop)?;
    filled_in(paper, number, Column::Terminal, terminal)?;
    Ok((stop, terminal))
}

// The terminals of the records that were read.
#[derive(Drop)]
struct Terminals {
    alloc: Global,
    entries: Entries<Text>,
}

impl RecordReader for Terminals {
    ghost use Rattle.gtfs_tables.specs.Entries.{Entries, Name};
    ghost use Rattle.desk_settings.specs.Terminals as spec;

    type Columns = Columns;

    ghost State = { Entries Name };

    ghost state = { λ read. read.entries };

    ghost columns_in = { spec.columns_in };

    ghost step = { λ _. spec.with_terminal };

    #[tactic(auto, unfolding(crate::specs::Terminals::columns_in))]
    fn columns(&self, header: &Row) -> Result<Columns, FeedFault> {
        let stop = column_in(Paper::Terminals, Column::StopId, header)?;
        let terminal = column_in(Paper::Terminals, Column::Terminal, header)?;
        Ok(Columns { stop, terminal })
    }

    fn record(&mut self, columns: &Columns, number: u32, row: &Row) -> Result<(), FeedFault> {
        let (stop, terminal) = terminal_in(row, columns, number)?;
        let terminal = Text::of(self.alloc, terminal)?;
        self.entries
            .add_record(Paper::Terminals, number, stop, terminal)
    }
}

/// The terminals that the file names for stops; none where it is not there.
pub(crate) fn terminals_of(alloc: Global, found: &Found) -> Result<Entries<Text>, FeedFault>
    requires { IsWithinLimit found.now }
    ensures { Gives (λ entries. entries) result (spec.terminals_of found.now) }
{
    let entries = Entries::new(alloc);
    let read = read_optional(alloc, Paper::Terminals, found, Terminals { alloc, entries })?;
    Ok(read.entries)
}
