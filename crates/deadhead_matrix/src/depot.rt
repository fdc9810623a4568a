ghost use Rattle.std.specs.Prelude.{◌≡◌, ◌≤◌, IfOk, IfSome};
ghost use Rattle.gtfs_tables.specs.Entries.{value_of, with_record};
ghost use Rattle.gtfs_tables.specs.Papers.{IsWithinLimit};
ghost use Rattle.gtfs_tables.specs.Reading.{Gives};
ghost use Rattle.assignment_model.specs.declared.limits.TheConstants.{MOST_DEADHEAD};
ghost use Rattle.deadhead_matrix.specs.Depot as spec;
ghost use Rattle.deadhead_matrix.specs.Pulls.{IsPull};

use crate::pulls::{NO_PULL, Pull};
use assignment_model::MOST_DEADHEAD;
use desk_io::Found;
use gtfs_tables::{
    Column, Entries, FeedFault, Paper, RecordReader, Row, column_in, filled_in, number_in,
    read_optional, text_in,
};
use std::alloc::Global;
use std::marker::Model;

/// Where the required columns of `depot.csv` are.
#[derive(Clone, Copy)]
pub(crate) struct Columns {
    terminal: usize,
    pull_out: usize,
    pull_in: usize,
}

// The minutes of a pull, at most 1,440.
fn minutes_in(number: u32, column: Column, text: &str) -> Result<u16, FeedFault>
    ensures gives { Gives (λ minutes. minutes) result (spec.minutes_in number column text.now) }
    ensures short { IfOk result (λ minutes. minutes ≤ MOST_DEADHEAD) }
{
    let most = u64::from(MOST_DEADHEAD);
    Ok(number_in(Paper::Depot, number, column, 4, most, text)? as u16)
}

// The terminal of a record and its pulls.
#[tactic(auto, unfolding(crate::specs::Depot::depot_row_in))]
fn depot_row_in<'a>(
    row: &'a Row,
    columns: &Columns,
    number: u32,
) -> Result<(&'a str, Pull), FeedFault>
    ensures gives { Gives (λ row. (row.0.now, row.1)) result (spec.depot_row_in columns.now number row.now) }
    ensures valid { IfOk result (λ row. IsPull row.1) }
{
    let paper = Paper::Depot;
    let terminal = text_in(paper, number, Column::Terminal, row.field(columns.terminal))?;
    let pull_out = text_in(paper, number, Column::PullOut, row.field(columns.pull_out))?;
    let pull_in = text_in(paper, number, Column::PullIn, row.field(columns.pull_in))?;
    filled_in(paper, number, Column::Terminal, terminal)?;
    filled_in(paper, number, Column::PullOut, pull_out)?;
    filled_in(paper, number, Column::PullIn, pull_in)?;
    let pull_out = minutes_in(number, Column::PullOut, pull_out)?;
    let pull_in = minutes_in(number, Column::PullIn, pull_in)?;
    Ok((terminal, Pull { pull_out, pull_in }))
}

/// The pulls that a file gives terminals, by their names, in the order of its records.
#[derive(Drop)]
pub(crate) struct Depot {
    rows: Entries<Pull>,
}

impl Model for Depot {
    ghost use Rattle.std.specs.Prelude.{All};
    ghost use Rattle.gtfs_tables.specs.Entries.{Entries};
    ghost use Rattle.deadhead_matrix.specs.declared.pulls.Pull.{Pull};
    ghost use Rattle.deadhead_matrix.specs.Pulls.{IsPull};

    ghost Value = { Entries Pull };

    ghost view = { λ d. d.rows };

    ghost invariant = { λ d. All (λ row. IsPull row.1) d.rows };
}

impl RecordReader for Depot {
    ghost use Rattle.gtfs_tables.specs.Entries.{Entries};
    ghost use Rattle.deadhead_matrix.specs.declared.pulls.Pull.{Pull};
    ghost use Rattle.deadhead_matrix.specs.Depot as spec;

    type Columns = Columns;

    ghost State = { Entries Pull };

    ghost state = { λ rows. rows };

    ghost columns_in = { spec.columns_in };

    ghost step = { λ _. spec.with_row };

    #[tactic(auto, unfolding(crate::specs::Depot::columns_in))]
    fn columns(&self, header: &Row) -> Result<Columns, FeedFault> {
        let terminal = column_in(Paper::Depot, Column::Terminal, header)?;
        let pull_out = column_in(Paper::Depot, Column::PullOut, header)?;
        let pull_in = column_in(Paper::Depot, Column::PullIn, header)?;
        Ok(Columns {
            terminal,
            pull_out,
            pull_in,
        })
    }

    fn record(&mut self, columns: &Columns, number: u32, row: &Row) -> Result<(), FeedFault> {
        let (terminal, pull) = depot_row_in(row, columns, number)?;
        self.add_record(number, terminal, pull)
    }
}

impl Depot {
    // The pulls of the row of a terminal.
    fn find(&self, terminal: &str) -> Option<Pull>
        ensures value { result ≡ value_of terminal.now self.now }
        ensures valid { IfSome result IsPull }
    {
        self.rows.find(terminal).copied()
    }

    // Appends the row of a record, where no earlier one is of its terminal.
    fn add_record(&mut self, number: u32, terminal: &str, pull: Pull) -> Result<(), FeedFault>
        requires { IsPull pull }
        ensures { Gives (λ _. self.new) result (with_record Paper.Depot number self.old (terminal.now, pull)) }
    {
        self.rows.add_record(Paper::Depot, number, terminal, pull)
    }

    /// The rows of the file; none where it is not there.
    pub(crate) fn read(alloc: Global, found: &Found) -> Result<Depot, FeedFault>
        requires { IsWithinLimit found.now }
        ensures { Gives (λ depot. depot) result (spec.rows_of found.now) }
    {
        let rows = Entries::new(alloc);
        read_optional(alloc, Paper::Depot, found, Depot { rows })
    }

    /// The pulls of the terminal of that name; none where no row names it.
    pub(crate) fn pull(&self, terminal: &str) -> Pull
        ensures value { result ≡ spec.pull_of self.now terminal.now }
        ensures valid { IsPull result }
    {
        self.find(terminal).unwrap_or(NO_PULL)
    }
}
