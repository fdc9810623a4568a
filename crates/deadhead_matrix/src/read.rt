ghost use Rattle.std.specs.Prelude.{◌≡◌, ◌≢◌, ◌≤◌, false, [], length, All, Err, IfOk, OnErr};
ghost use Rattle.gtfs_tables.specs.Papers.{IsWithinLimit};
ghost use Rattle.gtfs_tables.specs.Reading.{field_at, Gives};
ghost use Rattle.trip_model.specs.Place.{has_slash};
ghost use Rattle.assignment_model.specs.declared.limits.TheConstants.{MOST_DEADHEAD};
ghost use Rattle.deadhead_matrix.specs.Deadheads as spec;
ghost use Rattle.deadhead_matrix.specs.Left as left;
ghost use Rattle.deadhead_matrix.specs.Named.{HasGained, IsNamed};
ghost use Rattle.deadhead_matrix.specs.Posts.{classes_of};

use crate::deadheads::Deadheads;
use crate::posts::{classes_of, places_of};
use crate::unplaced::Unplaced;
use assignment_model::MOST_DEADHEAD;
use desk_io::{Found, Memory, Text};
use gtfs_tables::{
    Column, FeedFault, Paper, Row, TracedReader, column_in, filled_in, judge_table, number_in,
    read_traced, text_in,
};
use std::alloc::Global;
use std::mem;
use trip_model::Timetable;

/// The columns of a record's fields, each counted from 0.
#[derive(Clone, Copy)]
pub(crate) struct Columns {
    from: usize,
    to: usize,
    minutes: usize,
}

// The minutes of a record, from 1 to 1,440.
fn minutes_in(number: u32, text: &str) -> Result<u16, FeedFault>
    ensures gives { Gives (λ minutes. minutes) result (spec.minutes_in number text.now) }
    ensures short { IfOk result (λ minutes. minutes ≤ MOST_DEADHEAD) }
    ensures lasting { IfOk result (λ minutes. 1 ≤ minutes) }
{
    let most = u64::from(MOST_DEADHEAD);
    let minutes = number_in(Paper::Deadheads, number, Column::Minutes, 4, most, text)?;
    if minutes == 0 {
        return Err(FeedFault::BadNumber(Paper::Deadheads, number, Column::Minutes));
    }
    Ok(minutes as u16)
}

// The two terminals of a record and its minutes.
#[tactic(auto, unfolding(crate::specs::Deadheads::deadhead_in))]
fn deadhead_in<'a>(
    row: &'a Row,
    columns: &Columns,
    number: u32,
) -> Result<(&'a str, &'a str, u16), FeedFault>
    ensures gives { Gives (λ deadhead. (deadhead.0.now, deadhead.1.now, deadhead.2)) result (spec.deadhead_in columns.now number row.now) }
    ensures short { IfOk result (λ deadhead. deadhead.2 ≤ MOST_DEADHEAD) }
    ensures lasting { IfOk result (λ deadhead. 1 ≤ deadhead.2) }
    ensures from { IfOk result (λ deadhead. deadhead.0.now ≡ field_at row.now columns.now.from) }
    ensures to { IfOk result (λ deadhead. deadhead.1.now ≡ field_at row.now columns.now.to) }
{
    let paper = Paper::Deadheads;
    let from = text_in(paper, number, Column::From, row.field(columns.from))?;
    let to = text_in(paper, number, Column::To, row.field(columns.to))?;
    let minutes = text_in(paper, number, Column::Minutes, row.field(columns.minutes))?;
    filled_in(paper, number, Column::From, from)?;
    filled_in(paper, number, Column::To, to)?;
    filled_in(paper, number, Column::Minutes, minutes)?;
    let minutes = minutes_in(number, minutes)?;
    if from == to {
        return Err(FeedFault::SameTerminal(number));
    }
    Ok((from, to, minutes))
}

// The timetable with the places of the records that were read, their entries, and the ends of those whose terminals have no
// places; and the classes of the places that it had before.
#[derive(Drop)]
struct Reading {
    alloc: Global,
    classes: Vec<Text>,
    timetable: Timetable,
    deadheads: Deadheads,
    unplaced: Unplaced,
    ghost named: { All (λ class. has_slash class ≡ false) classes.items },
}

impl Reading {
    // Takes the timetable out of its place, and no records in.
    fn begin(alloc: Global, timetable: &mut Timetable) -> Result<Reading, Memory>
        ensures timetable { IfOk result (λ reading. reading.timetable ≡ timetable.old) }
        ensures classes { IfOk result (λ reading. reading.classes.items ≡ classes_of timetable.old) }
        ensures begun { IfOk result (λ reading. reading.deadheads ≡ []) }
        ensures placed { IfOk result (λ reading. reading.unplaced ≡ []) }
        ensures err { OnErr result (timetable.new ≡ timetable.old) }
    {
        let deadheads = Deadheads::none(alloc)?;
        let classes = classes_of(alloc, timetable)?;
        let none = Timetable::open(alloc, 0, 0);
        Ok(Reading {
            alloc,
            classes,
            timetable: mem::replace(timetable, none),
            deadheads,
            unplaced: Unplaced::none(alloc),
        })
    }

    // Puts the timetable in its place, and answers the entries.
    fn end(self, timetable: &mut Timetable) -> Deadheads
        ensures timetable { timetable.new ≡ self.timetable }
        ensures entries { result ≡ self.deadheads }
    {
        *timetable = self.timetable;
        self.deadheads
    }
}

impl TracedReader for Reading {
    ghost use Rattle.std.specs.Prelude.{List};
    ghost use Rattle.deadhead_matrix.specs.Deadheads as spec;
    ghost use Rattle.deadhead_matrix.specs.Left as left;
    ghost use Rattle.deadhead_matrix.specs.Named.{GainsNamed};
    ghost use Rattle.deadhead_matrix.specs.Posts.{Class};

    type Columns = Columns;

    ghost Kept = { List Class };

    ghost State = { spec.ReadingView };

    ghost kept = { λ read. read.classes.items };

    ghost state = { λ read. record { timetable = read.timetable; entries = read.deadheads; unplaced = read.unplaced } };

    ghost columns_in = { spec.columns_in };

    ghost step = { spec.with_deadhead };

    ghost Leaves = { left.Leaves };

    ghost Changes = { GainsNamed };

    #[tactic(auto, unfolding(crate::specs::Deadheads::columns_in))]
    fn columns(&self, header: &Row) -> Result<Columns, FeedFault> {
        let from = column_in(Paper::Deadheads, Column::From, header)?;
        let to = column_in(Paper::Deadheads, Column::To, header)?;
        let minutes = column_in(Paper::Deadheads, Column::Minutes, header)?;
        Ok(Columns { from, to, minutes })
    }

    #[tactic(auto, unfolding(crate::specs::Deadheads::with_deadhead, crate::specs::Left::left_by))]
    fn record(&mut self, columns: &Columns, number: u32, row: &Row) -> Result<(), FeedFault> {
        let (from, to, minutes) = deadhead_in(row, columns, number)?;
        let froms = places_of(self.alloc, &mut self.timetable, from, &self.classes)?;
        let tos = places_of(self.alloc, &mut self.timetable, to, &self.classes)?;
        self.deadheads.add_record(number, &froms, &tos, minutes)?;
        if self.classes.is_empty() {
            return self.unplaced.add_record(number, from, to);
        }
        Ok(())
    }
}

// Takes the records of the file in; none where it is not there. A record that is too long refuses the file before any
// place is added.
fn read_all(alloc: Global, found: &Found, reading: &mut Reading) -> Result<(), FeedFault>
    requires within { IsWithinLimit found.now }
    requires begun { reading.old.deadheads ≡ [] }
    requires placed { reading.old.unplaced ≡ [] }
    requires classes { reading.old.classes.items ≡ classes_of reading.old.timetable }
    ensures gives { Gives (λ _. (reading.new.timetable, reading.new.deadheads)) result (spec.deadheads_of found.now reading.old.timetable) }
    ensures left { result ≢ Err FeedFault.Memory → reading.new.timetable ≡ left.timetable_left found.now reading.old.timetable }
    ensures gained { HasGained (IsNamed found.now reading.old.timetable) reading.old.timetable reading.new.timetable }
{
    match found {
        Found::Missing => Ok(()),
        Found::TooLong | Found::File(_) => {
            judge_table(alloc, Paper::Deadheads, found)?;
            read_traced(alloc, Paper::Deadheads, found, reading)
        }
    }
}

/// The entries of the file, whose places it adds to the timetable; none where it is not there.
pub(crate) fn read_deadheads(
    alloc: Global,
    found: &Found,
    timetable: &mut Timetable,
) -> Result<Deadheads, FeedFault>
    requires { IsWithinLimit found.now }
    ensures gives { Gives (λ deadheads. (timetable.new, deadheads)) result (spec.deadheads_of found.now timetable.old) }
    ensures left { result ≢ Err FeedFault.Memory → timetable.new ≡ left.timetable_left found.now timetable.old }
    ensures gained { HasGained (IsNamed found.now timetable.old) timetable.old timetable.new }
{
    let mut reading = Reading::begin(alloc, timetable)?;
    let read = read_all(alloc, found, &mut reading);
    let deadheads = reading.end(timetable);
    read?;
    Ok(deadheads)
}
