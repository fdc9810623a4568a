ghost use Rattle.std.specs.Prelude.{◌≡◌, ◌<◌, length, slice_get, option_map, Some};
ghost use Rattle.gtfs_tables.specs.Entries.{value_of};
ghost use Rattle.gtfs_tables.specs.Papers.{IsWithinLimit};
ghost use Rattle.gtfs_tables.specs.Reading.{Gives};
ghost use Rattle.service_days.specs.Calendar as spec;
ghost use Rattle.service_days.specs.Dates.{IsDateNumber};

use crate::date::{date_in, weekday};
use desk_io::Found;
use gtfs_tables::{
    Column, Entries, FeedFault, Paper, RecordReader, Row, column_in, filled_in, number_in,
    read_optional, text_in,
};
use std::alloc::Global;
use std::marker::Model;

// The columns of the weekdays, from Monday.
const WEEKDAYS: [Column; 7] = [
    Column::Monday,
    Column::Tuesday,
    Column::Wednesday,
    Column::Thursday,
    Column::Friday,
    Column::Saturday,
    Column::Sunday,
];

/// Where the required columns of `calendar.txt` are, those of the weekdays from Monday.
#[derive(Clone, Copy)]
pub(crate) struct Columns {
    service: usize,
    weekdays: [usize; 7],
    start: usize,
    end: usize,
}

/// When a service runs: on which weekdays, from Monday, and from which date to which, both included.
#[derive(Clone, Copy)]
pub(crate) struct ServicePeriod {
    weekdays: [bool; 7],
    start: u32,
    end: u32,
}

impl ServicePeriod {
    /// Whether the schedule has the date.
    pub(crate) fn covers(&self, date: u32) -> bool
        requires { IsDateNumber date }
        ensures { result ≡ spec.covers self.now date }
    {
        self.weekdays[weekday(date)] && self.start <= date && date <= self.end
    }
}

// The texts of the weekdays of a record, from Monday.
#[derive(Clone, Copy)]
struct Weekdays<'a> {
    texts: [&'a str; 7],
}

// The texts of a record.
#[derive(Clone, Copy)]
struct Texts<'a> {
    service: &'a str,
    weekdays: Weekdays<'a>,
    start: &'a str,
    end: &'a str,
}

// Where the columns of the weekdays are, from Monday.
fn weekday_columns(header: &Row) -> Result<[usize; 7], FeedFault>
    ensures { Gives (λ places. places) result (spec.weekday_columns header.now) }
{
    let mut places = [0; 7];
    for day in 0..7 {
        places[day] = column_in(Paper::Calendar, WEEKDAYS[day], header)?;
    }
    Ok(places)
}

// The text of a field.
fn text_at(number: u32, column: Column, place: usize, row: &Row) -> Result<&str, FeedFault>
    ensures { Gives (λ text. text.now) result (spec.text_at number column place row.now) }
{
    text_in(Paper::Calendar, number, column, row.field(place))
}

// The texts of the weekdays, from Monday.
fn weekday_texts<'a>(
    row: &'a Row,
    columns: &Columns,
    number: u32,
) -> Result<Weekdays<'a>, FeedFault>
    ensures { Gives spec.days_seen result (spec.weekday_texts columns.now number row.now) }
{
    let mut texts = [""; 7];
    for day in 0..7 {
        texts[day] = text_at(number, WEEKDAYS[day], columns.weekdays[day], row)?;
    }
    Ok(Weekdays { texts })
}

// The texts of a record.
fn texts_in<'a>(row: &'a Row, columns: &Columns, number: u32) -> Result<Texts<'a>, FeedFault>
    ensures { Gives spec.seen result (spec.texts_in columns.now number row.now) }
{
    let service = text_at(number, Column::ServiceId, columns.service, row)?;
    let weekdays = weekday_texts(row, columns, number)?;
    let start = text_at(number, Column::StartDate, columns.start, row)?;
    let end = text_at(number, Column::EndDate, columns.end, row)?;
    Ok(Texts {
        service,
        weekdays,
        start,
        end,
    })
}

// Whether the text of each weekday is filled.
fn weekdays_filled(weekdays: &Weekdays, number: u32) -> Result<(), FeedFault>
    ensures { Gives (λ done. done) result (spec.weekdays_filled number (spec.days_seen weekdays.now)) }
{
    for day in 0..7 {
        filled_in(Paper::Calendar, number, WEEKDAYS[day], weekdays.texts[day])?;
    }
    Ok(())
}

// Whether each text of a record is filled.
fn filled(texts: &Texts, number: u32) -> Result<(), FeedFault>
    ensures { Gives (λ done. done) result (spec.filled number (spec.seen texts.now)) }
{
    let paper = Paper::Calendar;
    filled_in(paper, number, Column::ServiceId, texts.service)?;
    weekdays_filled(&texts.weekdays, number)?;
    filled_in(paper, number, Column::StartDate, texts.start)?;
    filled_in(paper, number, Column::EndDate, texts.end)?;
    Ok(())
}

// Whether a service runs on the weekday of a column.
fn runs_in(number: u32, column: Column, text: &str) -> Result<bool, FeedFault>
    ensures { Gives (λ runs. runs) result (spec.runs_in number column text.now) }
{
    Ok(number_in(Paper::Calendar, number, column, 1, 1, text)? == 1)
}

// On which weekdays a service runs, from Monday.
fn weekdays_in(weekdays: &Weekdays, number: u32) -> Result<[bool; 7], FeedFault>
    ensures { Gives (λ runs. runs) result (spec.weekdays_in number (spec.days_seen weekdays.now)) }
{
    let mut runs = [false; 7];
    for day in 0..7 {
        runs[day] = runs_in(number, WEEKDAYS[day], weekdays.texts[day])?;
    }
    Ok(runs)
}

// The service of a record and its schedule.
fn schedule_in<'a>(
    row: &'a Row,
    columns: &Columns,
    number: u32,
) -> Result<(&'a str, ServicePeriod), FeedFault>
    ensures { Gives (λ entry. (entry.0.now, entry.1)) result (spec.schedule_in columns.now number row.now) }
{
    let paper = Paper::Calendar;
    let texts = texts_in(row, columns, number)?;
    filled(&texts, number)?;
    let weekdays = weekdays_in(&texts.weekdays, number)?;
    let start = date_in(paper, number, Column::StartDate, texts.start)?;
    let end = date_in(paper, number, Column::EndDate, texts.end)?;
    let schedule = ServicePeriod {
        weekdays,
        start,
        end,
    };
    Ok((texts.service, schedule))
}

/// The schedules of services, in the order of the records that gave them; one is found without going over the others.
#[derive(Drop)]
pub(crate) struct Calendar {
    schedules: Entries<ServicePeriod>,
}

impl Model for Calendar {
    ghost use Rattle.gtfs_tables.specs.Entries.{Entries};
    ghost use Rattle.service_days.specs.declared.calendar.ServicePeriod.{ServicePeriod};

    ghost Value = { Entries ServicePeriod };

    ghost view = { λ c. c.schedules };
}

impl RecordReader for Calendar {
    ghost use Rattle.gtfs_tables.specs.Entries.{Entries};
    ghost use Rattle.service_days.specs.declared.calendar.ServicePeriod.{ServicePeriod};
    ghost use Rattle.service_days.specs.Calendar as spec;

    type Columns = Columns;

    ghost State = { Entries ServicePeriod };

    ghost state = { λ schedules. schedules };

    ghost columns_in = { spec.columns_in };

    ghost step = { λ _. spec.with_schedule };

    fn columns(&self, header: &Row) -> Result<Columns, FeedFault> {
        let paper = Paper::Calendar;
        Ok(Columns {
            service: column_in(paper, Column::ServiceId, header)?,
            weekdays: weekday_columns(header)?,
            start: column_in(paper, Column::StartDate, header)?,
            end: column_in(paper, Column::EndDate, header)?,
        })
    }

    fn record(&mut self, columns: &Columns, number: u32, row: &Row) -> Result<(), FeedFault> {
        let (service, schedule) = schedule_in(row, columns, number)?;
        self.schedules
            .add_record(Paper::Calendar, number, service, schedule)
    }
}

impl Calendar {
    /// The schedules of the file; none where it is not there.
    pub(crate) fn read(alloc: Global, found: &Found) -> Result<Calendar, FeedFault>
        requires { IsWithinLimit found.now }
        ensures { Gives (λ calendar. calendar) result (spec.schedules_of found.now) }
    {
        let schedules = Entries::new(alloc);
        read_optional(alloc, Paper::Calendar, found, Calendar { schedules })
    }

    /// The schedule of a service, if it has one.
    pub(crate) fn find(&self, service: &str) -> Option<ServicePeriod>
        ensures { result ≡ value_of service.now self.now }
    {
        self.schedules.find(service).copied()
    }

    /// How many services have a schedule.
    pub(crate) fn len(&self) -> usize
        ensures { result ≡ length self.now }
    {
        self.schedules.len()
    }

    /// The service of that number, from 0.
    pub(crate) fn service(&self, number: usize) -> &str
        requires { number < length self.now }
        ensures { option_map (λ entry. entry.0) (slice_get self.now number) ≡ Some result.now }
    {
        self.schedules.name(number)
    }
}
