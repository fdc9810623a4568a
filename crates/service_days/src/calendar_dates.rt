ghost use Rattle.std.specs.Prelude.{◌≡◌, ◌<◌, [], ◌∷◌, ◌++◌, true, not, IfOk, length, is_some, option_map, slice_get, Some};
ghost use Rattle.gtfs_tables.specs.Papers.{IsWithinLimit};
ghost use Rattle.gtfs_tables.specs.Reading.{Gives};
ghost use Rattle.service_days.specs.CalendarDates as spec;

use crate::date::date_in;
use desk_io::{Found, Memory};
use gtfs_tables::{
    Column, FeedFault, Paper, RecordReader, Row, column_in, filled_in, number_in, read_optional,
    text_in,
};
use indexmap::IndexMap;
use std::alloc::Global;
use std::marker::Model;

/// Where the required columns of `calendar_dates.txt` are.
#[derive(Clone, Copy)]
pub(crate) struct Columns {
    service: usize,
    date: usize,
    exception: usize,
}

/// What `calendar_dates.txt` has of a service on one date, whatever its schedule.
#[derive(Clone, Copy)]
pub(crate) enum Exception {
    /// It runs.
    Added,
    /// It does not run.
    Removed,
}

// The exception of a field.
fn exception_in(number: u32, text: &str) -> Result<Exception, FeedFault>
    ensures { Gives (λ exception. exception) result (spec.exception_in number text.now) }
{
    let paper = Paper::CalendarDates;
    match number_in(paper, number, Column::ExceptionType, 1, 2, text)? {
        1 => Ok(Exception::Added),
        2 => Ok(Exception::Removed),
        _ => Err(FeedFault::BadNumber(paper, number, Column::ExceptionType)),
    }
}

// The service of a record, its date and its exception.
#[tactic(auto, unfolding(crate::specs::CalendarDates::exception_row_in))]
fn exception_row_in<'a>(
    row: &'a Row,
    columns: &Columns,
    number: u32,
) -> Result<(&'a str, u32, Exception), FeedFault>
    ensures { Gives (λ row. (row.0.now, row.1, row.2)) result (spec.exception_row_in columns.now number row.now) }
{
    let paper = Paper::CalendarDates;
    let service = text_in(paper, number, Column::ServiceId, row.field(columns.service))?;
    let date = text_in(paper, number, Column::Date, row.field(columns.date))?;
    let exception = text_in(
        paper,
        number,
        Column::ExceptionType,
        row.field(columns.exception),
    )?;
    filled_in(paper, number, Column::ServiceId, service)?;
    filled_in(paper, number, Column::Date, date)?;
    filled_in(paper, number, Column::ExceptionType, exception)?;
    let date = date_in(paper, number, Column::Date, date)?;
    let exception = exception_in(number, exception)?;
    Ok((service, date, exception))
}

/// The exceptions of services on dates, in the order of the records that gave them; one is found without going over the
/// others.
#[derive(Drop)]
pub(crate) struct CalendarDates {
    exceptions: IndexMap<(String, u32), Exception>,
}

impl Model for CalendarDates {
    ghost use Rattle.std.specs.Prelude.{List};
    ghost use Rattle.service_days.specs.declared.calendar_dates.Exception.{Exception};
    ghost use Rattle.service_days.specs.CalendarDates.{ServiceDate, exceptions_from};

    ghost Value = { List (ServiceDate × Exception) };

    ghost view = { λ d. exceptions_from d.exceptions.entries };
}

impl RecordReader for CalendarDates {
    ghost use Rattle.std.specs.Prelude.{List};
    ghost use Rattle.service_days.specs.declared.calendar_dates.Exception.{Exception};
    ghost use Rattle.service_days.specs.CalendarDates as spec;

    type Columns = Columns;

    ghost State = { List (spec.ServiceDate × Exception) };

    ghost state = { λ exceptions. exceptions };

    ghost columns_in = { spec.columns_in };

    ghost step = { λ _. spec.with_record };

    #[tactic(auto, unfolding(crate::specs::CalendarDates::columns_in))]
    fn columns(&self, header: &Row) -> Result<Columns, FeedFault> {
        let paper = Paper::CalendarDates;
        let service = column_in(paper, Column::ServiceId, header)?;
        let date = column_in(paper, Column::Date, header)?;
        let exception = column_in(paper, Column::ExceptionType, header)?;
        Ok(Columns {
            service,
            date,
            exception,
        })
    }

    fn record(&mut self, columns: &Columns, number: u32, row: &Row) -> Result<(), FeedFault> {
        let (service, date, exception) = exception_row_in(row, columns, number)?;
        self.add_record(number, service, date, exception)
    }
}

impl CalendarDates {
    // Appends the exception of a service on a date, if it has none there, and answers whether it had none.
    fn add(&mut self, service: &str, date: u32, exception: Exception) -> Result<bool, Memory>
        ensures new { IfOk result (λ new. new ≡ not (is_some (spec.exception_of self.old (service.now, date)))) }
        ensures added { IfOk result (λ new. new ≡ true → self.new ≡ self.old ++ ((service.now, date), exception) ∷ []) }
    {
        let service = String::from_str(*self.exceptions.allocator(), service)?;
        Ok(
            self.exceptions
                .insert((service, date), exception)?
                .is_none(),
        )
    }

    // Appends the exception of a record, whose service no earlier one may have on its date.
    fn add_record(
        &mut self,
        number: u32,
        service: &str,
        date: u32,
        exception: Exception,
    ) -> Result<(), FeedFault>
        ensures { Gives (λ _. self.new) result (spec.with_exception number self.old (service.now, date, exception)) }
    {
        if self.add(service, date, exception)? {
            return Ok(());
        }
        Err(FeedFault::DuplicateRow(Paper::CalendarDates, number))
    }

    /// The exceptions of the file; none where it is not there.
    pub(crate) fn read(alloc: Global, found: &Found) -> Result<CalendarDates, FeedFault>
        requires { IsWithinLimit found.now }
        ensures { Gives (λ dates. dates) result (spec.exceptions_of found.now) }
    {
        let exceptions = IndexMap::new(alloc);
        let none = CalendarDates { exceptions };
        read_optional(alloc, Paper::CalendarDates, found, none)
    }

    /// The exception of a service on a date, if there is one.
    pub(crate) fn find(&self, service: &str, date: u32) -> Result<Option<Exception>, Memory>
        ensures { IfOk result (λ exception. exception ≡ spec.exception_of self.now (service.now, date)) }
    {
        let service = String::from_str(*self.exceptions.allocator(), service)?;
        Ok(self.exceptions.get(&(service, date)).copied())
    }

    /// How many exceptions there are.
    pub(crate) fn len(&self) -> usize
        ensures { result ≡ length self.now }
    {
        self.exceptions.len()
    }

    /// The service and the date of the exception of that number, from 0.
    pub(crate) fn service_date(&self, number: usize) -> (&str, u32)
        requires { number < length self.now }
        ensures { option_map (λ entry. entry.0) (slice_get self.now number) ≡ Some (result.0.now, result.1) }
    {
        let ((service, date), _) = self.exceptions.get_index(number).unwrap();
        (service.as_str(), *date)
    }
}
