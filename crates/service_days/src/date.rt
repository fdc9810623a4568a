ghost use Rattle.std.specs.Prelude.{◌≡◌, ◌^◌, ◌<◌, IfSome};
ghost use Rattle.gtfs_tables.specs.Reading.{Gives};
ghost use Rattle.service_days.specs.Dates as spec;
ghost use Rattle.service_days.specs.Dates.{IsDateNumber};

use gtfs_tables::{Column, FeedFault, Paper, read_number};
use jiff::civil::{self, Date};

// Whether the calendar has the day of a number of eight digits.
fn is_date(number: u32) -> bool
    requires { number < 10 ^ 8 }
    ensures { result ≡ spec.is_date number }
{
    let year = (number / 10_000) as i16;
    let month = (number / 100 % 100) as i8;
    let day = (number % 100) as i8;
    Date::new(year, month, day).is_ok()
}

// The value of eight digits, with any spaces round them.
fn eight_digits(text: &str) -> Option<u32>
    ensures value { result ≡ spec.eight_digits text.now }
    ensures bound { IfSome result (λ number. number < 10 ^ 8) }
{
    // A number of at most 8 digits that is none of at most 7 has 8.
    match read_number(text, 7) {
        Some(_) => None,
        None => Some(read_number(text, 8)? as u32),
    }
}

/// The date of a text, as the number YYYYMMDD: eight digits of a date of the calendar, with any spaces round them. None
/// exactly where the text has another form.
pub fn read_date(text: &str) -> Option<u32>
    ensures value { result ≡ spec.date_of text.now }
    ensures valid { IfSome result IsDateNumber }
{
    let number = eight_digits(text)?;
    if is_date(number) { Some(number) } else { None }
}

/// The date of a field. Records count from 1 after the header.
pub(crate) fn date_in(
    paper: Paper,
    number: u32,
    column: Column,
    text: &str,
) -> Result<u32, FeedFault>
    ensures { Gives (λ date. date) result (spec.date_in paper number column text.now) }
{
    read_date(text).ok_or(FeedFault::BadNumber(paper, number, column))
}

/// The day of the week of a date, from 0 for Monday.
pub(crate) fn weekday(date: u32) -> usize
    requires { IsDateNumber date }
    ensures value { result ≡ spec.weekday_of date }
    ensures bound { result < 7 }
{
    let year = (date / 10_000) as i16;
    let month = (date / 100 % 100) as i8;
    let day = (date % 100) as i8;
    usize::from(civil::date(year, month, day).weekday().index())
}
