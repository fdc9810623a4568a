ghost use Rattle.std.specs.Prelude.{◌≡◌, ◌≤◌, IfOk, IfSome, option_map};
ghost use Rattle.gtfs_tables.specs.Papers.{IsWithinLimit};
ghost use Rattle.gtfs_tables.specs.Reading as spec;
ghost use Rattle.gtfs_tables.specs.Reading.{Gives};
ghost use Rattle.gtfs_tables.specs.declared.times.TheConstants.{LAST_SECOND};

use crate::spaces::without_spaces;
use crate::{Column, FeedFault, Paper, Row, Table, TableFault, read_number, read_time};
use desk_io::Found;
use std::alloc::Global;

/// The table of a file that must be there.
pub fn table_in(alloc: Global, paper: Paper, found: &Found) -> Result<Table, FeedFault>
    requires { IsWithinLimit found.now }
    ensures { Gives (λ table. table) result (spec.table_in paper found.now) }
{
    match found {
        Found::Missing => Err(FeedFault::Missing(paper)),
        Found::TooLong => Err(FeedFault::TooLong(paper)),
        Found::File(bytes) => match Table::read(alloc, bytes.as_slice()) {
            Ok(table) => Ok(table),
            Err(TableFault::NoHeader) => Err(FeedFault::NoHeader(paper)),
            Err(TableFault::RowTooLong(number)) => Err(FeedFault::RowTooLong(paper, number)),
            Err(TableFault::Memory) => Err(FeedFault::Memory),
        },
    }
}

/// The bytes of a file that need not be there, None where it is not.
pub fn optional_bytes(paper: Paper, found: &Found) -> Result<Option<&[u8]>, FeedFault>
    ensures { Gives (option_map (λ bytes. bytes.now)) result (spec.optional_bytes paper found.now) }
{
    match found {
        Found::Missing => Ok(None),
        Found::TooLong => Err(FeedFault::TooLong(paper)),
        Found::File(bytes) => Ok(Some(bytes.as_slice())),
    }
}

/// The number, from 0, of a column that the header must name.
pub fn column_in(paper: Paper, column: Column, header: &Row) -> Result<usize, FeedFault>
    ensures { Gives (λ place. place) result (spec.column_in paper column header.now) }
{
    header
        .place(column.name())
        .ok_or(FeedFault::NoColumn(paper, column))
}

/// The number, from 0, of a column that the header need not name. Where it does not, it is that of the next column, where each
/// field is empty.
pub fn place_of(column: Column, header: &Row) -> usize
    ensures { result ≡ spec.place_of column header.now }
{
    header.place(column.name()).unwrap_or(header.len())
}

/// The text of a field, which must be UTF-8. Records count from 1 after the header.
pub fn text_in(paper: Paper, number: u32, column: Column, bytes: &[u8]) -> Result<&str, FeedFault>
    ensures { Gives (λ text. text.now) result (spec.text_in paper number column bytes.now) }
{
    match str::from_utf8(bytes) {
        Ok(text) => Ok(text),
        Err(_) => Err(FeedFault::NotUtf8(paper, number, column)),
    }
}

/// The text of a field, which must not be empty. Records count from 1 after the header.
pub fn filled_in(paper: Paper, number: u32, column: Column, text: &str) -> Result<&str, FeedFault>
    ensures { Gives (λ filled. filled.now) result (spec.filled_in paper number column text.now) }
{
    if text.is_empty() {
        return Err(FeedFault::EmptyField(paper, number, column));
    }
    Ok(text)
}

/// The value of a field, which must be a number of at most so many decimal digits, and at most `most`. It may have spaces round
/// it. Records count from 1 after the header.
pub fn number_in(
    paper: Paper,
    number: u32,
    column: Column,
    digits: u32,
    most: u64,
    text: &str,
) -> Result<u64, FeedFault>
    requires { digits ≤ 18 }
    ensures gives { Gives (λ value. value) result (spec.number_in paper number column digits most text.now) }
    ensures within { IfOk result (λ value. value ≤ most) }
{
    match read_number(text, digits) {
        Some(value) if value <= most => Ok(value),
        _ => Err(FeedFault::BadNumber(paper, number, column)),
    }
}

/// The seconds of a field, which may be a time of the service day, at most 359,999. None where it is empty or has spaces alone.
/// Records count from 1 after the header.
pub fn time_in(
    paper: Paper,
    number: u32,
    column: Column,
    text: &str,
) -> Result<Option<u32>, FeedFault>
    ensures gives { Gives (λ seconds. seconds) result (spec.time_in paper number column text.now) }
    ensures within { IfOk result (λ seconds. IfSome seconds (λ s. s ≤ LAST_SECOND)) }
{
    if without_spaces(text.as_bytes()).is_empty() {
        return Ok(None);
    }
    match read_time(text) {
        Some(seconds) => Ok(Some(seconds)),
        None => Err(FeedFault::BadTime(paper, number, column)),
    }
}
