ghost use Rattle.std.specs.Prelude.{◌≡◌, ◌≢◌, ◌++◌, IfOk, codes, string_bytes};
ghost use Rattle.gtfs_tables.specs.Faults.{record_text_of, trip_text_of, fault_text_of, feed_line_of};
ghost use Rattle.gtfs_tables.specs.Papers.{file_name_of};
ghost use Rattle.gtfs_tables.specs.declared.fault.FeedFault.TheVariants as feed_fault;

use crate::{Column, Paper};
use desk_io::{Memory, Text};
use std::alloc::{AllocError, AllocFailed, Global};

/// Why the files of a feed are refused. Records are counted from 1 after the header.
#[derive(Drop)]
pub enum FeedFault {
    /// The file is not there.
    Missing(Paper),
    /// The file has more bytes than may be read.
    TooLong(Paper),
    /// The table has no record.
    NoHeader(Paper),
    /// The record has more fields than the header.
    RowTooLong(Paper, u32),
    /// The header does not name the column.
    NoColumn(Paper, Column),
    /// The field is not UTF-8.
    NotUtf8(Paper, u32, Column),
    /// The field must not be empty, and is.
    EmptyField(Paper, u32, Column),
    /// The number is not of its form, or out of its range.
    BadNumber(Paper, u32, Column),
    /// The time is not of its form.
    BadTime(Paper, u32, Column),
    /// An earlier record has the record's key.
    DuplicateRow(Paper, u32),
    /// The settings are no TOML.
    NotToml,
    /// The key of the settings is unknown, or its value not of its form.
    BadSettings(Text),
    /// The record of a deadhead has one terminal twice.
    SameTerminal(u32),
    /// The record of a rule has one trip twice.
    SameTrip(u32),
    /// The rule of the record is neither of the two that there are.
    BadRule(u32),
    /// The record of `trips.txt` is selected when there are as many trips as there may be.
    TooManyTrips(u32),
    /// A place is met in the file when there are as many as there may be.
    TooManyPlaces(Paper),
    /// The trip has fewer than two stops.
    TooFewStops(Text),
    /// Two stops of the trip have one number.
    DuplicateSequence(Text),
    /// The first or the last stop of the trip has no time.
    NoTime(Text),
    /// The trip does not arrive after it departs.
    NotForward(Text),
    /// The file has more records than may be read, or would have them after what was asked.
    TooManyRecords(Paper),
    /// No memory was found.
    Memory,
}

// What is printed of a file: its name, and what is refused in two parts.
fn file_text(alloc: Global, paper: Paper, what: &str, more: &str) -> Result<String, AllocError>
    ensures { IfOk result (λ text. string_bytes text ≡ file_name_of paper ++ (codes ": " ++ (what.now ++ more.now))) }
{
    format!(in alloc; "{}: {what}{more}", paper.file_name())
}

// What is printed of a record: its file and number, and what is refused in two parts.
fn record_text(
    alloc: Global,
    paper: Paper,
    number: u32,
    what: &str,
    more: &str,
) -> Result<String, AllocError>
    ensures { IfOk result (λ text. string_bytes text ≡ record_text_of paper number (what.now ++ more.now)) }
{
    format!(in alloc; "{} record {number}: {what}{more}", paper.file_name())
}

// What is printed of a trip.
fn trip_text(alloc: Global, trip: &Text, what: &str) -> Result<String, AllocError>
    ensures { IfOk result (λ text. string_bytes text ≡ trip_text_of trip.now what.now) }
{
    format!(in alloc; "stop_times.txt: trip {} {what}", trip.as_str())
}

// What is printed of a refused file.
fn fault_text(alloc: Global, fault: &FeedFault) -> Result<String, AllocError>
    requires { fault.now ≢ FeedFault.Memory }
    ensures { IfOk result (λ text. string_bytes text ≡ fault_text_of fault.now) }
{
    match fault {
        FeedFault::Missing(paper) => file_text(alloc, *paper, "missing", ""),
        FeedFault::TooLong(paper) => file_text(alloc, *paper, "too long", ""),
        FeedFault::NoHeader(paper) => file_text(alloc, *paper, "no header", ""),
        FeedFault::NoColumn(paper, column) => file_text(alloc, *paper, "no column ", column.name()),
        FeedFault::TooManyPlaces(paper) => file_text(alloc, *paper, "too many places", ""),
        FeedFault::TooManyRecords(paper) => file_text(alloc, *paper, "too many records", ""),
        FeedFault::NotToml => file_text(alloc, Paper::Settings, "not TOML", ""),
        FeedFault::BadSettings(key) => file_text(alloc, Paper::Settings, "bad ", key.as_str()),
        FeedFault::TooFewStops(trip) => trip_text(alloc, trip, "has too few stops"),
        FeedFault::DuplicateSequence(trip) => trip_text(alloc, trip, "has a sequence twice"),
        FeedFault::NoTime(trip) => trip_text(alloc, trip, "has no time at an end"),
        FeedFault::NotForward(trip) => trip_text(alloc, trip, "not forward"),
        FeedFault::RowTooLong(paper, number) => {
            record_text(alloc, *paper, *number, "too many fields", "")
        }
        FeedFault::DuplicateRow(paper, number) => {
            record_text(alloc, *paper, *number, "duplicate", "")
        }
        FeedFault::SameTerminal(number) => {
            record_text(alloc, Paper::Deadheads, *number, "same terminal", "")
        }
        FeedFault::SameTrip(number) => {
            record_text(alloc, Paper::Pairs, *number, "same trip", "")
        }
        FeedFault::BadRule(number) => record_text(alloc, Paper::Pairs, *number, "bad rule", ""),
        FeedFault::TooManyTrips(number) => {
            record_text(alloc, Paper::Trips, *number, "too many trips", "")
        }
        FeedFault::NotUtf8(paper, number, column) => {
            record_text(alloc, *paper, *number, column.name(), " not UTF-8")
        }
        FeedFault::EmptyField(paper, number, column) => {
            record_text(alloc, *paper, *number, "empty ", column.name())
        }
        FeedFault::BadNumber(paper, number, column) | FeedFault::BadTime(paper, number, column) => {
            record_text(alloc, *paper, *number, "bad ", column.name())
        }
        FeedFault::Memory => unreachable!(),
    }
}

/// The line that is printed where a feed is refused, with its line feed.
pub fn feed_line(alloc: Global, fault: &FeedFault) -> Result<Text, Memory>
    requires { fault.now ≢ FeedFault.Memory }
    ensures { IfOk result (λ line. line ≡ feed_line_of fault.now) }
{
    let text = fault_text(alloc, fault)?;
    Ok(Text::wrap(format!(in alloc; "feed refused: {text}\n")?))
}

impl From<Memory> for FeedFault {
    ghost from_gives = { λ _ refused. refused ≡ feed_fault.Memory };

    fn from(_: Memory) -> FeedFault {
        FeedFault::Memory
    }
}

impl<T: Drop> From<AllocFailed<T>> for FeedFault {
    ghost from_gives = { λ _ refused. refused ≡ feed_fault.Memory };

    fn from(_: AllocFailed<T>) -> FeedFault {
        FeedFault::Memory
    }
}
