ghost use Rattle.std.specs.Prelude.{◌≡◌, ◌≢◌, ◌++◌, IfOk, codes, string_bytes};
ghost use Rattle.gtfs_tables.specs.Faults.{record_text_of};
ghost use Rattle.gtfs_tables.specs.Papers.{file_name_of};
ghost use Rattle.claim_files.specs.Lines.{HasRecord, IsTold, claim_line_of, claim_text_of, no_line, reason_line_of, reason_text_of};
ghost use Rattle.claim_files.specs.Lines.{trip_named};

use crate::fault::ClaimFault;
use desk_io::{Memory, Text};
use gtfs_tables::Paper;
use price_check::{Claimed, Reason};
use std::alloc::{AllocError, Global};
use trip_model::Timetable;

// The line of a no for that cause.
fn no_line(alloc: Global, cause: &str) -> Result<Text, Memory>
    ensures { IfOk result (λ line. line ≡ no_line cause.now) }
{
    Ok(Text::wrap(format!(in alloc; "no: {cause}\n")?))
}

// What is printed of a claim that cannot be read.
fn claim_text(alloc: Global, fault: &ClaimFault) -> Result<String, AllocError>
    requires { fault.now ≢ ClaimFault.Memory }
    ensures { IfOk result (λ text. string_bytes text ≡ claim_text_of fault.now) }
{
    match fault {
        ClaimFault::Missing(paper) => format!(in alloc; "{}: missing", paper.file_name()),
        ClaimFault::TooLong(paper) => format!(in alloc; "{}: too long", paper.file_name()),
        ClaimFault::NotForm(paper, number) => format!(in alloc;
            "{} record {number}: not in form",
            paper.file_name()
        ),
        ClaimFault::Memory => unreachable!(),
    }
}

/// The line that is printed where a claim cannot be read, with its line feed.
pub fn claim_line(alloc: Global, fault: &ClaimFault) -> Result<Text, Memory>
    requires { fault.now ≢ ClaimFault.Memory }
    ensures { IfOk result (λ line. line ≡ claim_line_of fault.now) }
{
    let text = claim_text(alloc, fault)?;
    no_line(alloc, &text)
}

// The name of the trip in the record of that number, counted from 1.
fn trip_named(claimed: &Claimed, paper: Paper, number: u32) -> &str
    requires { HasRecord claimed.now paper number }
    ensures { result.now ≡ trip_named claimed.now paper number }
{
    let at = number as usize - 1;
    match paper {
        Paper::Blocks => claimed.blocks()[at].trip.as_str(),
        Paper::Prices => claimed.prices()[at].trip.as_str(),
        _ => unreachable!(),
    }
}

// What is printed of a record that names no trip that runs.
fn unknown_text(alloc: Global, paper: Paper, number: u32, trip: &str) -> Result<String, AllocError>
    ensures { IfOk result (λ text. string_bytes text ≡ record_text_of paper number (codes "unknown trip " ++ trip.now)) }
{
    format!(in alloc;
        "{} record {number}: unknown trip {trip}",
        paper.file_name()
    )
}

// What is printed of a trip that no record names.
fn missing_text(alloc: Global, paper: Paper, trip: &str) -> Result<String, AllocError>
    ensures { IfOk result (λ text. string_bytes text ≡ file_name_of paper ++ (codes ": trip " ++ (trip.now ++ codes " missing"))) }
{
    format!(in alloc; "{}: trip {trip} missing", paper.file_name())
}

// What is printed of a record whose trip does not fit after the one before it.
fn unfit_text(alloc: Global, number: u32, trip: &str) -> Result<String, AllocError>
    ensures { IfOk result (λ text. string_bytes text ≡ record_text_of Paper.Blocks number (trip.now ++ codes " does not fit")) }
{
    format!(in alloc; "blocks.csv record {number}: {trip} does not fit")
}

// What is printed of a reason.
fn reason_text(
    alloc: Global,
    timetable: &Timetable,
    claimed: &Claimed,
    reason: &Reason,
) -> Result<String, AllocError>
    requires { IsTold timetable.now claimed.now reason.now }
    ensures { IfOk result (λ text. string_bytes text ≡ reason_text_of timetable.now claimed.now reason.now) }
{
    match reason {
        Reason::UnknownTrip(paper, number) => {
            let trip = trip_named(claimed, *paper, *number);
            unknown_text(alloc, *paper, *number, trip)
        }
        Reason::TripTwice(paper, number) => format!(in alloc;
            "{} record {number}: trip {} twice",
            paper.file_name(),
            trip_named(claimed, *paper, *number)
        ),
        Reason::TripMissing(paper, slot) => missing_text(alloc, *paper, timetable.name(*slot)),
        Reason::NotFit(number) => {
            let trip = trip_named(claimed, Paper::Blocks, *number);
            unfit_text(alloc, *number, trip)
        }
        Reason::MinutesDiffer(number, shown, minutes) => format!(in alloc;
            "blocks.csv record {number}: minutes {shown}, not {minutes}"
        ),
        Reason::PriceLow(before, after) => format!(in alloc;
            "price of {} to {} too low",
            timetable.name(*before),
            timetable.name(*after)
        ),
        Reason::SumsDiffer(prices, weights) => format!(in alloc;
            "prices sum to {prices}, weights to {weights}"
        ),
    }
}

/// The line that is printed of a reason against a claim, with its line feed.
pub fn reason_line(
    alloc: Global,
    timetable: &Timetable,
    claimed: &Claimed,
    reason: &Reason,
) -> Result<Text, Memory>
    requires { IsTold timetable.now claimed.now reason.now }
    ensures { IfOk result (λ line. line ≡ reason_line_of timetable.now claimed.now reason.now) }
{
    let text = reason_text(alloc, timetable, claimed, reason)?;
    no_line(alloc, &text)
}
