ghost use Rattle.std.specs.Prelude.{◌≡◌, ◌<◌, ◌≤◌, length, map, OnOk};
ghost use Rattle.std.specs.Result.{result_err};
ghost use Rattle.trip_model.specs.declared.limits.TheConstants.{MOST_SLOTS};
ghost use Rattle.price_check.specs.Claim.{AreKnown};
ghost use Rattle.price_check.specs.Reasons as spec;

use crate::claim::Record;
use crate::verdict::Reason;
use gtfs_tables::Paper;
use trip_model::Timetable;

// Whether one of the records names a slot.
fn stands<R: Record>(rows: &[R], slot: u16) -> bool
    ensures { result ≡ spec.stands (map R.slot_of rows.now) slot }
{
    for row in rows {
        if row.slot() == Some(slot) {
            return true;
        }
    }
    false
}

/// Each record names a slot, or the first that names none.
pub fn all_known<R: Record>(paper: Paper, rows: &[R]) -> Result<(), Reason>
    requires { length rows.now ≤ MOST_SLOTS }
    ensures first { result_err result ≡ spec.first_at (spec.unknown paper (map R.slot_of rows.now)) (length rows.now) }
    ensures known { OnOk result (AreKnown (map R.slot_of rows.now)) }
{
    for (at, row) in rows.iter().enumerate() {
        if row.slot().is_none() {
            return Err(Reason::UnknownTrip(paper, at as u32 + 1));
        }
    }
    Ok(())
}

// An earlier record names the slot of a record.
fn repeats<R: Record>(rows: &[R], at: usize) -> bool
    requires { at < length rows.now }
    ensures { result ≡ spec.repeats (map R.slot_of rows.now) at }
{
    match rows[at].slot() {
        Some(slot) => stands(&rows[..at], slot),
        None => false,
    }
}

/// No record names the slot of an earlier one, or the first that does.
pub fn all_once<R: Record>(paper: Paper, rows: &[R]) -> Result<(), Reason>
    requires { length rows.now ≤ MOST_SLOTS }
    ensures { result_err result ≡ spec.first_at (spec.twice paper (map R.slot_of rows.now)) (length rows.now) }
{
    for at in 0..rows.len() {
        if repeats(rows, at) {
            return Err(Reason::TripTwice(paper, at as u32 + 1));
        }
    }
    Ok(())
}

/// A record names each trip that runs, or the first slot whose trip none names.
pub fn none_missing<R: Record>(
    paper: Paper,
    rows: &[R],
    timetable: &Timetable,
) -> Result<(), Reason>
    ensures { result_err result ≡ spec.first_at (spec.missing timetable.now paper (map R.slot_of rows.now)) (length timetable.now.slots) }
{
    for slot in 0..timetable.slots() {
        if timetable.trip(slot).live && !stands(rows, slot) {
            return Err(Reason::TripMissing(paper, slot));
        }
    }
    Ok(())
}
