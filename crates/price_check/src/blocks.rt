ghost use Rattle.std.specs.Prelude.{◌≡◌, ◌+◌, ◌<◌, ◌*◌, ◌≤◌, not, length, drop};
ghost use Rattle.std.specs.Result.{result_err};
ghost use Rattle.deadhead_matrix.specs.declared.limits.TheConstants.{LONGEST_WALK};
ghost use Rattle.assignment_model.specs.declared.limits.TheConstants.{MOST_DEADHEAD, VEHICLE_WEIGHT};
ghost use Rattle.deadhead_matrix.specs.Fitting.{network_of};
ghost use Rattle.trip_model.specs.Blocking.{empty_minutes};
ghost use Rattle.price_check.specs.Claim as claim;
ghost use Rattle.price_check.specs.Claim.{AreBlockRows, AreKnown, NamesLive, Runs, begin_with, block_row, block_slots, blocks_in};
ghost use Rattle.price_check.specs.Reasons as spec;

use crate::claim::BlockRow;
use crate::onward::Onward;
use crate::verdict::{Reason, Verdict};
use deadhead_matrix::Matrix;
use trip_model::Timetable;

// The slot of the record before, where that is one of the same block.
fn slot_before(rows: &[BlockRow], at: usize) -> Option<u16>
    requires { at < length rows.now }
    ensures { result ≡ claim.slot_before rows.now at }
{
    if at > 0 && rows[at - 1].block == rows[at].block {
        rows[at - 1].slot
    } else {
        None
    }
}

// The second trip fits after the first, where there are two.
fn fit(timetable: &Timetable, matrix: &Matrix, before: Option<u16>, slot: Option<u16>) -> bool
    requires places { length timetable.now.places ≡ length matrix.now.walks }
    requires before { NamesLive timetable.now before }
    requires slot { NamesLive timetable.now slot }
    ensures { result ≡ spec.fit (network_of timetable.now matrix.now) before slot }
{
    match (before, slot) {
        (Some(before), Some(slot)) => Onward::from(timetable, matrix, before)
            .empty_to(slot)
            .is_some(),
        _ => true,
    }
}

/// The trip of each record fits after the one before it in its block, or the first that does not.
pub fn all_fit(timetable: &Timetable, matrix: &Matrix, rows: &[BlockRow]) -> Result<(), Reason>
    requires places { length timetable.now.places ≡ length matrix.now.walks }
    requires rows { AreBlockRows timetable.now rows.now }
    ensures { result_err result ≡ spec.first_at (spec.unfit (network_of timetable.now matrix.now) rows.now) (length rows.now) }
{
    for at in 0..rows.len() {
        let row = &rows[at];
        if !fit(timetable, matrix, slot_before(rows, at), row.slot) {
            return Err(Reason::NotFit(at as u32 + 1));
        }
    }
    Ok(())
}

// The empty minutes before the trip of a slot: out of the depot, or from the trip before in its block.
fn minutes_before(timetable: &Timetable, matrix: &Matrix, before: Option<u16>, slot: u16) -> u32
    requires places { length timetable.now.places ≡ length matrix.now.walks }
    requires before { NamesLive timetable.now before }
    requires runs { Runs timetable.now slot }
    ensures minutes { result ≡ spec.minutes_before (network_of timetable.now matrix.now) before slot }
    ensures bound { result ≤ LONGEST_WALK }
{
    match before {
        None => u32::from(matrix.pull_out(timetable.trip(slot).from)),
        Some(before) => Onward::from(timetable, matrix, before)
            .empty_to(slot)
            .unwrap_or(0),
    }
}

// The empty minutes home after the trip of a slot.
fn minutes_home(timetable: &Timetable, matrix: &Matrix, slot: u16) -> u32
    requires places { length timetable.now.places ≡ length matrix.now.walks }
    requires runs { Runs timetable.now slot }
    ensures minutes { result ≡ (network_of timetable.now matrix.now).home slot }
    ensures bound { result ≤ MOST_DEADHEAD }
{
    u32::from(matrix.pull_in(timetable.trip(slot).to))
}

// A record shows the empty minutes before its trip.
fn shown_at(
    timetable: &Timetable,
    matrix: &Matrix,
    rows: &[BlockRow],
    at: usize,
) -> Result<(), Reason>
    requires places { length timetable.now.places ≡ length matrix.now.walks }
    requires rows { AreBlockRows timetable.now rows.now }
    requires at { at < length rows.now }
    ensures { result_err result ≡ spec.differing (network_of timetable.now matrix.now) rows.now at }
{
    let row = &rows[at];
    if let Some(slot) = row.slot {
        let minutes = minutes_before(timetable, matrix, slot_before(rows, at), slot);
        if row.deadhead != minutes {
            return Err(Reason::MinutesDiffer(at as u32 + 1, row.deadhead, minutes));
        }
    }
    Ok(())
}

/// All records show the empty minutes before their trips, or the first that does not.
pub fn all_shown(timetable: &Timetable, matrix: &Matrix, rows: &[BlockRow]) -> Result<(), Reason>
    requires places { length timetable.now.places ≡ length matrix.now.walks }
    requires rows { AreBlockRows timetable.now rows.now }
    ensures { result_err result ≡ spec.first_at (spec.differing (network_of timetable.now matrix.now) rows.now) (length rows.now) }
{
    for at in 0..rows.len() {
        shown_at(timetable, matrix, rows, at)?;
    }
    Ok(())
}

// The weight of the link from the one trip to the other, where there are two.
fn link_weight(
    timetable: &Timetable,
    matrix: &Matrix,
    before: Option<u16>,
    slot: Option<u16>,
) -> u64
    requires places { length timetable.now.places ≡ length matrix.now.walks }
    requires before { NamesLive timetable.now before }
    requires slot { NamesLive timetable.now slot }
    ensures weight { result ≡ spec.link_weight (network_of timetable.now matrix.now) before slot }
    ensures bound { result ≤ VEHICLE_WEIGHT + 2 * MOST_DEADHEAD }
{
    match (before, slot) {
        (Some(before), Some(slot)) => Onward::from(timetable, matrix, before)
            .weight_to(slot)
            .unwrap_or(0),
        _ => 0,
    }
}

/// The weights of all links together.
pub fn weight_sum(timetable: &Timetable, matrix: &Matrix, rows: &[BlockRow]) -> u64
    requires places { length timetable.now.places ≡ length matrix.now.walks }
    requires rows { AreBlockRows timetable.now rows.now }
    ensures { result ≡ spec.weight_sum (network_of timetable.now matrix.now) rows.now }
{
    let mut sum = 0;
    for at in 0..rows.len() {
        let row = &rows[at];
        sum += link_weight(timetable, matrix, slot_before(rows, at), row.slot);
    }
    sum
}

// The record is the last of its block.
fn ends_block(rows: &[BlockRow], at: usize) -> bool
    requires { at < length rows.now }
    ensures { result ≡ not (begin_with (drop (at + 1) rows.now) (block_row rows.now at).block) }
{
    at + 1 == rows.len() || rows[at].block != rows[at + 1].block
}

/// The blocks are accepted, with their vehicles and empty minutes.
pub fn accepted(timetable: &Timetable, matrix: &Matrix, rows: &[BlockRow]) -> Verdict
    requires places { length timetable.now.places ≡ length matrix.now.walks }
    requires rows { AreBlockRows timetable.now rows.now }
    requires known { AreKnown (block_slots rows.now) }
    ensures { result ≡ Verdict.Yes (length (blocks_in rows.now))
        (empty_minutes (network_of timetable.now matrix.now) (blocks_in rows.now)) }
{
    let mut vehicles = 0;
    let mut minutes = 0;
    for at in 0..rows.len() {
        let row = &rows[at];
        let slot = row.slot.unwrap();
        minutes += minutes_before(timetable, matrix, slot_before(rows, at), slot);
        if ends_block(rows, at) {
            vehicles += 1;
            minutes += minutes_home(timetable, matrix, slot);
        }
    }
    Verdict::Yes { vehicles, minutes }
}
