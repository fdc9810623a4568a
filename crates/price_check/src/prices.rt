ghost use Rattle.std.specs.Prelude.{◌≡◌, ◌<◌, ◌≤◌, length, All};
ghost use Rattle.std.specs.Result.{result_err};
ghost use Rattle.trip_model.specs.declared.limits.TheConstants.{MOST_SLOTS};
ghost use Rattle.price_check.specs.declared.claim.TheConstants.{MOST_PRICE};
ghost use Rattle.deadhead_matrix.specs.Fitting.{network_of};
ghost use Rattle.price_check.specs.Claim.{ArePriceRows, IsPriced, NamesLive};
ghost use Rattle.price_check.specs.Reasons as spec;

use crate::claim::PriceRow;
use crate::onward::Onward;
use crate::verdict::Reason;
use deadhead_matrix::Matrix;
use trip_model::Timetable;

// Where the pair fits, two prices reach its weight. They are that of leaving the trip from which the ways lead on, and that of
// entering the trip of a record. The rules of pairs are asked where the prices are too low alone, because a look-up of names takes
// longer than all else.
fn reach(onward: &Onward, leave: u64, row: &PriceRow) -> Result<(), Reason>
    requires leave { leave ≤ MOST_PRICE }
    requires slot { NamesLive onward.now.timetable row.now.slot }
    requires priced { IsPriced row.now }
    ensures { result_err result ≡ spec.low_from (network_of onward.now.timetable onward.now.matrix) onward.now.slot leave row.now }
{
    if let Some(slot) = row.slot {
        if let Some(weight) = onward.timely_weight(slot) {
            if leave + row.enter < weight && onward.is_allowed(slot) {
                return Err(Reason::PriceLow(onward.slot(), slot));
            }
        }
    }
    Ok(())
}

// So it is with the trips of all records; or the first with which it is not.
fn all_reach(onward: &Onward, rows: &[PriceRow], leave: u64) -> Result<(), Reason>
    requires leave { leave ≤ MOST_PRICE }
    requires rows { ArePriceRows onward.now.timetable rows.now }
    ensures { result_err result ≡ spec.first_low_from (network_of onward.now.timetable onward.now.matrix) rows.now onward.now.slot leave }
{
    for at in 0..rows.len() {
        let row = &rows[at];
        reach(onward, leave, row)?;
    }
    Ok(())
}

// The prices reach the weights of all pairs whose first trip is that of a record; or the first weight that they do not reach.
fn reach_from(
    timetable: &Timetable,
    matrix: &Matrix,
    rows: &[PriceRow],
    at: usize,
) -> Result<(), Reason>
    requires places { length timetable.now.places ≡ length matrix.now.walks }
    requires rows { ArePriceRows timetable.now rows.now }
    requires at { at < length rows.now }
    ensures { result_err result ≡ spec.low (network_of timetable.now matrix.now) rows.now at }
{
    let row = &rows[at];
    match row.slot {
        Some(slot) => all_reach(&Onward::from(timetable, matrix, slot), rows, row.leave),
        None => Ok(()),
    }
}

/// The prices reach the weights of all pairs that fit, or the first that they do not reach.
pub fn all_reached(timetable: &Timetable, matrix: &Matrix, rows: &[PriceRow]) -> Result<(), Reason>
    requires places { length timetable.now.places ≡ length matrix.now.walks }
    requires rows { ArePriceRows timetable.now rows.now }
    ensures { result_err result ≡ spec.first_at (spec.low (network_of timetable.now matrix.now) rows.now) (length rows.now) }
{
    for at in 0..rows.len() {
        reach_from(timetable, matrix, rows, at)?;
    }
    Ok(())
}

/// All prices together.
pub fn price_sum(rows: &[PriceRow]) -> u64
    requires few { length rows.now ≤ MOST_SLOTS }
    requires priced { All IsPriced rows.now }
    ensures { result ≡ spec.price_sum rows.now }
{
    let mut sum = 0;
    for row in rows {
        sum += row.leave + row.enter;
    }
    sum
}
