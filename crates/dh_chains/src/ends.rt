ghost use Rattle.std.specs.Prelude.{◌≡◌, ◌≢◌, ℕ, suc, ◌+◌, ◌<◌, ◌≤◌, length, slice_index, ℤ};
ghost use Rattle.trip_model.specs.declared.limits.TheConstants.{MINUTES};
ghost use Rattle.trip_model.specs.Maximum.{first_maximum};
ghost use Rattle.deadhead_matrix.specs.Matrix.{MatrixView};
ghost use Rattle.deficit_steps.specs.Changes.{value};
ghost use Rattle.dh_chains.specs.Chains.{IsDeadhead, places_of, places_with};
ghost use Rattle.dh_chains.specs.Ends.{AreEarliest, ArriveFrom, EndsFrom, IsMaximumBetween, PassedArriveFrom};
ghost use Rattle.dh_chains.specs.declared.chain.Deadhead.{Deadhead as ModelDeadhead};

use deadhead_matrix::Matrix;
use deficit_steps::Deficits;
use trip_model::{MINUTES, MOST_PLACES};

const PLACES: usize = MOST_PLACES as usize;

/// For each place, a minute from which on a deadhead has to leave it if its chain is to end. One list is for the first deadhead
/// of a chain, and one for the second. Behind an earlier one no further one need be looked for.
#[derive(Drop)]
pub(crate) struct Earliest {
    pub(crate) first: [u16; PLACES],
    pub(crate) second: [u16; PLACES],
}

// A late minute before another one at which a place is at its maximum: the last one, as it is found by halves.
fn late_maximum(deficits: &Deficits, place: u16, first: u16, before: u16) -> u16
    requires place { place < length deficits.now }
    requires first { value deficits.now place first ≡ (first_maximum (value deficits.now place)).0 }
    requires earlier { first < before }
    requires in_day { before ≤ MINUTES }
    ensures earlier { result < before }
    ensures reached { value deficits.now place result ≡ (first_maximum (value deficits.now place)).0 }
{
    let mut late = first;
    let mut past = before;
    while past - late > 1 {
        let middle = late + (past - late) / 2;
        match deficits.first_max_from(place, middle) {
            Some(minute) if minute < past => late = minute,
            _ => past = middle,
        }
    }
    late
}

// The minute after a late one before another one at which a place is at its maximum; 0 where there is none.
fn past_maximum(deficits: &Deficits, place: u16, before: u16) -> u16
    requires { place < length deficits.now }
    ensures in_day { result ≤ MINUTES }
    ensures reached { (t : ℕ) → t < result → IsMaximumBetween (value deficits.now place) t before }
{
    let (_, first) = deficits.max(place);
    let before = before.min(MINUTES);
    if first >= before {
        return 0;
    }
    late_maximum(deficits, place, first, before) + 1
}

// A minute from which on each deadhead from one place to another arrives that leaves from a minute on.
fn arrives_from(matrix: &Matrix, from: u16, to: u16, leaves: u16) -> u16
    requires from { from < length matrix.now.walks }
    requires to { to < length matrix.now.walks }
    ensures { (d : ℕ → ℕ → ℤ) (m : ModelDeadhead) → IsDeadhead (places_with d matrix.now) m → m.from ≢ m.to
        → m.from ≡ from → m.to ≡ to → leaves ≤ m.leaves → result ≤ m.arrives }
{
    if from == to {
        return MINUTES;
    }
    match matrix.minutes(from, to) {
        Some(minutes) => (u32::from(leaves) + minutes).min(u32::from(MINUTES)) as u16,
        None => MINUTES,
    }
}

// Lowers the minutes of places for the deadheads from one place. None of these with which a chain ends leaves before a minute.
// Afterwards none of them arrives before the minute of the place where it arrives.
fn lower_from(minutes: &mut [u16], matrix: &Matrix, from: u16, leaves: u16)
    requires { from < length matrix.now.walks }
    ensures { (d : ℕ → ℕ → ℤ) (most : ℕ) → EndsFrom (places_with d matrix.now) most from leaves
        → PassedArriveFrom (places_with d matrix.now) (suc most) minutes.old from 0
        → PassedArriveFrom (places_with d matrix.now) (suc most) minutes.new (from + 1) 0 }
{
    for to in 0..matrix.places() {
        let place = usize::from(to);
        if place < minutes.len() {
            minutes[place] = minutes[place].min(arrives_from(matrix, from, to, leaves));
        }
    }
}

// The minutes before which no deadhead arrives at each place, by those before which none leaves each.
fn arrivals(later: &[u16], matrix: &Matrix) -> [u16; PLACES]
    ensures { (d : ℕ → ℕ → ℤ) (most : ℕ) → AreEarliest (places_with d matrix.now) most later.now
        → ArriveFrom (places_with d matrix.now) (suc most) result }
{
    let mut minutes = [MINUTES; PLACES];
    for from in 0..matrix.places() {
        lower_from(&mut minutes, matrix, from, minute_of(later, from));
    }
    minutes
}

// The minutes before which no deadhead leaves each place, in the stead of those before which none arrives at each.
fn set_leaving(minutes: &mut [u16], deficits: &Deficits)
    ensures { (matrix : MatrixView) (most : ℕ) → length deficits.now ≡ length matrix.walks
        → ArriveFrom (places_of deficits.now matrix) most minutes.old
        → AreEarliest (places_of deficits.now matrix) most minutes.new }
{
    for place in 0..deficits.places() {
        let at = usize::from(place);
        if at < minutes.len() {
            minutes[at] = past_maximum(deficits, place, minutes[at]);
        }
    }
}

/// From when on the first and the second deadheads of chains have to leave each place.
pub(crate) fn earliest_of(deficits: &Deficits, matrix: &Matrix) -> Earliest
    requires { length deficits.now ≡ length matrix.now.walks }
    ensures first { AreEarliest (places_of deficits.now matrix.now) 2 result.first }
    ensures second { AreEarliest (places_of deficits.now matrix.now) 1 result.second }
{
    let mut third = [MINUTES; PLACES];
    set_leaving(&mut third, deficits);
    let mut second = arrivals(&third, matrix);
    set_leaving(&mut second, deficits);
    let mut first = arrivals(&second, matrix);
    set_leaving(&mut first, deficits);
    Earliest { first, second }
}

/// The minute of a place, which is 0 past the last one.
pub(crate) fn minute_of(minutes: &[u16], place: u16) -> u16
    ensures { result ≡ slice_index minutes.now place }
{
    minutes.get(usize::from(place)).copied().unwrap_or(0)
}
