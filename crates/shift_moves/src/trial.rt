ghost use Rattle.std.specs.Prelude.{◌≡◌, ◌≢◌, ℕ, ◌+◌, ◌<◌, ◌≤◌, true, false, List, ◌∷◌, ◌++◌, length, ℤ, pos, neg_ℤ, ◌<ℤ◌, ◌↔◌};
ghost use Rattle.deficit_steps.specs.Changes.{IsDeficits, changes_of, value};
ghost use Rattle.deficit_steps.specs.Holds.{Holds};
ghost use Rattle.shift_moves.specs.Lowering.{IsLowering};
ghost use Rattle.shift_moves.specs.Trial.{AreSwapped, HoldsAmong, HoldsTrip, maxima_at};
ghost use Rattle.trip_model.specs.Plain.{IsMove};
ghost use Rattle.trip_model.specs.Timetable.{slot_at};
ghost use Rattle.trip_model.specs.Trip.{MayShift};
ghost use Rattle.trip_model.specs.declared.trip.Move.{Move as ModelMove};
ghost use Rattle.trip_model.specs.Fleet.{deficit_sum, with_shift};
ghost use Rattle.trip_model.specs.declared.limits.TheConstants.{LAST_MINUTE};

use deficit_steps::Deficits;
use deficit_steps::laws::held_law;
use desk_io::Steps;
use std::sync::ledger::Ledger;
use trip_model::{Move, Timetable};

/// The move of the trip of a slot, which runs, as it is and moved by so many minutes.
pub(crate) fn moves_of(timetable: &Timetable, slot: u16, by: i16) -> (Move, Move)
    requires slot { slot < length timetable.now.slots }
    requires live { (slot_at timetable.now slot).trip.live ≡ true }
    requires within { MayShift (slot_at timetable.now slot).trip by }
    ensures swapped { AreSwapped result.0 result.1 timetable.now.slots (with_shift timetable.now slot by).slots }
    ensures before { IsMove (length timetable.now.places) result.0 }
    ensures after { IsMove (length timetable.now.places) result.1 }
    ensures from { result.1.from ≡ result.0.from }
    ensures to { result.1.to ≡ result.0.to }
{
    let stands = timetable.trip(slot).as_move();
    let moved = Move {
        leaves: stands.leaves.checked_add_signed(by).unwrap(),
        arrives: stands.arrives.checked_add_signed(by).unwrap(),
        ..stands
    };
    (stands, moved)
}

/// Holds another move between the same places in the stead of one that is held.
pub(crate) fn replace<L: Ledger>(
    deficits: &mut Deficits,
    taken: &Move,
    added: &Move,
    steps: &mut Steps<L>,
)
    requires taken { IsMove (length deficits.old) taken.now }
    requires added { IsMove (length deficits.old) added.now }
    requires from { added.now.from ≡ taken.now.from }
    requires to { added.now.to ≡ taken.now.to }
    requires held { HoldsAmong deficits.old taken.now }
    ensures rows { length deficits.new ≡ length deficits.old }
    ensures before { IsDeficits deficits.old }
    ensures after { IsDeficits deficits.new }
    ensures held { (front back : List ModelMove) → Holds deficits.old (front ++ taken.now ∷ back)
        → Holds deficits.new (front ++ added.now ∷ back) }
    ensures others { (place : ℕ) → place ≢ taken.now.from → place ≢ taken.now.to
        → changes_of deficits.new place ≡ changes_of deficits.old place }
    ensures counted { steps.new ≤ steps.old + 56 }
{
    held_law();
    let _before = deficits.places();
    deficits.take(taken, steps);
    deficits.add(added, steps);
    let _after = deficits.places();
}

// The greatest values of the place that a move leaves and of the one where it arrives, added up.
fn maxima(deficits: &Deficits, between: &Move) -> u64
    requires from { between.now.from < length deficits.now }
    requires to { between.now.to < length deficits.now }
    ensures { pos result ≡ maxima_at (value deficits.now) between.now.from between.now.to }
{
    let (from, _) = deficits.max(between.from);
    let (to, _) = deficits.max(between.to);
    u64::from(from) + u64::from(to)
}

// Whether the sum of the maxima is smaller with the trip of a slot moved by so many minutes. It reads no places but the
// two of the trip, since all others keep their maxima.
fn lowers<L: Ledger>(
    timetable: &Timetable,
    deficits: &mut Deficits,
    slot: u16,
    by: i16,
    steps: &mut Steps<L>,
) -> bool
    requires trip { HoldsTrip deficits.old timetable.now slot }
    requires within { MayShift (slot_at timetable.now slot).trip by }
    ensures lower { (result ≡ true) ↔ (deficit_sum (with_shift timetable.now slot by) <ℤ deficit_sum timetable.now) }
    ensures unchanged { deficits.new ≡ deficits.old }
    ensures counted { steps.new ≤ steps.old + 112 }
{
    held_law();
    // Its clause says that the timetable is valid.
    let _slots = timetable.slots();
    let (stands, moved) = moves_of(timetable, slot, by);
    let before = maxima(deficits, &stands);
    replace(deficits, &stands, &moved, steps);
    let after = maxima(deficits, &stands);
    replace(deficits, &moved, &stands, steps);
    after < before
}

/// From how many minutes earlier on, and from how many later on, a shift of a trip can lower the sum.
#[derive(Clone, Copy)]
pub(crate) struct Least {
    pub earlier: u16,
    pub later: u16,
}

// From how many minutes earlier on an arrival falls at a minute or before it, where it was after that.
fn least_earlier(arrives: u16, high: u16) -> u16
    ensures { (size : ℕ) → size < result → arrives ≤ high + size → arrives ≤ high }
{
    if high < arrives {
        arrives - high
    } else {
        u16::MAX
    }
}

// From how many minutes later on a departure falls after a minute, where it was not after that.
fn least_later(leaves: u16, high: u16) -> u16
    requires { high ≤ LAST_MINUTE }
    ensures { (size : ℕ) → size < result → leaves ≤ high → leaves + size ≤ high }
{
    if leaves <= high {
        high - leaves + 1
    } else {
        u16::MAX
    }
}

/// From how many minutes on a shift of the trip of a slot can lower the sum. A trip that leaves later lowers the deficit of its
/// place in the minutes between. So these must have the first one of the greatest deficit. The same holds of the place where
/// it arrives, if it arrives earlier.
pub(crate) fn least_sizes(timetable: &Timetable, deficits: &Deficits, slot: u16) -> Least
    requires { HoldsTrip deficits.now timetable.now slot }
    ensures earlier { (size : ℕ) → size < result.earlier → ¬ IsLowering timetable.now slot (neg_ℤ (pos size)) }
    ensures later { (size : ℕ) → size < result.later → ¬ IsLowering timetable.now slot (pos size) }
{
    held_law();
    // Their clauses say that the timetable and the deficits are valid.
    let _slots = timetable.slots();
    let _places = deficits.places();
    let stands = timetable.trip(slot).as_move();
    let (_, left) = deficits.max(stands.from);
    let (_, came) = deficits.max(stands.to);
    Least {
        earlier: least_earlier(stands.arrives, came),
        later: least_later(stands.leaves, left),
    }
}

// Whether the shift of the trip of a slot by so many minutes lowers the sum; `may` says whether it can at all.
pub(crate) fn is_lowering<L: Ledger>(
    timetable: &Timetable,
    deficits: &mut Deficits,
    slot: u16,
    by: i16,
    may: bool,
    steps: &mut Steps<L>,
) -> bool
    requires trip { HoldsTrip deficits.old timetable.now slot }
    requires moved { by ≢ pos 0 }
    requires may { may ≡ true → MayShift (slot_at timetable.now slot).trip by }
    requires may_not { may ≡ false → ¬ IsLowering timetable.now slot by }
    ensures yes { result ≡ true → IsLowering timetable.now slot by }
    ensures no { result ≡ false → ¬ IsLowering timetable.now slot by }
    ensures unchanged { deficits.new ≡ deficits.old }
    ensures counted { steps.new ≤ steps.old + 112 }
    ensures uncounted { may ≡ false → steps.new ≡ steps.old }
{
    if !may {
        return false;
    }
    lowers(timetable, deficits, slot, by, steps)
}
