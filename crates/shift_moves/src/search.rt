ghost use Rattle.std.specs.Prelude.{◌≡◌, ℕ, ◌+◌, ◌-◌, ◌*◌, ◌<◌, ◌≤◌, ◌⊎◌, true, false, List, length, ℤ, pos, neg_ℤ, unsigned_abs};
ghost use Rattle.std.specs.Prelude.{IfNone, IfSome};
ghost use Rattle.deficit_steps.specs.Changes.{IsDeficits};
ghost use Rattle.deficit_steps.specs.Holds.{Holds};
ghost use Rattle.shift_moves.specs.Lowering.{IsFirst, IsLowering};
ghost use Rattle.shift_moves.specs.Trial.{HoldsTrip, IsFirstInSlot, IsRoom, tried};
ghost use Rattle.trip_model.specs.Deficit.{live_moves};
ghost use Rattle.trip_model.specs.Fleet.{with_shift};
ghost use Rattle.trip_model.specs.Place.{Place};
ghost use Rattle.trip_model.specs.Timetable.{slot_at};
ghost use Rattle.trip_model.specs.Trip.{IsValidTrip, MayShift};
ghost use Rattle.trip_model.specs.declared.limits.TheConstants.{MOST_TOLERANCE};

use crate::trial::{Least, is_lowering, least_sizes, moves_of, replace};
use deficit_steps::Deficits;
use desk_io::Steps;
use std::sync::ledger::Ledger;
use trip_model::{Timetable, Trip};

/// The trip of a slot moved by so many minutes, earlier where they are negative.
#[derive(Clone, Copy)]
pub struct Shift {
    pub slot: u16,
    pub by: i16,
}

// By how many minutes a trip may be moved earlier, and by how many later.
#[derive(Clone, Copy)]
struct Room {
    earlier: u16,
    later: u16,
}

// How far a trip may be moved within its tolerances, and not to before midnight.
fn room_of(trip: &Trip) -> Room
    requires valid { (places : List Place) × IsValidTrip places trip.now }
    ensures { IsRoom trip.now result.earlier result.later }
{
    let earlier = (i16::from(trip.early) + i16::from(trip.offset)) as u16;
    Room {
        earlier: earlier.min(trip.departs),
        later: (i16::from(trip.late) - i16::from(trip.offset)) as u16,
    }
}

// So many minutes earlier.
fn earlier(size: u16) -> i16
    requires { size ≤ 2 * MOST_TOLERANCE }
    ensures { result ≡ neg_ℤ (pos size) }
{
    -(size as i16)
}

// So many minutes later.
fn later(size: u16) -> i16
    requires { size ≤ 2 * MOST_TOLERANCE }
    ensures { result ≡ pos size }
{
    size as i16
}

// Whether a size is neither too small nor too great.
fn lies_within(least: u16, size: u16, most: u16) -> bool
    ensures within { result ≡ true → size ≤ most }
    ensures without { result ≡ false → (size < least) ⊎ (most < size) }
{
    least <= size && size <= most
}

// The lowering shift of the trip of a slot by so many minutes, earlier before later. One that is too small to lower the sum is
// not tried.
fn shift_of_size<L: Ledger>(
    timetable: &Timetable,
    deficits: &mut Deficits,
    slot: u16,
    room: Room,
    least: Least,
    size: u16,
    steps: &mut Steps<L>,
) -> Option<i16>
    requires trip { HoldsTrip deficits.old timetable.now slot }
    requires room { IsRoom (slot_at timetable.now slot).trip room.earlier room.later }
    requires least_earlier { (n : ℕ) → n < least.earlier → ¬ IsLowering timetable.now slot (neg_ℤ (pos n)) }
    requires least_later { (n : ℕ) → n < least.later → ¬ IsLowering timetable.now slot (pos n) }
    requires some { 0 < size }
    requires few { size ≤ 2 * MOST_TOLERANCE }
    ensures lowering { IfSome result (IsLowering timetable.now slot) }
    ensures size { IfSome result (λ by. unsigned_abs by ≡ size) }
    ensures earlier { IfSome result (λ by. by ≡ pos size → ¬ IsLowering timetable.now slot (neg_ℤ (pos size))) }
    ensures none_earlier { IfNone result (¬ IsLowering timetable.now slot (neg_ℤ (pos size))) }
    ensures none_later { IfNone result (¬ IsLowering timetable.now slot (pos size)) }
    ensures unchanged { deficits.new ≡ deficits.old }
    ensures counted { steps.new + 112 * tried room.earlier room.later (size - 1)
        ≤ steps.old + 112 * tried room.earlier room.later size }
{
    let by = earlier(size);
    let may = lies_within(least.earlier, size, room.earlier);
    if is_lowering(timetable, deficits, slot, by, may, steps) {
        return Some(by);
    }
    let by = later(size);
    let may = lies_within(least.later, size, room.later);
    if is_lowering(timetable, deficits, slot, by, may, steps) {
        return Some(by);
    }
    None
}

// The first lowering shift of the trip of a slot.
fn shift_of_slot<L: Ledger>(
    timetable: &Timetable,
    deficits: &mut Deficits,
    slot: u16,
    steps: &mut Steps<L>,
) -> Option<i16>
    requires held { Holds deficits.old (live_moves timetable.now.slots) }
    requires rows { length deficits.old ≡ length timetable.now.places }
    requires slot { slot < length timetable.now.slots }
    ensures first { IfSome result (IsFirstInSlot timetable.now slot) }
    ensures none { IfNone result ((by : ℤ) → ¬ IsLowering timetable.now slot by) }
    ensures unchanged { deficits.new ≡ deficits.old }
    ensures counted { steps.new ≤ steps.old + 112 * (2 * MOST_TOLERANCE) }
{
    let trip = timetable.trip(slot);
    if !trip.live {
        return None;
    }
    let room = room_of(&trip);
    let least = least_sizes(timetable, deficits, slot);
    for size in least.earlier.min(least.later).max(1)..room.earlier.max(room.later) + 1 {
        if let Some(by) = shift_of_size(timetable, deficits, slot, room, least, size, steps) {
            return Some(by);
        }
    }
    None
}

/// The first shift of a trip that runs with which the sum of the maxima of the deficits is smaller. It is within the trip's
/// tolerances and not to before midnight. Shifts are ordered by slot, then by the number of minutes, and of one number earlier
/// before later. None where there is none.
///
/// A shift is tried on the deficits and taken back, so that they are in the end what they were. That is four changes of at most
/// 28 steps, for each number of minutes within two tolerances. A shift is not tried where it keeps the departure before the
/// greatest deficit of its place, and the arrival after that of its own. It takes no memory.
pub fn next_shift<L: Ledger>(
    timetable: &Timetable,
    deficits: &mut Deficits,
    steps: &mut Steps<L>,
) -> Option<Shift>
    requires held { Holds deficits.old (live_moves timetable.now.slots) }
    requires rows { length deficits.old ≡ length timetable.now.places }
    ensures first { IfSome result (λ shift. IsFirst timetable.now shift.slot shift.by) }
    ensures none { IfNone result ((slot : ℕ) (by : ℤ) → ¬ IsLowering timetable.now slot by) }
    ensures unchanged { deficits.new ≡ deficits.old }
    ensures counted { steps.new ≤ steps.old + 4 * 28 * (2 * MOST_TOLERANCE) * length timetable.now.slots }
{
    for slot in 0..timetable.slots() {
        if let Some(by) = shift_of_slot(timetable, deficits, slot, steps) {
            return Some(Shift { slot, by });
        }
    }
    None
}

/// Makes a shift of a trip that runs, in a timetable and in the deficits of its trips that run. That is two changes of at most
/// 28 steps. It takes no memory.
pub fn make_shift<L: Ledger>(
    timetable: &mut Timetable,
    deficits: &mut Deficits,
    shift: Shift,
    steps: &mut Steps<L>,
)
    requires held { Holds deficits.old (live_moves timetable.old.slots) }
    requires rows { length deficits.old ≡ length timetable.old.places }
    requires slot { shift.slot < length timetable.old.slots }
    requires live { (slot_at timetable.old shift.slot).trip.live ≡ true }
    requires within { MayShift (slot_at timetable.old shift.slot).trip shift.by }
    ensures shifted { timetable.new ≡ with_shift timetable.old shift.slot shift.by }
    ensures held { Holds deficits.new (live_moves timetable.new.slots) }
    ensures rows { length deficits.new ≡ length timetable.new.places }
    ensures valid { IsDeficits deficits.new }
    ensures counted { steps.new ≤ steps.old + 2 * 28 }
{
    // Its clause says that the timetable is valid.
    let _slots = timetable.slots();
    let (stands, moved) = moves_of(timetable, shift.slot, shift.by);
    replace(deficits, &stands, &moved, steps);
    timetable.shift(shift.slot, shift.by);
}
