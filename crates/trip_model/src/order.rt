ghost use Rattle.std.specs.Prelude.{◌≡◌, ◌<◌, true, length, All, IfOk};
ghost use Rattle.trip_model.specs.Order as spec;
ghost use Rattle.trip_model.specs.Plain as plain;
ghost use Rattle.trip_model.specs.Plain.{trip_moves};
ghost use Rattle.trip_model.specs.Timetable.{slot_at};

use crate::Timetable;
use desk_io::Memory;
use std::alloc::Global;

// The minute at which the trip of a slot departs; 0 past the last slot.
fn departs(timetable: &Timetable, slot: u16) -> u16
    ensures { result ≡ (slot_at timetable.now slot).trip.departs }
{
    if slot < timetable.slots() {
        timetable.trip(slot).departs
    } else {
        0
    }
}

// The minute at which the trip of a slot ends; 0 past the last slot.
fn ends(timetable: &Timetable, slot: u16) -> u16
    ensures { result ≡ (slot_at timetable.now slot).trip.ends }
{
    if slot < timetable.slots() {
        timetable.trip(slot).ends
    } else {
        0
    }
}

// The slots of the trips that run, by number.
fn live_slots(alloc: Global, timetable: &Timetable) -> Result<Vec<u16>, Memory>
    ensures slots { IfOk result (λ slots. slots.items ≡ plain.live_slots (trip_moves timetable.now.slots)) }
    ensures within { IfOk result (λ slots. All (λ s. s < length timetable.now.slots) slots.items) }
    ensures live { IfOk result (λ slots. All (λ s. (slot_at timetable.now s).trip.live ≡ true) slots.items) }
{
    let mut slots = Vec::new(alloc);
    for slot in 0..timetable.slots() {
        if timetable.trip(slot).live {
            slots.push(slot)?;
        }
    }
    Ok(slots)
}

/// The slots of the trips that run, by departure, and those of one departure by number.
pub fn by_departure(alloc: Global, timetable: &Timetable) -> Result<Vec<u16>, Memory>
    ensures order { IfOk result (λ order. order.items ≡ spec.by_departure (trip_moves timetable.now.slots)) }
    ensures within { IfOk result (λ order. All (λ s. s < length timetable.now.slots) order.items) }
    ensures live { IfOk result (λ order. All (λ s. (slot_at timetable.now s).trip.live ≡ true) order.items) }
{
    let mut order = live_slots(alloc, timetable)?;
    order.sort_by_key(|slot| departs(timetable, *slot))?;
    Ok(order)
}

/// The slots of the trips that run, by end, and those of one end by number.
pub fn by_end(alloc: Global, timetable: &Timetable) -> Result<Vec<u16>, Memory>
    ensures order { IfOk result (λ order. order.items ≡ spec.by_end (trip_moves timetable.now.slots)) }
    ensures within { IfOk result (λ order. All (λ s. s < length timetable.now.slots) order.items) }
    ensures live { IfOk result (λ order. All (λ s. (slot_at timetable.now s).trip.live ≡ true) order.items) }
{
    let mut order = live_slots(alloc, timetable)?;
    order.sort_by_key(|slot| ends(timetable, *slot))?;
    Ok(order)
}
