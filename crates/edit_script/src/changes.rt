ghost use Rattle.std.specs.Prelude.{◌≡◌, ◌≤◌, ◌<◌, ◌++◌, ◌∷◌, [], IfOk, OnErr, Some, unsigned_abs, int_le, pos, ◌+ℤ◌};
ghost use Rattle.edit_script.specs.Changes.{is_within};
ghost use Rattle.edit_script.specs.Made.{CanMake, CanUnmake, IsJudged, MayMake, WasMade, with_change, with_made, without_change};
ghost use Rattle.edit_script.specs.Made.{without_made};
ghost use Rattle.edit_script.specs.Script.{IsTouched, all_but_last, trip_in};
ghost use Rattle.trip_model.specs.declared.limits.TheConstants.{LAST_DEPARTURE};
ghost use Rattle.edit_script.specs.declared.edit.Edit.TheVariants.{Cancel, Extra, Restore, Shift};
ghost use Rattle.edit_script.specs.declared.edit.TheConstants.{MOST_SHIFT};
ghost use Rattle.trip_model.specs.Timetable.{IsTimetable};

use crate::{EditFault, Touched, TripEnd};
use desk_io::{Memory, Text};
use std::alloc::Global;
use trip_model::{MOST_SLOTS, Timetable, Trip};

/// What an edit did to the trip in a slot.
#[derive(Drop)]
pub(crate) enum Made {
    /// It was moved by so many minutes.
    Moved(i16),
    /// It was cancelled.
    Cancelled,
    /// It runs again.
    Restored,
    /// It was added in a new last slot.
    Added { name: Text, trip: Trip },
}

/// What an edit of a trip was judged to do to the trip in a slot.
#[derive(Drop)]
pub struct Judged {
    pub slot: u16,
    pub(crate) made: Made,
}

/// An edit that stands or was undone: the number of its record, and what it did to the trip in a slot.
#[derive(Drop)]
pub(crate) struct Change {
    pub(crate) number: u32,
    pub(crate) slot: u16,
    pub(crate) made: Made,
}

// Whether so many minutes off its published times are within the tolerances of a trip.
fn may_be_off(trip: &Trip, sum: i16) -> bool
    ensures { result ≡ is_within trip.now sum }
{
    sum >= -i16::from(trip.early) && sum <= i16::from(trip.late)
}

// Whether a trip that is moved by so many minutes departs at midnight or later.
fn departs_in_day(trip: &Trip, by: i16) -> bool
    ensures { result ≡ int_le (pos 0) (pos trip.now.departs +ℤ by) }
{
    i32::from(trip.departs) + i32::from(by) >= 0
}

/// What a shift of a trip by so many minutes does.
pub(crate) fn judge_shift(timetable: &Timetable, trip: &Text, by: i16) -> Result<Judged, EditFault>
    requires moves { 0 < unsigned_abs by }
    requires most { unsigned_abs by ≤ MOST_SHIFT }
    ensures { IsJudged result timetable.now (Shift trip.now by) }
{
    let Some(slot) = timetable.find(trip.as_str()) else {
        return Err(EditFault::UnknownTrip);
    };
    let found = timetable.trip(slot);
    if !found.live {
        return Err(EditFault::NotLive);
    }
    let sum = i16::from(found.offset) + by;
    if !may_be_off(&found, sum) {
        return Err(EditFault::OutsideTolerance(sum));
    }
    if !departs_in_day(&found, by) {
        return Err(EditFault::BeforeMidnight);
    }
    let made = Made::Moved(by);
    Ok(Judged { slot, made })
}

/// What a cancelling of a trip does.
pub(crate) fn judge_cancel(timetable: &Timetable, trip: &Text) -> Result<Judged, EditFault>
    ensures { IsJudged result timetable.now (Cancel trip.now) }
{
    let Some(slot) = timetable.find(trip.as_str()) else {
        return Err(EditFault::UnknownTrip);
    };
    if !timetable.trip(slot).live {
        return Err(EditFault::NotLive);
    }
    let made = Made::Cancelled;
    Ok(Judged { slot, made })
}

/// What it does that a trip runs again.
pub(crate) fn judge_restore(timetable: &Timetable, trip: &Text) -> Result<Judged, EditFault>
    ensures { IsJudged result timetable.now (Restore trip.now) }
{
    let Some(slot) = timetable.find(trip.as_str()) else {
        return Err(EditFault::UnknownTrip);
    };
    if timetable.trip(slot).live {
        return Err(EditFault::NotCancelled);
    }
    let made = Made::Restored;
    Ok(Judged { slot, made })
}

/// What an extra trip does.
pub(crate) fn judge_extra(
    alloc: Global,
    timetable: &Timetable,
    trip: &Text,
    from: &Text,
    to: &Text,
    departs: u16,
    arrives: u16,
) -> Result<Judged, EditFault>
    requires departs { departs ≤ LAST_DEPARTURE }
    requires arrives { arrives ≤ LAST_DEPARTURE }
    ensures { IsJudged result timetable.now (Extra trip.now from.now to.now departs arrives) }
{
    if timetable.find(trip.as_str()).is_some() {
        return Err(EditFault::TripExists);
    }
    let Some(from) = timetable.find_place(from.as_str()) else {
        return Err(EditFault::UnknownPlace(TripEnd::From));
    };
    let Some(to) = timetable.find_place(to.as_str()) else {
        return Err(EditFault::UnknownPlace(TripEnd::To));
    };
    if timetable.class_name(from) != timetable.class_name(to) {
        return Err(EditFault::ClassesDiffer);
    }
    if arrives <= departs {
        return Err(EditFault::NotForward);
    }
    let slot = timetable.slots();
    if slot >= MOST_SLOTS {
        return Err(EditFault::TooManyTrips);
    }
    let name = Text::of(alloc, trip.as_str())?;
    let trip = Trip {
        from,
        to,
        departs,
        ends: arrives + timetable.layover(to),
        offset: 0,
        early: timetable.early(),
        late: timetable.late(),
        live: true,
    };
    let made = Made::Added { name, trip };
    Ok(Judged { slot, made })
}

// The trip in a slot, if the slot is there.
fn trip_at(timetable: &Timetable, slot: u16) -> Option<Trip>
    ensures trip { result ≡ trip_in timetable.now slot }
    ensures valid { IsTimetable timetable.now }
{
    if slot < timetable.slots() {
        Some(timetable.trip(slot))
    } else {
        None
    }
}

// Does it to the trip in a slot.
fn put(timetable: &mut Timetable, slot: u16, made: &Made) -> Result<(), Memory>
    requires can { CanMake timetable.old slot made.now }
    ensures made { IfOk result (λ _. timetable.new ≡ with_made timetable.old slot made.now) }
    ensures unchanged { OnErr result (timetable.new ≡ timetable.old) }
{
    match made {
        Made::Moved(by) => timetable.shift(slot, *by),
        Made::Cancelled => timetable.cancel(slot),
        Made::Restored => timetable.restore(slot),
        Made::Added { name, trip } => {
            timetable.push_trip(name.as_str(), *trip)?;
        }
    }
    Ok(())
}

// Takes it back.
fn take(timetable: &mut Timetable, slot: u16, made: &Made)
    requires can { CanUnmake timetable.old slot made.now }
    ensures { timetable.new ≡ without_made timetable.old slot made.now }
{
    match made {
        Made::Moved(by) => timetable.shift(slot, -*by),
        Made::Cancelled => timetable.restore(slot),
        Made::Restored => timetable.cancel(slot),
        Made::Added { name: _, trip: _ } => {
            timetable.pop_trip();
        }
    }
}

/// Makes a change, whose number stands from then on.
pub(crate) fn make(
    timetable: &mut Timetable,
    standing: &mut Vec<u32>,
    change: &Change,
) -> Result<Touched, Memory>
    requires can { MayMake timetable.old change.now }
    ensures made { IfOk result (λ _. timetable.new ≡ with_change timetable.old change.now) }
    ensures back { IfOk result (λ _. without_change timetable.new change.now ≡ timetable.old) }
    ensures was { IfOk result (λ _. WasMade timetable.new change.now) }
    ensures standing { IfOk result (λ _. standing.new.items ≡ standing.old.items ++ change.now.number ∷ []) }
    ensures touched { IfOk result (λ touched. IsTouched touched timetable.old timetable.new) }
    ensures slot { IfOk result (λ touched. touched.slot ≡ Some change.now.slot) }
    ensures unchanged { OnErr result (timetable.new ≡ timetable.old) }
    ensures unmoved { OnErr result (standing.new.items ≡ standing.old.items) }
{
    let before = trip_at(timetable, change.slot);
    standing.push(change.number)?;
    match put(timetable, change.slot, &change.made) {
        Ok(()) => Ok(Touched {
            slot: Some(change.slot),
            before,
            after: trip_at(timetable, change.slot),
        }),
        Err(memory) => {
            standing.pop();
            Err(memory)
        }
    }
}

/// Takes a change back, which is the last that was made.
pub(crate) fn unmake(timetable: &mut Timetable, standing: &mut Vec<u32>, change: &Change) -> Touched
    requires was { WasMade timetable.old change.now }
    ensures made { timetable.new ≡ without_change timetable.old change.now }
    ensures standing { standing.new.items ≡ all_but_last standing.old.items }
    ensures touched { IsTouched result timetable.old timetable.new }
{
    let before = trip_at(timetable, change.slot);
    take(timetable, change.slot, &change.made);
    standing.pop();
    Touched {
        slot: Some(change.slot),
        before,
        after: trip_at(timetable, change.slot),
    }
}
