ghost use Rattle.std.specs.Prelude.{◌≡◌, ◌<◌, ◌++◌, [], ◌∷◌, length, All, IfOk, IfSome, OnOk};
ghost use Rattle.trip_model.specs.Blocking.{IsBlock};
ghost use Rattle.trip_model.specs.Network.{Fits};
ghost use Rattle.trip_model.specs.Plain.{IsMove};
ghost use Rattle.deadhead_matrix.specs.Fitting.{network_of};
ghost use Rattle.joined_deficits.specs.Joined as spec;

use deadhead_matrix::Matrix;
use desk_io::Memory;
use std::alloc::Global;
use trip_model::{Move, Timetable};

/// What a vehicle does on its running board: a trip, or a deadhead that takes time.
#[derive(Clone, Copy)]
pub struct Leg {
    /// The slot of the trip, and None where the vehicle runs empty.
    pub slot: Option<u16>,
    /// From where to where it goes, and when.
    pub way: Move,
}

// The deadhead from the end of the trip of one slot to the start of that of another which fits after it.
fn deadhead(timetable: &Timetable, matrix: &Matrix, before: u16, slot: u16) -> Option<Move>
    requires before { before < length timetable.now.slots }
    requires slot { slot < length timetable.now.slots }
    requires places { length matrix.now.walks ≡ length timetable.now.places }
    requires fits { Fits (network_of timetable.now matrix.now) before slot }
    ensures { result ≡ spec.deadhead_between timetable.now matrix.now before slot }
{
    let trip = timetable.trip(before);
    let next = timetable.trip(slot);
    match matrix.minutes(trip.to, next.from) {
        Some(minutes) if minutes > 0 => Some(Move {
            from: trip.to,
            to: next.from,
            leaves: trip.ends,
            arrives: trip.ends + minutes as u16,
        }),
        _ => None,
    }
}

// Appends the leg of a deadhead, where there is one.
fn push_deadhead(legs: &mut Vec<Leg>, way: Option<Move>) -> Result<(), Memory>
    ensures { OnOk result (legs.new.items ≡ legs.old.items ++ spec.deadhead_legs way) }
{
    if let Some(way) = way {
        legs.push(Leg { slot: None, way })?;
    }
    Ok(())
}

// Appends the leg of a trip.
fn push_trip(legs: &mut Vec<Leg>, timetable: &Timetable, slot: u16) -> Result<(), Memory>
    requires { slot < length timetable.now.slots }
    ensures { OnOk result (legs.new.items ≡ legs.old.items ++ spec.trip_leg timetable.now slot ∷ []) }
{
    let way = timetable.trip(slot).as_move();
    legs.push(Leg {
        slot: Some(slot),
        way,
    })?;
    Ok(())
}

/// The legs of a block, trip by trip, each with the deadhead before it.
pub fn legs_of(
    alloc: Global,
    timetable: &Timetable,
    matrix: &Matrix,
    block: &[u16],
) -> Result<Vec<Leg>, Memory>
    requires slots { All (λ s. s < length timetable.now.slots) block.now }
    requires places { length matrix.now.walks ≡ length timetable.now.places }
    requires block { IsBlock (network_of timetable.now matrix.now) block.now }
    ensures legs { IfOk result (λ legs. legs.items ≡ spec.legs_of timetable.now matrix.now block.now) }
    ensures slots { IfOk result (λ legs. All (λ leg. IfSome leg.slot (λ s. s < length timetable.now.slots)) legs.items) }
    ensures moves { IfOk result (λ legs. All (λ leg. IsMove (length timetable.now.places) leg.way) legs.items) }
{
    // Its clause says that the timetable is valid.
    let _slots = timetable.slots();
    let mut legs = Vec::new(alloc);
    push_trip(&mut legs, timetable, block[0])?;
    for n in 1..block.len() {
        let way = deadhead(timetable, matrix, block[n - 1], block[n]);
        push_deadhead(&mut legs, way)?;
        push_trip(&mut legs, timetable, block[n])?;
    }
    Ok(legs)
}
