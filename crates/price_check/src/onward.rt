ghost use Rattle.std.specs.Prelude.{◌≡◌, ◌+◌, ◌*◌, ◌≤◌, length, IfSome};
ghost use Rattle.pair_rules.specs.Rules as rules;
ghost use Rattle.deadhead_matrix.specs.declared.limits.TheConstants.{LONGEST_WALK};
ghost use Rattle.assignment_model.specs.declared.limits.TheConstants.{MOST_DEADHEAD, VEHICLE_WEIGHT};
ghost use Rattle.assignment_model.specs.Prices.{weight};
ghost use Rattle.deadhead_matrix.specs.Fitting.{deadhead_network, name_at, network_of};
ghost use Rattle.trip_model.specs.Plain.{trip_moves};
ghost use Rattle.trip_model.specs.Timetable.{slot_names};
ghost use Rattle.price_check.specs.Claim.{Runs};

use assignment_model::VEHICLE_WEIGHT;
use deadhead_matrix::{Matrix, Walks};
use std::marker::Model;
use trip_model::Timetable;

/// The ways on from the trip of a slot, which runs: what they share is fetched once.
#[derive(Drop)]
pub struct Onward<'a> {
    timetable: &'a Timetable,
    matrix: &'a Matrix,
    slot: u16,
    ends: u16,
    walks: Walks<'a>,
    saved: u64,
}

impl<'a> Model for Onward<'a> {
    ghost use Rattle.price_check.specs.Onward.{OnwardView, IsOnward};

    ghost Value = { OnwardView };

    ghost view = { λ o. record { timetable = o.timetable.now; matrix = o.matrix.now; slot = o.slot } };

    ghost invariant = { λ o. IsOnward o.timetable.now o.matrix.now o.slot o.ends o.walks o.saved };
}

impl<'a> Onward<'a> {
    /// The ways on from the trip of a slot.
    pub fn from(timetable: &'a Timetable, matrix: &'a Matrix, slot: u16) -> Onward<'a>
        requires places { length timetable.now.places ≡ length matrix.now.walks }
        requires runs { Runs timetable.now slot }
        ensures { result ≡ record { timetable = timetable.now; matrix = matrix.now; slot = slot } }
    {
        let trip = timetable.trip(slot);
        Onward {
            timetable,
            matrix,
            slot,
            ends: trip.ends,
            walks: matrix.walks_from(trip.to),
            saved: VEHICLE_WEIGHT + u64::from(matrix.pull_in(trip.to)),
        }
    }

    /// The slot of that trip.
    pub fn slot(&self) -> u16
        ensures { result ≡ self.now.slot }
    {
        self.slot
    }

    // In how many minutes a vehicle runs empty to the trip of a slot, which runs, where it arrives in time.
    fn minutes_to(&self, slot: u16) -> Option<u32>
        requires { Runs self.now.timetable slot }
        ensures minutes { result
            ≡ (deadhead_network (trip_moves self.now.timetable.slots) self.now.matrix).empty self.now.slot slot }
        ensures bound { IfSome result (λ minutes. minutes ≤ LONGEST_WALK) }
    {
        let next = self.timetable.trip(slot);
        let spare = u32::from(next.departs.checked_sub(self.ends)?);
        let minutes = self.walks.to(next.from)?;
        if minutes <= spare {
            Some(minutes)
        } else {
            None
        }
    }

    /// Whether the rules of pairs allow the trip of a slot, which runs, next.
    pub fn is_allowed(&self, slot: u16) -> bool
        requires { Runs self.now.timetable slot }
        ensures { let names = slot_names self.now.timetable in
            result ≡ rules.allows self.now.matrix.rules (name_at names self.now.slot) (name_at names slot) }
    {
        let (first, second) = (self.timetable.name(self.slot), self.timetable.name(slot));
        self.matrix.rules().allows(first, second)
    }

    /// In how many minutes a vehicle runs empty to the trip of a slot, which runs, where it arrives in time and the rules of
    /// pairs allow it. They are asked of a trip that it reaches in time alone.
    pub fn empty_to(&self, slot: u16) -> Option<u32>
        requires { Runs self.now.timetable slot }
        ensures minutes { result ≡ (network_of self.now.timetable self.now.matrix).empty self.now.slot slot }
        ensures bound { IfSome result (λ minutes. minutes ≤ LONGEST_WALK) }
    {
        let minutes = self.minutes_to(slot)?;
        if self.is_allowed(slot) {
            Some(minutes)
        } else {
            None
        }
    }

    /// What it would save to make the trip of a slot, which runs, next, if no rule of pairs forbids it: the weight of the pair,
    /// where the vehicle arrives in time.
    pub fn timely_weight(&self, slot: u16) -> Option<u64>
        requires { Runs self.now.timetable slot }
        ensures weight { result
            ≡ weight (deadhead_network (trip_moves self.now.timetable.slots) self.now.matrix) self.now.slot slot }
        ensures bound { IfSome result (λ weight. weight ≤ VEHICLE_WEIGHT + 2 * MOST_DEADHEAD) }
    {
        let minutes = self.minutes_to(slot)?;
        let out = self.matrix.pull_out(self.timetable.trip(slot).from);
        Some(self.saved + u64::from(out) - u64::from(minutes))
    }

    /// What it saves to make the trip of a slot, which runs, next: the weight of the pair, where it fits.
    pub fn weight_to(&self, slot: u16) -> Option<u64>
        requires { Runs self.now.timetable slot }
        ensures weight { result ≡ weight (network_of self.now.timetable self.now.matrix) self.now.slot slot }
        ensures bound { IfSome result (λ weight. weight ≤ VEHICLE_WEIGHT + 2 * MOST_DEADHEAD) }
    {
        let weight = self.timely_weight(slot)?;
        if self.is_allowed(slot) {
            Some(weight)
        } else {
            None
        }
    }
}
