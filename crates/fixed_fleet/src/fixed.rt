ghost use Rattle.std.specs.Prelude.{◌≡◌, ◌≢◌, ℕ, ◌<◌, ◌≤◌, true, pos, ◌+ℤ◌, length, slice_index_or, All, IfOk, IfSome, IfNone};
ghost use Rattle.trip_model.specs.Blocking.{IsFewest};
ghost use Rattle.trip_model.specs.Fleet.{deficit_sum};
ghost use Rattle.trip_model.specs.Links.{AreLinks, link_count, blocks_along};
ghost use Rattle.trip_model.specs.Order as order;
ghost use Rattle.trip_model.specs.Plain.{plain_network, trip_moves};
ghost use Rattle.trip_model.specs.Timetable.{slot_at};
ghost use Rattle.fixed_fleet.specs.Rule as rule;

use crate::laws::{plain_blocks_law, rule_law};
use desk_io::Memory;
use std::alloc::Global;
use trip_model::laws::plain_law;
use trip_model::{Links, Timetable, by_departure, by_end};

// The first position, from one on, whose trip ends at a place; behind the last one where none does.
fn next_to(timetable: &Timetable, ended: &[u16], place: u16, from: usize) -> usize
    requires within { All (λ s. s < length timetable.now.slots) ended.now }
    requires from { from ≤ length ended.now }
    ensures on { from ≤ result }
    ensures end { result ≤ length ended.now }
    ensures passed { (k : ℕ) → from ≤ k → k < result → (slot_at timetable.now (slice_index_or ended.now k 0)).trip.to ≢ place }
    ensures found { result < length ended.now → (slot_at timetable.now (slice_index_or ended.now result 0)).trip.to ≡ place }
{
    for at in from..ended.len() {
        if timetable.trip(ended[at]).to == place {
            return at;
        }
    }
    ended.len()
}

// The slot at a position, where there is one and its trip has ended by a minute.
fn ended_by(timetable: &Timetable, ended: &[u16], at: usize, minute: u16) -> Option<u16>
    requires within { All (λ s. s < length timetable.now.slots) ended.now }
    ensures at { IfSome result (λ s. (at < length ended.now) × (s ≡ slice_index_or ended.now at 0)) }
    ensures in_time { IfSome result (λ s. (slot_at timetable.now s).trip.ends ≤ minute) }
    ensures none { IfNone result (at < length ended.now → minute < (slot_at timetable.now (slice_index_or ended.now at 0)).trip.ends) }
{
    let before = *ended.get(at)?;
    if timetable.trip(before).ends <= minute {
        Some(before)
    } else {
        None
    }
}

/// Links the trips that run first in, first out. They are taken by departure, then by slot; each follows on the trip that
/// ends where it begins, at or before its departure, has no next trip yet and has ended first; of those that ended
/// together on the one of the least slot; where there is none it begins a block. For each place it passes once over the
/// slots in order of their ends.
pub fn fixed_links(alloc: Global, timetable: &Timetable) -> Result<Links, Memory>
    ensures rule { IfOk result (λ links. links ≡ rule.first_in_first_out (trip_moves timetable.now.slots)) }
    ensures slots { IfOk result (λ links. length links ≡ length timetable.now.slots) }
    ensures links { IfOk result (AreLinks (plain_network (trip_moves timetable.now.slots))) }
    // The trips less the links are the sum of the maxima.
    ensures count { IfOk result (λ links. pos (length (order.by_departure (trip_moves timetable.now.slots)))
        ≡ (pos (link_count links) +ℤ deficit_sum timetable.now)) }
    // No blocking without deadheads has fewer blocks.
    ensures fewest { IfOk result (λ links. IsFewest (plain_network (trip_moves timetable.now.slots))
        (blocks_along links (order.by_departure (trip_moves timetable.now.slots)))) }
    ensures number { IfOk result (λ links. pos (length (blocks_along links (order.by_departure (trip_moves timetable.now.slots))))
        ≡ deficit_sum timetable.now) }
{
    plain_law();
    plain_blocks_law();
    rule_law();
    let mut links = Links::open(alloc, timetable.slots())?;
    // A position of each place in the order of ends: before it the vehicles have gone on, and from there on none has.
    let mut fronts = vec![in alloc; 0usize; usize::from(timetable.places())]?;
    let ended = by_end(alloc, timetable)?;
    let order = by_departure(alloc, timetable)?;
    for slot in &order {
        let trip = timetable.trip(*slot);
        let place = usize::from(trip.from);
        let at = next_to(timetable, &ended, trip.from, fronts[place]);
        fronts[place] = at;
        if let Some(before) = ended_by(timetable, &ended, at, trip.departs) {
            links.set(before, Some(*slot));
            fronts[place] = at + 1;
        }
    }
    Ok(links)
}
