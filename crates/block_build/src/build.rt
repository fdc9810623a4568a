ghost use Rattle.std.specs.Prelude.{◌≡◌, ℕ, ◌<◌, false, length, All, IfOk, slice_index_or};
ghost use Rattle.std.specs.List.{list_any};
ghost use Rattle.trip_model.specs.Blocking.{IsBlocking};
ghost use Rattle.trip_model.specs.Links.{AreLinks, next_of, leads_to, is_first, block_from, blocks_along};
ghost use Rattle.trip_model.specs.Order as order;
ghost use Rattle.trip_model.specs.Plain.{timely_network, trip_moves};

use crate::blocks::{Block, Blocks};
use desk_io::Memory;
use std::alloc::Global;
use trip_model::laws::{departure_order_law, links_law, plain_law};
use trip_model::{Links, MINUTES, Timetable, by_departure};

// For each slot, whether its trip is the next of one.
fn followers(alloc: Global, links: &Links) -> Result<Vec<bool>, Memory>
    requires { (i j : ℕ) → next_of links.now i ≡ Some j → j < length links.now }
    ensures marks { IfOk result (λ marks. (s : ℕ) → s < length links.now
        → slice_index_or marks.items s false ≡ list_any (leads_to s) links.now) }
    ensures count { IfOk result (λ marks. length marks.items ≡ length links.now) }
{
    let mut marks = vec![in alloc; false; usize::from(links.slots())]?;
    for slot in 0..links.slots() {
        if let Some(next) = links.next(slot) {
            marks[usize::from(next)] = true;
        }
    }
    Ok(marks)
}

// The block that begins with a slot. It has no more trips than there are minutes, since departures rise along links.
fn block_from(alloc: Global, links: &Links, first: u16) -> Result<Block, Memory>
    requires first { first < length links.now }
    requires within { (i j : ℕ) → next_of links.now i ≡ Some j → j < length links.now }
    ensures slots { IfOk result (λ block. block ≡ block_from links.now first) }
    ensures within { IfOk result (All (λ s. s < length links.now)) }
{
    let mut slots = Vec::new(alloc);
    let mut at = Some(first);
    for _ in 0..MINUTES {
        let Some(slot) = at else { break };
        slots.push(slot)?;
        at = links.next(slot);
    }
    Ok(Block { slots })
}

/// The blocks that links make: each goes on along the links to the end. They are ordered by the departures of their first
/// trips, and those of one departure by their slots. Each link has to lead to a trip that begins at or after the end of the one
/// before.
pub fn blocks_of(alloc: Global, timetable: &Timetable, links: &Links) -> Result<Blocks, Memory>
    requires slots { length links.now ≡ length timetable.now.slots }
    requires links { AreLinks (timely_network (trip_moves timetable.now.slots)) links.now }
    ensures blocks { IfOk result (λ blocks. blocks ≡ blocks_along links.now (order.by_departure (trip_moves timetable.now.slots))) }
    ensures blocking { IfOk result (IsBlocking (timely_network (trip_moves timetable.now.slots))) }
    ensures within { IfOk result (All (All (λ s. s < length timetable.now.slots))) }
{
    links_law();
    departure_order_law();
    plain_law();
    let mut blocks = Vec::with_capacity(alloc, usize::from(timetable.slots()))?;
    let order = by_departure(alloc, timetable)?;
    let follows = followers(alloc, links)?;
    for slot in &order {
        if !follows[usize::from(*slot)] {
            blocks.push(block_from(alloc, links, *slot)?)?;
        }
    }
    Ok(Blocks { blocks })
}
