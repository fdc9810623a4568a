ghost use Rattle.std.specs.Prelude.{◌≡◌, ℕ, ◌<◌, length, map, slice_set, Some, option_and_then, All, IfOk, IfSome, MatchOption};
ghost use Rattle.std.specs.List.{range_with_len};
ghost use Rattle.feed_likings.specs.Likings.{nexts_by};
ghost use Rattle.feed_likings.specs.Numbered as spec;

use crate::alike::first_alike;
use crate::fields::Fields;
use desk_io::Memory;
use std::alloc::Global;
use trip_model::{Timetable, by_departure};

// Notes a slot that comes before those that were noted. Its next is the first of its number, and then it is that first itself.
fn note(nexts: &mut Vec<Option<u16>>, firsts: &mut Vec<Option<u16>>, slot: u16, number: Option<u16>)
    requires slot { slot < length nexts.old.items }
    requires number { IfSome number (λ b. b < length firsts.old.items) }
    ensures nexts { nexts.new.items ≡ slice_set nexts.old.items slot (option_and_then (spec.number_at firsts.old.items) number) }
    ensures firsts { MatchOption number (firsts.new.items ≡ firsts.old.items)
        (λ b. firsts.new.items ≡ slice_set firsts.old.items b (Some slot)) }
{
    let place = usize::from(slot);
    match number {
        Some(number) => {
            let first = usize::from(number);
            nexts[place] = firsts[first];
            firsts[first] = Some(slot);
        }
        None => nexts[place] = None,
    }
}

// For each slot the next one in an order that has the same number.
fn nexts_numbered(
    alloc: Global,
    numbers: &[Option<u16>],
    order: &[u16],
) -> Result<Vec<Option<u16>>, Memory>
    requires within { All (λ s. s < length numbers.now) order.now }
    requires numbers { (s b : ℕ) → spec.number_at numbers.now s ≡ Some b → b < length numbers.now }
    ensures { IfOk result (λ nexts. nexts.items
        ≡ map (spec.next_numbered numbers.now order.now) (range_with_len 0 (length numbers.now))) }
{
    let mut firsts = vec![in alloc; None; numbers.len()]?;
    let mut nexts = vec![in alloc; None; numbers.len()]?;
    let mut left = order.len();
    while left > 0 {
        left -= 1;
        let slot = order[left];
        note(&mut nexts, &mut firsts, slot, numbers[usize::from(slot)]);
    }
    Ok(nexts)
}

/// The next trips of all slots of a timetable in their stated blocks, by the `block_id` of the slots.
pub(crate) fn stated_nexts(
    alloc: Global,
    names: &Fields,
    timetable: &Timetable,
) -> Result<Vec<Option<u16>>, Memory>
    ensures { IfOk result (λ nexts. nexts.items ≡ nexts_by names.now timetable.now) }
{
    let numbers = first_alike(alloc, names, timetable.slots())?;
    let order = by_departure(alloc, timetable)?;
    nexts_numbered(alloc, &numbers, &order)
}
