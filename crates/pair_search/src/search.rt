ghost use Rattle.std.specs.Prelude.{◌≡◌, ℕ, ◌+◌, ◌*◌, ◌≤◌, Bool, false, length, Option, None, vec_len, vec_capacity, replicate};
ghost use Rattle.assignment_model.specs.Paths.{AreNextTrips, IsPath};
ghost use Rattle.assignment_model.specs.Prices.{Plan};
ghost use Rattle.trip_model.specs.declared.limits.TheConstants.{MOST_SLOTS};
ghost use Rattle.trip_model.specs.Links.{next_of, before_of};
ghost use Rattle.pair_search.specs.Arranged.{slots_of, found_by, bare, all_found, turned_plan};
ghost use Rattle.pair_search.specs.Assignment.{AreWeights, IsMatched, Covers, MayBegin};
ghost use Rattle.pair_search.specs.Determined.{found, found_each};
ghost use Rattle.pair_search.specs.Inverse.{IsInverse};
ghost use Rattle.pair_search.specs.Turned.{MayBeginTurned, IsFoundTurned};
ghost use Rattle.pair_search.specs.Side.{side_slots, side_weight, place_weight};
ghost use Rattle.pair_search.specs.Order.{slot_at, IsRenaming};
ghost use Rattle.pair_search.specs.Visits.{AreSearches, SearchesOnce, Takes};

use crate::invert::invert;
use crate::links::{read_links, write_links};
use crate::lists::{Lists, Placed};
use crate::looks::Looks;
use crate::order::Column;
use crate::relink::relink;
use crate::rename::{link_columns, link_places, price_columns, price_places};
use crate::shift::shift;
use crate::side::Side;
use crate::tree::Tree;
use desk_io::Steps;
use std::sync::ledger::Ledger;
use trip_model::Links;

// Searches for the least fall of prices with which a row is linked, or stays alone without a price.
fn search<L: Ledger>(
    side: &Side<'_>,
    a: u16,
    next: &mut [Option<u16>],
    leave: &mut [u64],
    enter: &mut [u64],
    before: &mut [Option<u16>],
    tree: &mut Tree,
    looks: &mut Looks,
    steps: &mut Steps<L>,
)
    requires few { side_slots side.now ≤ MOST_SLOTS }
    requires sound { AreWeights (place_weight side.now) (side_slots side.now) }
    requires next { length next.old ≡ side_slots side.now }
    requires leave { length leave.old ≡ side_slots side.now }
    requires enter { length enter.old ≡ side_slots side.now }
    requires before { length before.old ≡ side_slots side.now }
    requires inverse { IsInverse (length next.old) next.old before.old }
    requires begins { (out : ℕ → Bool) × (b : Option ℕ)
        × MayBegin (place_weight side.now) (side_slots side.now) out a b next.old leave.old enter.old }
    ensures inverse { IsInverse (length next.new) next.new before.new }
    ensures path { IsPath (next_of next.old) (before_of next.old) (next_of next.new) a }
    ensures matched { (out : ℕ → Bool) (b : Option ℕ)
        → MayBegin (place_weight side.now) (side_slots side.now) out a b next.old leave.old enter.old
        → IsMatched (place_weight side.now) out None b next.new leave.new enter.new }
    ensures covers { (out : ℕ → Bool) (b : Option ℕ)
        → MayBegin (place_weight side.now) (side_slots side.now) out a b next.old leave.old enter.old
        → Covers (place_weight side.now) out None leave.new enter.new }
    ensures plan { ◌≡◌ {A = Plan} (record { next = next.new; leave = leave.new; enter = enter.new })
        (found (place_weight side.now) a (record { next = next.old; leave = leave.old; enter = enter.old })) }
    ensures visited { Takes (SearchesOnce side.now) looks.old.list looks.new.list steps.old steps.new }
    ensures counted { steps.new ≤ steps.old + side_slots side.now * side_slots side.now + side_slots side.now }
    ensures alone { next.old ≡ replicate (side_slots side.now) None → steps.new ≤ steps.old + side_slots side.now }
{
    tree.begin(side, a, leave, enter, looks, steps);
    let grown = tree.grow(side, before, leave, enter, looks, steps);
    shift(tree, grown, next, leave, enter);
    relink(grown.end, &tree.parent, &tree.rows, next, before);
}

// Adds one row after the other to links that link none, each by a search over the rows added so far: the one that stands last
// in an order first.
fn link_rows<L: Ledger>(
    side: &Side<'_>,
    departures: &[Column],
    next: &mut [Option<u16>],
    leave: &mut [u64],
    enter: &mut [u64],
    before: &mut [Option<u16>],
    tree: &mut Tree,
    looks: &mut Looks,
    steps: &mut Steps<L>,
)
    requires few { side_slots side.now ≤ MOST_SLOTS }
    requires sound { AreWeights (place_weight side.now) (side_slots side.now) }
    requires renaming { (turn : ℕ → ℕ) × IsRenaming (side_slots side.now) (slot_at (side_slots side.now) departures.now) turn }
    requires all { length departures.now ≡ side_slots side.now }
    requires next { next.old ≡ replicate (side_slots side.now) None }
    requires leave { leave.old ≡ replicate (side_slots side.now) 0 }
    requires enter { enter.old ≡ replicate (side_slots side.now) 0 }
    requires before { length before.old ≡ side_slots side.now }
    ensures matched { IsMatched (place_weight side.now) (λ _. false) None None next.new leave.new enter.new }
    ensures covers { Covers (place_weight side.now) (λ _. false) None leave.new enter.new }
    ensures plan { ◌≡◌ {A = Plan} (record { next = next.new; leave = leave.new; enter = enter.new })
        (found_each (place_weight side.now) (slots_of departures.now) (bare (side_slots side.now))) }
    ensures visited { Takes (AreSearches (side_slots side.now) side.now) looks.old.list looks.new.list steps.old steps.new }
    ensures counted { steps.new ≤ steps.old + side_slots side.now * side_slots side.now * side_slots side.now }
{
    let slots = side.slots();
    invert(next, before);
    for added in 0..slots {
        let last = slots - 1 - added;
        let a = departures[last as usize].slot;
        search(side, a, next, leave, enter, before, tree, looks, steps);
    }
}

impl Placed {
    // Searches by the places of columns, for links and prices by their slots.
    fn search<L: Ledger>(
        &mut self,
        side: &Side<'_>,
        a: u16,
        next: &mut [Option<u16>],
        leave: &mut [u64],
        enter: &mut [u64],
        looks: &mut Looks,
        steps: &mut Steps<L>,
    )
        requires few { side_slots side.now ≤ MOST_SLOTS }
        requires sound { AreWeights (side_weight side.now) (side_slots side.now) }
        requires next { length next.old ≡ side_slots side.now }
        requires leave { length leave.old ≡ side_slots side.now }
        requires enter { length enter.old ≡ side_slots side.now }
        requires begins { (out : ℕ → Bool) × (b : Option ℕ)
            × MayBegin (side_weight side.now) (side_slots side.now) out a b next.old leave.old enter.old }
        ensures path { IsPath (next_of next.old) (before_of next.old) (next_of next.new) a }
        ensures matched { (out : ℕ → Bool) (b : Option ℕ)
            → MayBegin (side_weight side.now) (side_slots side.now) out a b next.old leave.old enter.old
            → IsMatched (side_weight side.now) out None b next.new leave.new enter.new }
        ensures covers { (out : ℕ → Bool) (b : Option ℕ)
            → MayBegin (side_weight side.now) (side_slots side.now) out a b next.old leave.old enter.old
            → Covers (side_weight side.now) out None leave.new enter.new }
        ensures plan { ◌≡◌ {A = Plan} (record { next = next.new; leave = leave.new; enter = enter.new })
            (found_by (slots_of side.now.columns) (side_weight side.now) a
            (record { next = next.old; leave = leave.old; enter = enter.old })) }
        ensures visited { Takes (SearchesOnce side.now) looks.old.list looks.new.list steps.old steps.new }
        ensures counted { steps.new ≤ steps.old + side_slots side.now * side_slots side.now + side_slots side.now }
    {
        self.set_slots(side.slots());
        let placed = self.links.as_mut_slice();
        let entering = self.enter.as_mut_slice();
        let before = self.before.as_mut_slice();
        link_places(side, next, placed);
        price_places(side, enter, entering);
        invert(placed, before);
        search(
            side,
            a,
            placed,
            leave,
            entering,
            before,
            &mut self.tree,
            looks,
            steps,
        );
        link_columns(side, placed, next);
        price_columns(side, entering, enter);
    }

    // Links all rows by the places of columns. Links and prices are named by slots when all rows have been added.
    fn link_all<L: Ledger>(
        &mut self,
        side: &Side<'_>,
        departures: &[Column],
        next: &mut [Option<u16>],
        leave: &mut [u64],
        enter: &mut [u64],
        looks: &mut Looks,
        steps: &mut Steps<L>,
    )
        requires renaming { (turn : ℕ → ℕ) × IsRenaming (side_slots side.now) (slot_at (side_slots side.now) departures.now) turn }
        requires all { length departures.now ≡ side_slots side.now }
        requires next { length next.old ≡ side_slots side.now }
        requires leave { leave.old ≡ replicate (side_slots side.now) 0 }
        requires enter { length enter.old ≡ side_slots side.now }
        ensures matched { IsMatched (side_weight side.now) (λ _. false) None None next.new leave.new enter.new }
        ensures covers { Covers (side_weight side.now) (λ _. false) None leave.new enter.new }
        ensures plan { ◌≡◌ {A = Plan} (record { next = next.new; leave = leave.new; enter = enter.new })
            (all_found (slots_of side.now.columns) (side_weight side.now) (slots_of departures.now)) }
        ensures visited { Takes (AreSearches (side_slots side.now) side.now) looks.old.list looks.new.list steps.old steps.new }
        ensures counted { steps.new ≤ steps.old + side_slots side.now * side_slots side.now * side_slots side.now }
    {
        self.set_slots(side.slots());
        let placed = self.links.as_mut_slice();
        let entering = self.enter.as_mut_slice();
        let before = self.before.as_mut_slice();
        link_rows(
            side,
            departures,
            placed,
            leave,
            entering,
            before,
            &mut self.tree,
            looks,
            steps,
        );
        link_columns(side, placed, next);
        price_columns(side, entering, enter);
    }
}

/// Searches over links whose slots are the rows.
pub fn search_links<L: Ledger>(
    side: &Side<'_>,
    a: u16,
    links: &mut Links,
    leave: &mut Vec<u64>,
    enter: &mut Vec<u64>,
    lists: &mut Lists,
    looks: &mut Looks,
    steps: &mut Steps<L>,
)
    requires links { length links.old ≡ side_slots side.now }
    requires leave { vec_len leave.old ≡ side_slots side.now }
    requires enter { vec_len enter.old ≡ side_slots side.now }
    requires begins { (out : ℕ → Bool) × (b : Option ℕ)
        × MayBegin (side_weight side.now) (side_slots side.now) out a b links.old leave.old.items enter.old.items }
    ensures links { length links.new ≡ length links.old }
    ensures leave { (vec_len leave.new ≡ vec_len leave.old) × (vec_capacity leave.new ≡ vec_capacity leave.old) }
    ensures enter { (vec_len enter.new ≡ vec_len enter.old) × (vec_capacity enter.new ≡ vec_capacity enter.old) }
    ensures path { IsPath (next_of links.old) (before_of links.old) (next_of links.new) a }
    ensures matched { (out : ℕ → Bool) (b : Option ℕ)
        → MayBegin (side_weight side.now) (side_slots side.now) out a b links.old leave.old.items enter.old.items
        → IsMatched (side_weight side.now) out None b links.new leave.new.items enter.new.items }
    ensures covers { (out : ℕ → Bool) (b : Option ℕ)
        → MayBegin (side_weight side.now) (side_slots side.now) out a b links.old leave.old.items enter.old.items
        → Covers (side_weight side.now) out None leave.new.items enter.new.items }
    ensures plan { ◌≡◌ {A = Plan} (record { next = links.new; leave = leave.new.items; enter = enter.new.items })
        (found_by (slots_of side.now.columns) (side_weight side.now) a
        (record { next = links.old; leave = leave.old.items; enter = enter.old.items })) }
    ensures visited { Takes (SearchesOnce side.now) looks.old.list looks.new.list steps.old steps.new }
    ensures counted { steps.new ≤ steps.old + side_slots side.now * side_slots side.now + side_slots side.now }
{
    lists.set_slots(side.slots());
    let next = lists.next.as_mut_slice();
    read_links(links, next);
    lists
        .placed
        .search(side, a, next, leave, enter, looks, steps);
    write_links(next, links);
}

/// Searches over links whose slots are the columns: what is before each is linked anew.
pub fn search_befores<L: Ledger>(
    side: &Side<'_>,
    b: u16,
    links: &mut Links,
    leave: &mut Vec<u64>,
    enter: &mut Vec<u64>,
    lists: &mut Lists,
    looks: &mut Looks,
    steps: &mut Steps<L>,
)
    requires links { length links.old ≡ side_slots side.now }
    requires leave { vec_len leave.old ≡ side_slots side.now }
    requires enter { vec_len enter.old ≡ side_slots side.now }
    requires apart { AreNextTrips links.old }
    requires begins { (a : Option ℕ)
        × MayBeginTurned (side_weight side.now) (side_slots side.now) b a links.old leave.old.items enter.old.items }
    ensures links { length links.new ≡ length links.old }
    ensures leave { (vec_len leave.new ≡ vec_len leave.old) × (vec_capacity leave.new ≡ vec_capacity leave.old) }
    ensures enter { (vec_len enter.new ≡ vec_len enter.old) × (vec_capacity enter.new ≡ vec_capacity enter.old) }
    ensures found { (a : Option ℕ)
        → MayBeginTurned (side_weight side.now) (side_slots side.now) b a links.old leave.old.items enter.old.items
        → IsFoundTurned (side_weight side.now) b a links.old links.new leave.new.items enter.new.items }
    ensures plan { ◌≡◌ {A = Plan} (record { next = links.new; leave = leave.new.items; enter = enter.new.items })
        (turned_plan (found_by (slots_of side.now.columns) (side_weight side.now) b
        (turned_plan (record { next = links.old; leave = leave.old.items; enter = enter.old.items })))) }
    ensures visited { Takes (SearchesOnce side.now) looks.old.list looks.new.list steps.old steps.new }
    ensures counted { steps.new ≤ steps.old + side_slots side.now * side_slots side.now + side_slots side.now }
{
    lists.set_slots(side.slots());
    let next = lists.next.as_mut_slice();
    let turned = lists.turned.as_mut_slice();
    read_links(links, turned);
    invert(turned, next);
    lists
        .placed
        .search(side, b, next, enter, leave, looks, steps);
    invert(next, turned);
    write_links(turned, links);
}

/// Adds one row after the other to links that link none, each by a search over the rows added so far: the one that stands
/// last in an order first.
pub fn link_all<L: Ledger>(
    side: &Side<'_>,
    departures: &[Column],
    links: &mut Links,
    leave: &mut Vec<u64>,
    enter: &mut Vec<u64>,
    lists: &mut Lists,
    looks: &mut Looks,
    steps: &mut Steps<L>,
)
    requires links { links.old ≡ replicate (side_slots side.now) None }
    requires leave { leave.old.items ≡ replicate (side_slots side.now) 0 }
    requires enter { enter.old.items ≡ replicate (side_slots side.now) 0 }
    requires renaming { (turn : ℕ → ℕ) × IsRenaming (side_slots side.now) (slot_at (side_slots side.now) departures.now) turn }
    requires all { length departures.now ≡ side_slots side.now }
    ensures links { length links.new ≡ side_slots side.now }
    ensures leave { (vec_len leave.new ≡ side_slots side.now) × (vec_capacity leave.new ≡ vec_capacity leave.old) }
    ensures enter { (vec_len enter.new ≡ side_slots side.now) × (vec_capacity enter.new ≡ vec_capacity enter.old) }
    ensures matched { IsMatched (side_weight side.now) (λ _. false) None None links.new leave.new.items enter.new.items }
    ensures covers { Covers (side_weight side.now) (λ _. false) None leave.new.items enter.new.items }
    ensures plan { ◌≡◌ {A = Plan} (record { next = links.new; leave = leave.new.items; enter = enter.new.items })
        (all_found (slots_of side.now.columns) (side_weight side.now) (slots_of departures.now)) }
    ensures visited { Takes (AreSearches (side_slots side.now) side.now) looks.old.list looks.new.list steps.old steps.new }
    ensures counted { steps.new ≤ steps.old + side_slots side.now * side_slots side.now * side_slots side.now }
{
    lists.set_slots(side.slots());
    let next = lists.next.as_mut_slice();
    lists
        .placed
        .link_all(side, departures, next, leave, enter, looks, steps);
    write_links(next, links);
}
