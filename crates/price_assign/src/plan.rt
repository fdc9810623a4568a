ghost use Rattle.std.specs.Prelude.{◌≡◌, ◌+◌, ◌*◌, ◌<◌, ◌≤◌, [], length, true, false, Option, None, Some, IfOk};
ghost use Rattle.assignment_model.specs.Paths.{IsLeftPath, IsRightPath};
ghost use Rattle.assignment_model.specs.Prices.{IsCertified, IsLoose};
ghost use Rattle.pair_graph.specs.Pairs.{pairs_network};
ghost use Rattle.pair_search.specs.Visits.{AreOfSide, AreSearches, SearchesOnce, Takes};
ghost use Rattle.price_assign.specs.Found.{found_left, found_right, solved};
ghost use Rattle.price_assign.specs.Plans.{with_slots, with_entry};
ghost use Rattle.trip_model.specs.declared.limits.TheConstants.{MOST_SLOTS};

use desk_io::{Memory, Steps};
use pair_graph::Pairs;
use pair_search::{Departures, Lists, Looks, Order, Side, link_all, search_befores, search_links};
use std::alloc::Global;
use std::marker::Model;
use std::sync::ledger::Ledger;
use trip_model::{Links, MOST_SLOTS};

/// For each slot the trip that its vehicle makes next, the price of leaving its trip and the price of entering it.
pub struct Plan {
    links: Links,
    leave: Vec<u64>,
    enter: Vec<u64>,
}

impl Drop for Plan {
    fn drop(self) {
        let Self {
            links: _,
            leave: _,
            enter: _,
        } = self;
    }
}

impl Model for Plan {
    ghost use Rattle.assignment_model.specs.Prices as prices;
    ghost use Rattle.std.specs.Prelude.{◌≡◌, ◌≤◌, length, vec_len, vec_capacity};
    ghost use Rattle.trip_model.specs.declared.limits.TheConstants.{MOST_SLOTS};

    ghost Value = { prices.Plan };

    ghost view = { λ p. record { next = p.links; leave = p.leave.items; enter = p.enter.items } };

    ghost invariant = { λ p. (length p.links ≤ MOST_SLOTS) × (vec_len p.leave ≡ length p.links) × (vec_len p.enter ≡ length p.links)
        × (MOST_SLOTS ≤ vec_capacity p.leave) × (MOST_SLOTS ≤ vec_capacity p.enter) };
}

impl Plan {
    /// A plan without slots. It takes the memory for as many as there may be.
    pub(crate) fn open(alloc: Global) -> Result<Plan, Memory>
        ensures { IfOk result (λ plan. plan ≡ record { next = []; leave = []; enter = [] }) }
    {
        Ok(Plan {
            links: Links::open(alloc, 0)?,
            leave: Vec::with_capacity(alloc, usize::from(MOST_SLOTS))?,
            enter: Vec::with_capacity(alloc, usize::from(MOST_SLOTS))?,
        })
    }

    /// The next trips.
    pub fn links(&self) -> &Links
        ensures { result.now ≡ self.now.next }
    {
        &self.links
    }

    /// The prices of leaving, by slot.
    pub fn leave(&self) -> &[u64]
        ensures prices { result.now ≡ self.now.leave }
        ensures slots { length result.now ≡ length self.now.next }
    {
        self.leave.as_slice()
    }

    /// The prices of entering, by slot.
    pub fn enter(&self) -> &[u64]
        ensures prices { result.now ≡ self.now.enter }
        ensures slots { length result.now ≡ length self.now.next }
    {
        self.enter.as_slice()
    }

    /// Cuts the plan to so many slots, or adds slots without a next trip and without prices.
    pub(crate) fn set_slots(&mut self, slots: u16)
        requires { slots ≤ MOST_SLOTS }
        ensures { self.new ≡ with_slots self.old slots }
    {
        self.links.set_slots(slots);
        let _ = self.leave.resize(usize::from(slots), 0);
        let _ = self.enter.resize(usize::from(slots), 0);
    }

    /// Gives a slot another next trip and other prices. It asks nothing of them.
    pub(crate) fn put(&mut self, slot: u16, next: Option<u16>, leave: u64, enter: u64)
        requires { slot < length self.old.next }
        ensures { self.new ≡ with_entry self.old slot next leave enter }
    {
        self.links.set(slot, next);
        self.leave[slot as usize] = leave;
        self.enter[slot as usize] = enter;
    }

    /// Adds the leaving side of `a`, by a search that goes out from it.
    pub(crate) fn search_left<L: Ledger>(
        &mut self,
        pairs: &Pairs<'_>,
        a: u16,
        b: Option<u16>,
        order: &mut Order,
        lists: &mut Lists,
        looks: &mut Looks,
        steps: &mut Steps<L>,
    )
        requires slots { length self.old.next ≡ length pairs.now.moves }
        requires loose { IsLoose (pairs_network pairs.now) self.old (Some a) b }
        ensures loose { IsLoose (pairs_network pairs.now) self.new None b }
        ensures path { IsLeftPath self.old.next self.new.next a }
        ensures plan { self.new ≡ found_left pairs.now a b self.old }
        ensures visited { Takes (AreOfSide SearchesOnce pairs.now false b) looks.old.list looks.new.list steps.old steps.new }
        ensures counted { steps.new ≤ steps.old + length pairs.now.moves * length pairs.now.moves + length pairs.now.moves }
    {
        // Its clauses say that the network is one of one day, along which departures rise.
        let _slots = pairs.slots();
        order.arrange(pairs, false, b);
        let side = Side::of(pairs, false, b, order);
        search_links(
            &side,
            a,
            &mut self.links,
            &mut self.leave,
            &mut self.enter,
            lists,
            looks,
            steps,
        );
    }

    /// Adds the entering side of `b`, by a search that goes out from it.
    pub(crate) fn search_right<L: Ledger>(
        &mut self,
        pairs: &Pairs<'_>,
        b: u16,
        a: Option<u16>,
        order: &mut Order,
        lists: &mut Lists,
        looks: &mut Looks,
        steps: &mut Steps<L>,
    )
        requires slots { length self.old.next ≡ length pairs.now.moves }
        requires loose { IsLoose (pairs_network pairs.now) self.old a (Some b) }
        ensures loose { IsLoose (pairs_network pairs.now) self.new a None }
        ensures path { IsRightPath self.old.next self.new.next b }
        ensures plan { self.new ≡ found_right pairs.now b a self.old }
        ensures visited { Takes (AreOfSide SearchesOnce pairs.now true a) looks.old.list looks.new.list steps.old steps.new }
        ensures counted { steps.new ≤ steps.old + length pairs.now.moves * length pairs.now.moves + length pairs.now.moves }
    {
        // Its clauses say that the network is one of one day, along which departures rise.
        let _slots = pairs.slots();
        order.arrange(pairs, true, a);
        let side = Side::of(pairs, true, a, order);
        search_befores(
            &side,
            b,
            &mut self.links,
            &mut self.leave,
            &mut self.enter,
            lists,
            looks,
            steps,
        );
    }

    /// Makes a certified plan for the pairs, whatever the plan was: it adds one leaving side after the other.
    pub(crate) fn solve<L: Ledger>(
        &mut self,
        pairs: &Pairs<'_>,
        departures: &mut Departures,
        order: &mut Order,
        lists: &mut Lists,
        looks: &mut Looks,
        steps: &mut Steps<L>,
    )
        ensures slots { length self.new.next ≡ length pairs.now.moves }
        ensures certified { IsCertified (pairs_network pairs.now) self.new }
        ensures plan { self.new ≡ solved pairs.now }
        ensures visited { Takes (AreOfSide (AreSearches (length pairs.now.moves)) pairs.now false None) looks.old.list looks.new.list
            steps.old steps.new }
        ensures counted { steps.new ≤ steps.old + length pairs.now.moves * length pairs.now.moves * length pairs.now.moves }
    {
        // Its clauses say that the network is one of one day, along which departures rise.
        let slots = pairs.slots();
        self.set_slots(0);
        self.set_slots(slots);
        let departures = departures.arrange(pairs);
        order.arrange(pairs, false, None);
        let side = Side::of(pairs, false, None, order);
        link_all(
            &side,
            departures,
            &mut self.links,
            &mut self.leave,
            &mut self.enter,
            lists,
            looks,
            steps,
        );
    }
}
