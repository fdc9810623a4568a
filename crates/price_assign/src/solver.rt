ghost use Rattle.std.specs.Prelude.{◌≡◌, ◌+◌, ◌*◌, ◌<◌, ◌≤◌, [], length, true, false, Option, None, Some, IfOk, IfSome};
ghost use Rattle.assignment_model.specs.Paths.{IsLeftPath, IsRightPath};
ghost use Rattle.assignment_model.specs.Prices.{IsCertified, IsLoose};
ghost use Rattle.pair_graph.specs.Pairs.{pairs_network};
ghost use Rattle.pair_search.specs.Visits.{AreOfSide, AreSearches, SearchesOnce, Takes};
ghost use Rattle.price_assign.specs.Found.{found_left, found_right, solved};
ghost use Rattle.price_assign.specs.Plans.{with_slots, with_entry};
ghost use Rattle.trip_model.specs.declared.limits.TheConstants.{MOST_SLOTS};

use crate::Plan;
use desk_io::{Memory, Steps};
use pair_graph::Pairs;
use pair_search::{Departures, Lists, Looks, Order};
use std::alloc::Global;
use std::marker::Model;
use std::sync::ledger::Ledger;

/// A plan, with the memory for making and repairing one of as many slots as there may be.
pub struct Solver {
    plan: Plan,
    departures: Departures,
    // Of each side the order of the last search, with which the next one begins.
    order: Order,
    turned: Order,
    lists: Lists,
}

impl Drop for Solver {
    fn drop(self) {
        let Self {
            plan: _,
            departures: _,
            order: _,
            turned: _,
            lists: _,
        } = self;
    }
}

impl Model for Solver {
    ghost use Rattle.assignment_model.specs.Prices as prices;

    ghost Value = { prices.Plan };

    ghost view = { λ s. s.plan };
}

impl Solver {
    /// Takes all memory that any call needs. The plan has no slots.
    pub fn open(alloc: Global) -> Result<Solver, Memory>
        ensures { IfOk result (λ plan. plan ≡ record { next = []; leave = []; enter = [] }) }
    {
        Ok(Solver {
            plan: Plan::open(alloc)?,
            departures: Departures::open(alloc)?,
            order: Order::open(alloc)?,
            turned: Order::open(alloc)?,
            lists: Lists::open(alloc)?,
        })
    }

    /// The plan as it is now.
    pub fn plan(&self) -> &Plan
        ensures { result.now ≡ self.now }
    {
        &self.plan
    }

    /// Cuts the plan to so many slots, or adds slots without a next trip and without prices.
    pub fn set_slots(&mut self, slots: u16)
        requires { slots ≤ MOST_SLOTS }
        ensures { self.new ≡ with_slots self.old slots }
    {
        self.plan.set_slots(slots);
    }

    /// Gives a slot another next trip, or none, and other prices. Whether the plan is then certified is not asked here.
    pub fn put(&mut self, slot: u16, next: Option<u16>, leave: u64, enter: u64)
        requires slot { slot < length self.old.next }
        requires next { IfSome next (λ j. j < length self.old.next) }
        ensures { self.new ≡ with_entry self.old slot next leave enter }
    {
        self.plan.put(slot, next, leave, enter);
    }

    /// Makes a certified plan for the pairs, whatever the plan was. At most n^3 steps for n slots.
    pub fn solve<L: Ledger>(&mut self, pairs: &Pairs<'_>, looks: &mut Looks, steps: &mut Steps<L>)
        ensures slots { length self.new.next ≡ length pairs.now.moves }
        ensures certified { IsCertified (pairs_network pairs.now) self.new }
        ensures plan { self.new ≡ solved pairs.now }
        ensures visited { Takes (AreOfSide (AreSearches (length pairs.now.moves)) pairs.now false None) looks.old.list looks.new.list
            steps.old steps.new }
        ensures counted { let n = length pairs.now.moves in steps.new ≤ steps.old + n * n * n }
    {
        self.plan.solve(
            pairs,
            &mut self.departures,
            &mut self.order,
            &mut self.lists,
            looks,
            steps,
        );
    }

    /// Adds the leaving side of `a` to a plan from which it is left out. The entering side of `b`, where there is one, is left
    /// out too. A search goes out from `a` over the pairs that do not enter `b`. At most n^2 + n steps for n slots.
    pub fn search_left<L: Ledger>(
        &mut self,
        pairs: &Pairs<'_>,
        a: u16,
        b: Option<u16>,
        looks: &mut Looks,
        steps: &mut Steps<L>,
    )
        requires slots { length self.old.next ≡ length pairs.now.moves }
        requires loose { IsLoose (pairs_network pairs.now) self.old (Some a) b }
        ensures loose { IsLoose (pairs_network pairs.now) self.new None b }
        ensures path { IsLeftPath self.old.next self.new.next a }
        ensures plan { self.new ≡ found_left pairs.now a b self.old }
        ensures visited { Takes (AreOfSide SearchesOnce pairs.now false b) looks.old.list looks.new.list steps.old steps.new }
        ensures counted { let n = length pairs.now.moves in steps.new ≤ steps.old + n * n + n }
    {
        self.plan.search_left(pairs, a, b, &mut self.order, &mut self.lists, looks, steps);
    }

    /// Adds the entering side of `b`, as [`Solver::search_left`] adds a leaving one. A search goes out from `b` over the pairs
    /// that do not leave `a`. At most n^2 + n steps for n slots.
    pub fn search_right<L: Ledger>(
        &mut self,
        pairs: &Pairs<'_>,
        b: u16,
        a: Option<u16>,
        looks: &mut Looks,
        steps: &mut Steps<L>,
    )
        requires slots { length self.old.next ≡ length pairs.now.moves }
        requires loose { IsLoose (pairs_network pairs.now) self.old a (Some b) }
        ensures loose { IsLoose (pairs_network pairs.now) self.new a None }
        ensures path { IsRightPath self.old.next self.new.next b }
        ensures plan { self.new ≡ found_right pairs.now b a self.old }
        ensures visited { Takes (AreOfSide SearchesOnce pairs.now true a) looks.old.list looks.new.list steps.old steps.new }
        ensures counted { let n = length pairs.now.moves in steps.new ≤ steps.old + n * n + n }
    {
        self.plan.search_right(pairs, b, a, &mut self.turned, &mut self.lists, looks, steps);
    }
}
