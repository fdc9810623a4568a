ghost use Rattle.std.specs.Prelude.{◌≡◌, ◌≢◌, ◌↔◌, ℕ, ◌+◌, ◌*◌, ◌<◌, ◌≤◌, ◌++◌, ◌∷◌, List, [], length, Some, IfOk, OnOk, OnErr, IsNone, IfSome};
ghost use Rattle.assignment_model.specs.Choice.{IsChosen};
ghost use Rattle.assignment_model.specs.Paths.{with_slot, IsTaken, IsAdded};
ghost use Rattle.assignment_model.specs.Prices.{Plan as PlanView, IsCertified};
ghost use Rattle.pair_graph.specs.Pairs.{pairs_network};
ghost use Rattle.plan_choice.specs.Chosen.{chosen_plan, pair_liking};
ghost use Rattle.plan_history.specs.History.{HistoryView, IsReplaced};
ghost use Rattle.plan_history.specs.Stands.{differences};
ghost use Rattle.price_assign.specs.Found.{solved};
ghost use Rattle.price_repair.specs.Repaired.{plan_taken, plan_added, plan_replaced};
ghost use Rattle.price_repair.specs.Without.{IsCertifiedWith, IsCertifiedWithout};
ghost use Rattle.trip_model.specs.Blocking.{StandsOnce};
ghost use Rattle.trip_model.specs.Links.{blocks_along};
ghost use Rattle.undo_log.specs.Log.{latest_items, last_item};
ghost use Rattle.undo_log.specs.declared.log.TheConstants.{UNDO_DEPTH};

use crate::item::{Item, lead_back, lead_forth};
use crate::keep::keep;
use crate::links::set_links;
use crate::stand::{Changed, Stand, copy_stands};
use desk_io::{Memory, Steps};
use pair_graph::Pairs;
use pair_search::Looks;
use plan_choice::{Likings, chosen_links};
use price_assign::{Plan, Solver};
use price_repair::{after_add, after_take};
use std::alloc::Global;
use std::marker::Model;
use std::sync::ledger::Ledger;
use trip_model::MOST_SLOTS;
use undo_log::Log;

/// A plan under edits, with what leads back to the plans before it and forth to those that were undone.
pub struct PlanHistory {
    alloc: Global,
    solver: Solver,
    log: Log<Item>,
    was: Vec<Stand>,
    spare: Vec<Changed>,
}

impl Drop for PlanHistory {
    fn drop(self) {
        let Self {
            alloc: _,
            solver: _,
            log: _,
            was: _,
            spare: _,
        } = self;
    }
}

impl Model for PlanHistory {
    ghost use Rattle.std.specs.Prelude.{◌≡◌, ◌≤◌, [], vec_capacity};
    ghost use Rattle.plan_history.specs.History.{HistoryView};
    ghost use Rattle.trip_model.specs.declared.limits.TheConstants.{MOST_SLOTS};

    ghost Value = { HistoryView };

    ghost use Rattle.plan_history.specs.Items.{undone_by, redone_by, plans_along, AreItemsOf};

    ghost view = { λ h. record {
      plan = h.solver;
      earlier = plans_along undone_by h.solver h.log.kept;
      later = plans_along redone_by h.solver h.log.undone;
      room = vec_capacity h.spare;
    } };

    ghost invariant = { λ h. AreItemsOf h.solver h.log × (MOST_SLOTS ≤ vec_capacity h.was) × (h.spare.items ≡ []) };
}

impl PlanHistory {
    /// A plan without slots, and nothing to undo or redo. It takes the memory of a solver, and of the stands of as many slots
    /// as there may be.
    pub fn open(alloc: Global) -> Result<PlanHistory, Memory>
        ensures plan { IfOk result (λ history. history.plan ≡ record { next = []; leave = []; enter = [] }) }
        ensures earlier { IfOk result (λ history. history.earlier ≡ []) }
        ensures later { IfOk result (λ history. history.later ≡ []) }
    {
        Ok(PlanHistory {
            alloc,
            solver: Solver::open(alloc)?,
            log: Log::open(alloc)?,
            was: Vec::with_capacity(alloc, usize::from(MOST_SLOTS))?,
            spare: Vec::new(alloc),
        })
    }

    /// The plan as it is now.
    pub fn plan(&self) -> &Plan
        ensures { result.now ≡ self.now.plan }
    {
        self.solver.plan()
    }

    /// How many edits can be undone.
    pub fn kept(&self) -> usize
        ensures count { result ≡ length self.now.earlier }
        ensures within { length self.now.earlier + length self.now.later ≤ UNDO_DEPTH }
    {
        self.log.kept()
    }

    /// How many edits can be redone.
    pub fn undone(&self) -> usize
        ensures count { result ≡ length self.now.later }
        ensures within { length self.now.earlier + length self.now.later ≤ UNDO_DEPTH }
    {
        self.log.undone()
    }

    /// Makes the first plan, certified for the pairs. At most n^3 steps for n slots.
    pub fn solve<L: Ledger>(&mut self, pairs: &Pairs<'_>, steps: &mut Steps<L>)
        requires earlier { self.old.earlier ≡ [] }
        requires later { self.old.later ≡ [] }
        ensures slots { length self.new.plan.next ≡ length pairs.now.moves }
        ensures certified { IsCertified (pairs_network pairs.now) self.new.plan }
        ensures plan { self.new.plan ≡ solved pairs.now }
        ensures earlier { self.new.earlier ≡ [] }
        ensures later { self.new.later ≡ [] }
        ensures counted { let n = length pairs.now.moves in steps.new ≤ steps.old + n * n * n }
    {
        // Its clauses say that the network is one of one day.
        let _slots = pairs.slots();
        self.solver.solve(pairs, &mut Looks::new(), steps);
    }

    /// Chooses among all least plans the one that is liked best, in place of the first plan. The prices stay as they are. At
    /// most n^2 steps for n slots. `Err` says that memory was refused; the plan is then as it was.
    pub fn choose<L: Ledger>(
        &mut self,
        pairs: &Pairs<'_>,
        likings: &Likings,
        steps: &mut Steps<L>,
    ) -> Result<(), Memory>
        requires slots { length self.old.plan.next ≡ length pairs.now.moves }
        requires certified { IsCertified (pairs_network pairs.now) self.old.plan }
        requires earlier { self.old.earlier ≡ [] }
        requires later { self.old.later ≡ [] }
        ensures slots { length self.new.plan.next ≡ length pairs.now.moves }
        ensures certified { IsCertified (pairs_network pairs.now) self.new.plan }
        ensures plan { OnOk result (self.new.plan ≡ chosen_plan pairs.now likings.now self.old.plan) }
        ensures chosen { OnOk result ((order : List ℕ) → StandsOnce (pairs_network pairs.now).live order
            → IsChosen (pairs_network pairs.now) (pair_liking pairs.now likings.now) (blocks_along self.new.plan.next order)) }
        ensures earlier { self.new.earlier ≡ [] }
        ensures later { self.new.later ≡ [] }
        ensures unchanged { OnErr result (self.new ≡ self.old) }
        ensures counted { let n = length pairs.now.moves in steps.new ≤ steps.old + n * n }
    {
        // Its clauses say that the network is one of one day.
        let _slots = pairs.slots();
        let next = chosen_links(self.alloc, pairs, self.solver.plan(), likings, steps)?;
        set_links(&mut self.solver, &next);
        Ok(())
    }

    /// Takes the memory that the next edit needs: for a change of each slot and of one more. Nothing else that is seen changes.
    pub fn reserve(&mut self) -> Result<(), Memory>
        ensures room { OnOk result (length self.new.plan.next < self.new.room) }
        ensures seen { self.new ≡ record self.old { room = self.new.room } }
        ensures unchanged { OnErr result (self.new ≡ self.old) }
    {
        let slots = usize::from(self.solver.plan().links().slots());
        if self.spare.capacity() <= slots {
            self.spare = Vec::with_capacity(self.alloc, slots + 1)?;
        }
        Ok(())
    }

    /// Repairs the plan after the trip of a slot was taken, and keeps that. The plan was certified for the pairs with that trip,
    /// and is then certified for those without it, which are given. At most 2n^2 + 2n steps for n slots.
    pub fn take<L: Ledger>(&mut self, pairs: &Pairs<'_>, slot: u16, steps: &mut Steps<L>)
        requires room { length self.old.plan.next < self.old.room }
        requires slot { slot < length pairs.now.moves }
        requires slots { length self.old.plan.next ≡ length pairs.now.moves }
        requires certified { IsCertifiedWith pairs.now slot self.old.plan }
        ensures slots { length self.new.plan.next ≡ length pairs.now.moves }
        ensures certified { IsCertified (pairs_network pairs.now) self.new.plan }
        ensures taken { IsTaken self.old.plan.next self.new.plan.next slot }
        ensures plan { self.new.plan ≡ plan_taken pairs.now slot self.old.plan }
        ensures earlier { self.new.earlier ≡ latest_items (self.old.earlier ++ self.old.plan ∷ []) }
        ensures later { self.new.later ≡ [] }
        ensures counted { let n = length pairs.now.moves in steps.new ≤ steps.old + 2 * n * n + 2 * n }
    {
        // Its clauses say that the network is one of one day.
        let _slots = pairs.slots();
        copy_stands(self.solver.plan(), &mut self.was);
        after_take(&mut self.solver, pairs, slot, steps);
        keep(
            self.alloc,
            self.was.as_slice(),
            self.solver.plan(),
            &mut self.spare,
            &mut self.log,
        );
    }

    /// Repairs the plan after a trip was added in a slot, and keeps that. The plan was certified for the pairs without that
    /// trip, and is then certified for those with it, which are given. Where the slot is the last one, the plan may lack it
    /// before. At most 2n^2 + 2n steps for n slots.
    pub fn add<L: Ledger>(&mut self, pairs: &Pairs<'_>, slot: u16, steps: &mut Steps<L>)
        requires room { length self.old.plan.next < self.old.room }
        requires slots { length (with_slot self.old.plan.next slot) ≡ length pairs.now.moves }
        requires certified { IsCertifiedWithout pairs.now slot self.old.plan }
        ensures slots { length self.new.plan.next ≡ length pairs.now.moves }
        ensures certified { IsCertified (pairs_network pairs.now) self.new.plan }
        ensures added { IsAdded self.old.plan.next self.new.plan.next slot }
        ensures plan { self.new.plan ≡ plan_added pairs.now slot self.old.plan }
        ensures earlier { self.new.earlier ≡ latest_items (self.old.earlier ++ self.old.plan ∷ []) }
        ensures later { self.new.later ≡ [] }
        ensures counted { let n = length pairs.now.moves in steps.new ≤ steps.old + 2 * n * n + 2 * n }
    {
        // Its clauses say that the network is one of one day.
        let _slots = pairs.slots();
        copy_stands(self.solver.plan(), &mut self.was);
        after_add(&mut self.solver, pairs, slot, steps);
        keep(
            self.alloc,
            self.was.as_slice(),
            self.solver.plan(),
            &mut self.spare,
            &mut self.log,
        );
    }

    /// Repairs the plan after the trip of a slot became another one, and keeps that as one edit. The plan was certified for the
    /// pairs with the trip that was there. `without` are the pairs without either trip. `pairs` are those with the trip that is
    /// there now, and the plan is then certified for them. At most 4n^2 + 4n steps for n slots.
    pub fn replace<L: Ledger>(
        &mut self,
        without: &Pairs<'_>,
        pairs: &Pairs<'_>,
        slot: u16,
        steps: &mut Steps<L>,
    )
        requires room { length self.old.plan.next < self.old.room }
        requires slot { slot < length pairs.now.moves }
        requires slots { length self.old.plan.next ≡ length pairs.now.moves }
        requires alike { length without.now.moves ≡ length pairs.now.moves }
        requires taken { IsCertifiedWith without.now slot self.old.plan }
        requires added { (plan : PlanView) → IsCertified (pairs_network without.now) plan → IsCertifiedWithout pairs.now slot plan }
        ensures slots { length self.new.plan.next ≡ length pairs.now.moves }
        ensures certified { IsCertified (pairs_network pairs.now) self.new.plan }
        ensures replaced { IsReplaced self.old.plan.next self.new.plan.next slot }
        ensures plan { self.new.plan ≡ plan_replaced without.now pairs.now slot self.old.plan }
        ensures earlier { self.new.earlier ≡ latest_items (self.old.earlier ++ self.old.plan ∷ []) }
        ensures later { self.new.later ≡ [] }
        ensures counted { let n = length pairs.now.moves in steps.new ≤ steps.old + 4 * n * n + 4 * n }
    {
        // Its clauses say that the network is one of one day.
        let _slots = pairs.slots();
        copy_stands(self.solver.plan(), &mut self.was);
        after_take(&mut self.solver, without, slot, steps);
        after_add(&mut self.solver, pairs, slot, steps);
        keep(
            self.alloc,
            self.was.as_slice(),
            self.solver.plan(),
            &mut self.spare,
            &mut self.log,
        );
    }

    /// Undoes the last kept edit: the plan is again the one before it, prices included.
    pub fn undo(&mut self)
        requires { self.old.earlier ≢ [] }
        ensures earlier { self.old.earlier ≡ self.new.earlier ++ self.new.plan ∷ [] }
        ensures later { self.new.later ≡ self.old.later ++ self.old.plan ∷ [] }
    {
        if let Some(item) = self.log.take_back() {
            lead_back(&mut self.solver, &item);
            self.log.put_undone(item);
        }
    }

    /// Redoes the last undone edit: the plan is again the one after it, prices included.
    pub fn redo(&mut self)
        requires { self.old.later ≢ [] }
        ensures later { self.old.later ≡ self.new.later ++ self.new.plan ∷ [] }
        ensures earlier { self.new.earlier ≡ self.old.earlier ++ self.old.plan ∷ [] }
    {
        if let Some(item) = self.log.take_forth() {
            lead_forth(&mut self.solver, &item);
            self.log.put_kept(item);
        }
    }

    /// The slots that the last kept edit changed, ascending, each with what it had before and has after. `None`: nothing is
    /// kept.
    pub fn last_change(&self) -> Option<&[Changed]>
        ensures none { IsNone result ↔ (self.now.earlier ≡ []) }
        ensures changes { IfSome result
            (λ changes. (plan : PlanView) → last_item self.now.earlier ≡ Some plan → changes.now ≡ differences plan self.now.plan) }
    {
        match self.log.last_kept() {
            Some(item) => Some(item.changes.as_slice()),
            None => None,
        }
    }
}
