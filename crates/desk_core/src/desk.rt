ghost use Rattle.std.specs.Prelude.{◌≡◌, ◌≢◌, ℕ, ◌+◌, ◌*◌, ◌≤◌, [], length, pos, IfErr, IfOk, IfSome, IsNone, OnErr, OnOk, ◌↔◌, Some};
ghost use Rattle.assignment_model.specs.Choice.{IsChosen};
ghost use Rattle.assignment_model.specs.Prices.{Plan as PlanView};
ghost use Rattle.deadhead_matrix.specs.Fitting.{network_of};
ghost use Rattle.deadhead_matrix.specs.Plans.{IsPlanFor};
ghost use Rattle.deficit_steps.specs.Holds.{Holds};
ghost use Rattle.desk_core.specs.Computed.{first_plan, likes};
ghost use Rattle.desk_core.specs.Counts.{blocks_in, minutes_in};
ghost use Rattle.desk_core.specs.Desk.{ArePlansFor, IsDone, IsRefused, most_steps};
ghost use Rattle.edit_script.specs.Edits.{EditsTrip, InForm};
ghost use Rattle.edit_script.specs.Script.{IsNext, stepped};
ghost use Rattle.plan_history.specs.Stands.{differences};
ghost use Rattle.trip_model.specs.Deficit.{deficit, live_moves};
ghost use Rattle.trip_model.specs.Maximum.{sum_of_maxima};
ghost use Rattle.undo_log.specs.Log.{last_item};

use crate::counts::{block_count, block_minutes};
use crate::follow::{InStep, step};
use crate::repair::repair;
use deadhead_matrix::Matrix;
use deficit_steps::Deficits;
use deficit_steps::laws::held_law;
use desk_io::{Memory, Steps};
use edit_script::{Edit, EditFault, Script};
use pair_graph::Pairs;
use plan_choice::Likings;
use plan_history::{Changed, PlanHistory};
use price_assign::Plan;
use std::alloc::Global;
use std::marker::Model;
use std::sync::ledger::Ledger;
use trip_model::Timetable;

/// A timetable under edits, with a plan that is certified for it, and the deficits of its trips where they are asked for.
pub struct Desk<D: InStep = Deficits> {
    script: Script,
    matrix: Matrix,
    kept: D,
    history: PlanHistory,
}

impl<D: InStep> Drop for Desk<D> {
    fn drop(self) {
        let Self {
            script: _,
            matrix: _,
            kept: _,
            history: _,
        } = self;
    }
}

impl<D: InStep> Model for Desk<D> {
    ghost use Rattle.desk_core.specs.Desk.{DeskView, IsDesk, desk_seen};

    ghost Value = { DeskView };

    ghost view = { λ d. desk_seen d.script d.matrix d.history };

    ghost invariant = { λ d. IsDesk (desk_seen d.script d.matrix d.history) × D.IsWith d.kept d.script.timetable };
}

impl<D: InStep> Desk<D> {
    /// The desk of a script to which nothing was done, and of the matrix of its places. Its first plan is, of all least ones, that
    /// which is liked best. At most n^3 + n^2 + 28n steps for n slots.
    pub fn open<L: Ledger>(
        alloc: Global,
        script: Script,
        matrix: Matrix,
        likings: &Likings,
        steps: &mut Steps<L>,
    ) -> Result<Desk<D>, Memory>
        requires places { length script.timetable.places ≡ length matrix.walks }
        requires earlier { script.earlier ≡ [] }
        requires later { script.later ≡ [] }
        ensures script { IfOk result (λ desk. desk.script ≡ script) }
        ensures matrix { IfOk result (λ desk. desk.matrix ≡ matrix) }
        ensures plan { IfOk result (λ desk. desk.plan ≡ first_plan script.timetable matrix likings.now) }
        ensures certified { IfOk result (λ desk. IsPlanFor script.timetable matrix desk.plan) }
        ensures chosen { IfOk result (λ desk. IsChosen (network_of script.timetable matrix) (likes script.timetable matrix likings.now)
            (blocks_in script.timetable desk.plan)) }
        ensures earlier { IfOk result (λ desk. desk.earlier ≡ []) }
        ensures later { IfOk result (λ desk. desk.later ≡ []) }
        ensures counted { let n = length script.timetable.slots in steps.new ≤ steps.old + (n * n * n + n * n + 28 * n) }
    {
        let kept = D::begin(alloc, script.timetable(), steps)?;
        let mut history = PlanHistory::open(alloc)?;
        let pairs = Pairs::of(script.timetable(), &matrix);
        history.solve(&pairs, steps);
        history.choose(&pairs, likings, steps)?;
        Ok(Desk {
            script,
            matrix,
            kept,
            history,
        })
    }

    /// The timetable that stands.
    pub fn timetable(&self) -> &Timetable
        ensures timetable { result.now ≡ self.now.script.timetable }
        ensures places { length self.now.script.timetable.places ≡ length self.now.matrix.walks }
    {
        self.script.timetable()
    }

    /// The matrix that was handed in.
    pub fn matrix(&self) -> &Matrix
        ensures matrix { result.now ≡ self.now.matrix }
        ensures places { length self.now.matrix.walks ≡ length self.now.script.timetable.places }
    {
        &self.matrix
    }

    /// The plan, certified for the timetable and the matrix. Each that can be undone or redone is so for its own timetable.
    pub fn plan(&self) -> &Plan
        ensures plan { result.now ≡ self.now.plan }
        ensures certified { IsPlanFor self.now.script.timetable self.now.matrix self.now.plan }
        ensures earlier { ArePlansFor self.now.matrix self.now.script.earlier self.now.earlier }
        ensures later { ArePlansFor self.now.matrix self.now.script.later self.now.later }
    {
        self.history.plan()
    }

    /// The numbers of the edits that stand.
    pub fn standing(&self) -> &[u32]
        ensures { result.now ≡ self.now.script.standing }
    {
        self.script.standing()
    }

    /// How many vehicles the plan has: how many blocks its links make.
    pub fn vehicles(&self) -> u32
        ensures { result ≡ length (blocks_in self.now.script.timetable self.now.plan) }
    {
        let pairs = Pairs::of(self.script.timetable(), &self.matrix);
        block_count(&pairs, self.history.plan().links())
    }

    /// The empty minutes of the blocks that its links make.
    pub fn minutes(&self) -> u32
        ensures { result ≡ minutes_in self.now.script.timetable self.now.matrix self.now.plan }
    {
        let pairs = Pairs::of(self.script.timetable(), &self.matrix);
        block_minutes(&pairs, &self.matrix, self.history.plan().links())
    }

    /// The slots that the last kept edit changed in the plan, ascending, each with what it had before and has after. `None`:
    /// nothing is kept.
    pub fn last_change(&self) -> Option<&[Changed]>
        ensures none { IsNone result ↔ (self.now.earlier ≡ []) }
        ensures changes { IfSome result
            (λ changes. (plan : PlanView) → last_item self.now.earlier ≡ Some plan → changes.now ≡ differences plan self.now.plan) }
    {
        self.history.last_change()
    }

    // Does an edit of a trip, and repairs the plan in the slot of the trip.
    fn edit<L: Ledger>(
        &mut self,
        number: u32,
        edit: &Edit,
        steps: &mut Steps<L>,
    ) -> Result<(), EditFault>
        requires trip { EditsTrip edit.now }
        requires form { InForm edit.now }
        requires next { IsNext self.old.script number edit.now }
        ensures done { OnOk result (IsDone number edit.now self.old self.new) }
        ensures refused { IfErr result (λ refused. IsRefused refused edit.now (stepped self.old.script number edit.now)) }
        ensures unchanged { OnErr result (self.new ≡ self.old) }
        ensures counted { OnOk result (steps.new ≤ steps.old + most_steps edit.now (length self.new.script.timetable.slots)) }
        ensures uncounted { OnErr result (steps.new ≡ steps.old) }
    {
        self.history.reserve()?;
        // Its clause says that the timetable is valid.
        let _slots = self.script.timetable().slots();
        let touched = step(&mut self.script, &mut self.kept, number, edit, steps)?;
        let Some(slot) = touched.slot else {
            unreachable!();
        };
        let timetable = self.script.timetable();
        repair(
            &mut self.history,
            timetable,
            &self.matrix,
            edit,
            slot,
            steps,
        );
        Ok(())
    }

    /// Undoes the last kept edit, or refuses that where none is kept. It takes no memory. At most 56 steps.
    pub fn undo<L: Ledger>(&mut self, steps: &mut Steps<L>) -> Result<(), EditFault>
        ensures done { OnOk result ((number : ℕ) → IsDone number Edit.Undo self.old self.new) }
        ensures refused { IfErr result (λ refused. (number : ℕ) → stepped self.old.script number Edit.Undo ≡ Err refused) }
        ensures memory { result ≢ Err EditFault.Memory }
        ensures unchanged { OnErr result (self.new ≡ self.old) }
        ensures counted { OnOk result (steps.new ≤ steps.old + 56) }
        ensures uncounted { OnErr result (steps.new ≡ steps.old) }
    {
        step(&mut self.script, &mut self.kept, 0, &Edit::Undo, steps)?;
        self.history.undo();
        Ok(())
    }

    // Redoes the edit that was undone last.
    fn redo<L: Ledger>(
        &mut self,
        number: u32,
        edit: &Edit,
        steps: &mut Steps<L>,
    ) -> Result<(), EditFault>
        requires is { edit.now ≡ Edit.Redo }
        ensures done { OnOk result (IsDone number edit.now self.old self.new) }
        ensures refused { IfErr result (λ refused. IsRefused refused edit.now (stepped self.old.script number edit.now)) }
        ensures unchanged { OnErr result (self.new ≡ self.old) }
        ensures counted { OnOk result (steps.new ≤ steps.old + most_steps edit.now (length self.new.script.timetable.slots)) }
        ensures uncounted { OnErr result (steps.new ≡ steps.old) }
    {
        step(&mut self.script, &mut self.kept, number, edit, steps)?;
        self.history.redo();
        Ok(())
    }

    // Counts a show.
    fn show(&mut self, number: u32, edit: &Edit) -> Result<(), EditFault>
        requires is { edit.now ≡ Edit.Show }
        ensures done { OnOk result (IsDone number edit.now self.old self.new) }
        ensures refused { IfErr result (λ refused. IsRefused refused edit.now (stepped self.old.script number edit.now)) }
        ensures unchanged { OnErr result (self.new ≡ self.old) }
    {
        self.script.step(number, edit)?;
        Ok(())
    }

    /// Does the edit of a record of that number, or refuses it and changes nothing. It takes its memory first. With n slots
    /// afterwards an edit of a trip takes at most 4n^2 + 4n + 56 steps, and an undo or a redo 56. A show and a refused edit
    /// take none.
    pub fn apply<L: Ledger>(
        &mut self,
        number: u32,
        edit: &Edit,
        steps: &mut Steps<L>,
    ) -> Result<(), EditFault>
        requires form { InForm edit.now }
        requires next { IsNext self.old.script number edit.now }
        ensures done { OnOk result (IsDone number edit.now self.old self.new) }
        ensures refused { IfErr result (λ refused. IsRefused refused edit.now (stepped self.old.script number edit.now)) }
        ensures unchanged { OnErr result (self.new ≡ self.old) }
        ensures counted { OnOk result (steps.new ≤ steps.old + most_steps edit.now (length self.new.script.timetable.slots)) }
        ensures uncounted { OnErr result (steps.new ≡ steps.old) }
    {
        match edit {
            Edit::Undo => self.undo(steps),
            Edit::Redo => self.redo(number, edit, steps),
            Edit::Show => self.show(number, edit),
            _ => self.edit(number, edit, steps),
        }
    }
}

impl Desk<Deficits> {
    /// The deficits of the trips that run.
    pub fn deficits(&self) -> &Deficits
        ensures held { Holds result.now (live_moves self.now.script.timetable.slots) }
        ensures rows { length result.now ≡ length self.now.script.timetable.places }
    {
        &self.kept
    }

    /// The sum of the greatest deficits of all places: the vehicles that suffice where none runs empty.
    pub fn fixed(&self) -> u32
        ensures { pos result ≡ sum_of_maxima (deficit (live_moves self.now.script.timetable.slots))
            (length self.now.script.timetable.places) }
    {
        held_law();
        // Their clauses say that the timetable and the deficits are valid.
        let _places = self.script.timetable().places();
        let _rows = self.kept.places();
        self.kept.total() as u32
    }
}
