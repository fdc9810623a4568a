ghost use Rattle.std.specs.Prelude.{◌≡◌, ◌<◌, ◌++◌, ◌∷◌, [], All, IfOk, IfErr, IfSome, IsOk, OnErr, drop, length, remove};
ghost use Rattle.edit_script.specs.Changes.{edited};
ghost use Rattle.edit_script.specs.Edits.{EditsTrip, InForm};
ghost use Rattle.edit_script.specs.Machine.{or_same};
ghost use Rattle.edit_script.specs.Made.{CanDo, IsDue, with_judged};
ghost use Rattle.planner_desk.specs.Planners.{IsOfTrip};
ghost use Rattle.planner_desk.specs.Standing as spec;
ghost use Rattle.planner_desk.specs.Standing.{Folds, timetable_of};

use crate::standing::{Standing, holder, last_place, push, record_of};
use crate::{PlannerEdit, PlannerFault};
use desk_io::{Memory, Text};
use edit_script::{Edit, EditFault, Judged, Script};
use std::alloc::Global;
use std::marker::Model;
use trip_model::Timetable;

/// A timetable under the edits of several planners. Each can take back the last of its own.
pub struct Planners {
    alloc: Global,
    base: Timetable,
    script: Script,
    numbers: Vec<u32>,
    standing: Vec<Standing>,
}

impl Drop for Planners {
    fn drop(self) {
        let Self {
            alloc: _,
            base: _,
            script: _,
            numbers: _,
            standing: _,
        } = self;
    }
}

impl Model for Planners {
    ghost use Rattle.planner_desk.specs.Planners.{IsUnder, PlannersView};

    ghost Value = { PlannersView };

    ghost view = { λ p. record { base = p.base; standing = p.standing.items } };

    ghost invariant = { λ p. IsUnder p.base p.script.timetable p.numbers.items p.standing.items };
}

// The one refusal that an accepted edit may come to.
fn only_memory(refused: EditFault) -> Memory
    requires { refused ≡ EditFault.Memory }
{
    match refused {
        EditFault::Memory => Memory,
        _ => unreachable!(),
    }
}

// Does what an edit of a trip was judged to do.
fn do_judged(script: &mut Script, judged: Judged) -> Result<(), Memory>
    requires { CanDo script.old.timetable judged }
    ensures done { IfOk result (λ _. script.new.timetable ≡ with_judged script.old.timetable judged) }
    ensures unchanged { OnErr result (script.new ≡ script.old) }
{
    // The script counts its edits by itself. There is no memory for as many as it cannot count.
    let Some(number) = script.last().checked_add(1) else {
        return Err(Memory);
    };
    script.change(number, judged)?;
    Ok(())
}

// Does an edit of a trip, which is accepted.
fn do_edit(script: &mut Script, edit: &Edit) -> Result<(), Memory>
    requires form { InForm edit.now }
    requires trip { EditsTrip edit.now }
    requires accepted { IsOk (edited script.old.timetable edit.now) }
    ensures { IfOk result (λ _. script.new.timetable ≡ or_same script.old.timetable (edited script.old.timetable edit.now)) }
{
    match script.judge(edit) {
        Ok(judged) => do_judged(script, judged),
        Err(refused) => Err(only_memory(refused)),
    }
}

// Does the edits of records in order. Each of them is accepted.
fn do_all(script: &mut Script, standing: &[Standing]) -> Result<(), Memory>
    requires trips { All IsOfTrip standing.now }
    requires folds { Folds script.old.timetable standing.now }
    ensures { IfOk result (λ _. script.new.timetable ≡ timetable_of script.old.timetable standing.now) }
{
    for done in standing {
        do_edit(script, &done.asked.edit)?;
    }
    Ok(())
}

// A script over a copy of the base with the edits of all records but one.
fn folded_without(
    alloc: Global,
    base: &Timetable,
    standing: &[Standing],
    place: usize,
) -> Result<Script, Memory>
    requires place { place < length standing.now }
    requires trips { All IsOfTrip standing.now }
    requires folds { Folds base.now (remove standing.now place) }
    ensures { IfOk result (λ script. script.timetable ≡ timetable_of base.now (remove standing.now place)) }
{
    let mut script = Script::open(alloc, base.copy(alloc)?)?;
    do_all(&mut script, &standing[..place])?;
    do_all(&mut script, &standing[place + 1..])?;
    Ok(script)
}

impl Planners {
    ghost use Rattle.planner_desk.specs.Planners.{IsRefusal, MayAsk, PlannersView, asked_record, if_accepted, standing_after};
    ghost use Rattle.planner_desk.specs.Standing.{numbers, standing_at, undone};

    /// Planners over a base, who did nothing yet.
    pub fn open(alloc: Global, base: Timetable) -> Result<Planners, Memory>
        ensures { IfOk result (λ planners. planners ≡ record { base = base; standing = [] }) }
    {
        let script = Script::open(alloc, base.copy(alloc)?)?;
        Ok(Planners {
            alloc,
            base,
            script,
            numbers: Vec::new(alloc),
            standing: Vec::new(alloc),
        })
    }

    /// The timetable that stands: the edits that stand, in order, over the base. Each is accepted.
    pub fn timetable(&self) -> &Timetable
        ensures value { result.now ≡ timetable_of self.now.base self.now.standing }
        ensures folds { Folds self.now.base self.now.standing }
    {
        self.script.timetable()
    }

    /// The numbers of the records that stand.
    pub fn standing(&self) -> &[u32]
        ensures value { result.now ≡ numbers self.now.standing }
        ensures count { length result.now ≡ length self.now.standing }
    {
        &self.numbers
    }

    /// The planner and the edit of a record that stands, by its place among them.
    pub fn standing_edit(&self, at: usize) -> &PlannerEdit
        requires { at < length self.now.standing }
        ensures value { result.now ≡ (standing_at self.now.standing at).asked }
        ensures form { InForm result.now.edit }
    {
        &self.standing[at].asked
    }

    /// The place of the last record of a planner, if one stands.
    pub fn last_of(&self, planner: &Text) -> Option<usize>
        ensures place { result ≡ spec.last_place planner.now self.now.standing }
        ensures within { IfSome result (λ at. at < length self.now.standing) }
    {
        last_place(&self.standing, planner)
    }

    // Does what an edit of a trip was judged to do, and keeps its record: it is pushed first, and popped where that fails.
    fn keep(&mut self, number: u32, asked: &PlannerEdit, judged: Judged) -> Result<(), Memory>
        requires form { InForm asked.now.edit }
        requires trip { EditsTrip asked.now.edit }
        requires due { IsDue (timetable_of self.old.base self.old.standing) asked.now.edit judged }
        ensures kept { IfOk result (λ _. self.new ≡ record self.old
            { standing = self.old.standing ++ asked_record number asked.now ∷ [] }) }
        ensures unchanged { OnErr result (self.new ≡ self.old) }
    {
        let last = record_of(self.alloc, number, asked)?;
        push(&mut self.numbers, &mut self.standing, last)?;
        match do_judged(&mut self.script, judged) {
            Ok(()) => Ok(()),
            Err(memory) => {
                self.numbers.pop();
                self.standing.pop();
                Err(memory)
            }
        }
    }

    // Does an edit of a trip, or refuses it.
    fn change(&mut self, number: u32, asked: &PlannerEdit) -> Result<(), PlannerFault>
        requires form { InForm asked.now.edit }
        requires trip { EditsTrip asked.now.edit }
        ensures accepted { IfOk result
            (λ _. self.new ≡ record self.old { standing = self.old.standing ++ asked_record number asked.now ∷ [] }) }
        ensures due { IfOk result (λ _. IsOk (edited (timetable_of self.old.base self.old.standing) asked.now.edit)) }
        ensures refused { IfErr result (λ refused. IsRefusal refused
            (if_accepted self.old.standing (asked_record number asked.now)
            (edited (timetable_of self.old.base self.old.standing) asked.now.edit))) }
        ensures unchanged { OnErr result (self.new ≡ self.old) }
    {
        match self.script.judge(&asked.edit) {
            Ok(judged) => Ok(self.keep(number, asked, judged)?),
            Err(EditFault::Memory) => Err(PlannerFault::Memory),
            Err(refused) => Err(PlannerFault::Refused(refused)),
        }
    }

    // Takes out the record of a place, without which the others are each accepted.
    fn take_out(&mut self, place: usize) -> Result<(), Memory>
        requires place { place < length self.old.standing }
        requires folds { Folds self.old.base (remove self.old.standing place) }
        ensures taken { IfOk result (λ _. self.new ≡ record self.old { standing = remove self.old.standing place }) }
        ensures unchanged { OnErr result (self.new ≡ self.old) }
    {
        let script = folded_without(self.alloc, &self.base, &self.standing, place)?;
        self.script = script;
        self.numbers.remove(place);
        self.standing.remove(place);
        Ok(())
    }

    // Takes back the last edit of a planner, unless another planner's holds it.
    fn undo(&mut self, planner: &Text) -> Result<(), PlannerFault>
        ensures accepted { IfOk result (λ _. undone planner.now self.old.standing ≡ Ok self.new.standing) }
        ensures base { self.new.base ≡ self.old.base }
        ensures refused { IfErr result (λ refused. IsRefusal refused (undone planner.now self.old.standing)) }
        ensures unchanged { OnErr result (self.new ≡ self.old) }
    {
        let Some(place) = last_place(&self.standing, planner) else {
            return Err(PlannerFault::NothingToUndo);
        };
        match holder(&self.standing, place) {
            Some(number) => Err(PlannerFault::HeldBy(number)),
            None => Ok(self.take_out(place)?),
        }
    }

    /// Does what a planner asks for by the record of that number, or refuses it and changes nothing. An undo takes back the
    /// planner's own last edit that stands, unless a later edit of another planner names its trip.
    pub fn step(&mut self, number: u32, asked: &PlannerEdit) -> Result<(), PlannerFault>
        requires form { InForm asked.now.edit }
        requires may { MayAsk asked.now.edit }
        ensures accepted { IfOk result
            (λ _. standing_after self.old.base self.old.standing (asked_record number asked.now) ≡ Ok self.new.standing) }
        ensures base { self.new.base ≡ self.old.base }
        ensures refused { IfErr result
            (λ refused. IsRefusal refused (standing_after self.old.base self.old.standing (asked_record number asked.now))) }
        ensures unchanged { OnErr result (self.new ≡ self.old) }
    {
        match &asked.edit {
            Edit::Undo => self.undo(&asked.planner),
            Edit::Redo | Edit::Show => unreachable!(),
            _ => self.change(number, asked),
        }
    }
}
