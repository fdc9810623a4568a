ghost use Rattle.std.specs.Prelude.{◌≡◌, ◌<◌, IfOk, IfErr, OnErr, Some, length};

use crate::changes::{
    Change, Judged, judge_cancel, judge_extra, judge_restore, judge_shift, make, unmake,
};
use crate::{Edit, EditFault, MOST_SHOWS, Touched};
use desk_io::Memory;
use std::alloc::Global;
use std::marker::Model;
use trip_model::Timetable;
use undo_log::Log;

/// A timetable under edits. The last 256 of them can be undone.
pub struct Script {
    alloc: Global,
    timetable: Timetable,
    log: Log<Change>,
    standing: Vec<u32>,
    last: u32,
    shows: u32,
}

impl Drop for Script {
    fn drop(self) {
        let Self {
            alloc: _,
            timetable: _,
            log: _,
            standing: _,
            last: _,
            shows: _,
        } = self;
    }
}

impl Model for Script {
    ghost use Rattle.edit_script.specs.Kept.{IsKept, script_seen};
    ghost use Rattle.edit_script.specs.Script.{ScriptView};

    ghost Value = { ScriptView };

    ghost view = { λ s. script_seen s.timetable s.log s.standing.items s.last s.shows };

    ghost invariant = { λ s. IsKept s.timetable s.log s.standing.items s.last };
}

impl Script {
    ghost use Rattle.edit_script.specs.Changes.{IsSlotOf};
    ghost use Rattle.edit_script.specs.Edits.{EditsTrip, InForm};
    ghost use Rattle.edit_script.specs.Made.{CanDo, IsJudged, with_judged};
    ghost use Rattle.edit_script.specs.Script.{IsNext, IsRefusal, IsRising, IsTouched, if_redone, if_shown, if_undone, numbers_along};
    ghost use Rattle.edit_script.specs.Script.{opened, stepped, with_edit};
    ghost use Rattle.undo_log.specs.Log.{last_item};

    /// A script over a timetable, to which nothing was done.
    pub fn open(alloc: Global, timetable: Timetable) -> Result<Script, Memory>
        ensures { IfOk result (λ script. script ≡ opened timetable) }
    {
        Ok(Script {
            alloc,
            timetable,
            log: Log::open(alloc)?,
            standing: Vec::new(alloc),
            last: 0,
            shows: 0,
        })
    }

    /// The timetable that stands.
    pub fn timetable(&self) -> &Timetable
        ensures { result.now ≡ self.now.timetable }
    {
        &self.timetable
    }

    /// The numbers of the edits that stand.
    pub fn standing(&self) -> &[u32]
        ensures { result.now ≡ self.now.standing }
    {
        &self.standing
    }

    /// How many edits can be undone.
    pub fn kept(&self) -> usize
        ensures { result ≡ length self.now.earlier }
    {
        self.log.kept()
    }

    /// How many edits can be redone.
    pub fn undone(&self) -> usize
        ensures { result ≡ length self.now.undone }
    {
        self.log.undone()
    }

    /// How many shows were accepted.
    pub fn shows(&self) -> u32
        ensures { result ≡ self.now.shows }
    {
        self.shows
    }

    /// The greatest number that ever stood. Those that stand rise, and so do those that were undone, the newest first.
    pub fn last(&self) -> u32
        ensures value { result ≡ self.now.last }
        ensures rising { IsRising result (numbers_along self.now.standing self.now.undone) }
    {
        self.last
    }

    /// What an edit of a trip does to the timetable that stands, or why it is refused. It changes nothing yet.
    pub fn judge(&self, edit: &Edit) -> Result<Judged, EditFault>
        requires form { InForm edit.now }
        requires trip { EditsTrip edit.now }
        ensures { IsJudged result self.now.timetable edit.now }
    {
        let timetable = &self.timetable;
        match edit {
            Edit::Shift { trip, by } => judge_shift(timetable, trip, *by),
            Edit::Cancel { trip } => judge_cancel(timetable, trip),
            Edit::Restore { trip } => judge_restore(timetable, trip),
            Edit::Extra {
                trip,
                from,
                to,
                departs,
                arrives,
            } => judge_extra(self.alloc, timetable, trip, from, to, *departs, *arrives),
            Edit::Undo | Edit::Redo | Edit::Show => unreachable!(),
        }
    }

    /// Does what an edit of a trip was judged to do, as the edit of a record of that number.
    pub fn change(&mut self, number: u32, judged: Judged) -> Result<Touched, Memory>
        requires next { self.old.last < number }
        requires can { CanDo self.old.timetable judged }
        ensures done { IfOk result (λ _. self.new ≡ with_edit self.old number (with_judged self.old.timetable judged)) }
        ensures touched { IfOk result (λ touched. IsTouched touched self.old.timetable self.new.timetable) }
        ensures slot { IfOk result (λ touched. touched.slot ≡ Some judged.slot) }
        ensures unchanged { OnErr result (self.new ≡ self.old) }
    {
        let change = Change {
            number,
            slot: judged.slot,
            made: judged.made,
        };
        let touched = make(&mut self.timetable, &mut self.standing, &change)?;
        self.last = number;
        let _forgotten = self.log.push(change);
        Ok(touched)
    }

    // Judges an edit of a trip, and does it.
    fn edit(&mut self, number: u32, edit: &Edit) -> Result<Touched, EditFault>
        requires form { InForm edit.now }
        requires trip { EditsTrip edit.now }
        requires next { self.old.last < number }
        ensures accepted { IfOk result (λ _. stepped self.old number edit.now ≡ Ok self.new) }
        ensures touched { IfOk result (λ touched. IsTouched touched self.old.timetable self.new.timetable) }
        ensures slot { IfOk result (λ touched. IsSlotOf edit.now self.old.timetable touched.slot) }
        ensures refused { IfErr result (λ refused. IsRefusal refused edit.now (stepped self.old number edit.now)) }
        ensures unchanged { OnErr result (self.new ≡ self.old) }
    {
        let judged = self.judge(edit)?;
        Ok(self.change(number, judged)?)
    }

    // Takes the last edit back.
    fn undo(&mut self) -> Result<Touched, EditFault>
        ensures accepted { IfOk result (λ _. if_undone self.old (last_item self.old.earlier) ≡ Ok self.new) }
        ensures touched { IfOk result (λ touched. IsTouched touched self.old.timetable self.new.timetable) }
        ensures refused { IfErr result (λ refused. IsRefusal refused Edit.Undo (if_undone self.old (last_item self.old.earlier))) }
        ensures unchanged { OnErr result (self.new ≡ self.old) }
    {
        let Some(change) = self.log.take_back() else {
            return Err(EditFault::NothingToUndo);
        };
        let touched = unmake(&mut self.timetable, &mut self.standing, &change);
        self.log.put_undone(change);
        Ok(touched)
    }

    // Does the edit again that was taken back last.
    fn redo(&mut self) -> Result<Touched, EditFault>
        ensures accepted { IfOk result (λ _. if_redone self.old (last_item self.old.later) ≡ Ok self.new) }
        ensures touched { IfOk result (λ touched. IsTouched touched self.old.timetable self.new.timetable) }
        ensures refused { IfErr result (λ refused. IsRefusal refused Edit.Redo (if_redone self.old (last_item self.old.later))) }
        ensures unchanged { OnErr result (self.new ≡ self.old) }
    {
        let Some(change) = self.log.take_forth() else {
            return Err(EditFault::NothingToRedo);
        };
        match make(&mut self.timetable, &mut self.standing, &change) {
            Ok(touched) => {
                self.log.put_kept(change);
                Ok(touched)
            }
            Err(_) => {
                self.log.put_undone(change);
                Err(EditFault::Memory)
            }
        }
    }

    // Counts a show.
    fn show(&mut self) -> Result<Touched, EditFault>
        ensures accepted { IfOk result (λ _. if_shown self.old ≡ Ok self.new) }
        ensures touched { IfOk result (λ touched. IsTouched touched self.old.timetable self.new.timetable) }
        ensures refused { IfErr result (λ refused. IsRefusal refused Edit.Show (if_shown self.old)) }
        ensures unchanged { OnErr result (self.new ≡ self.old) }
    {
        if self.shows >= MOST_SHOWS {
            return Err(EditFault::TooManyShows);
        }
        self.shows += 1;
        Ok(Touched {
            slot: None,
            before: None,
            after: None,
        })
    }

    /// Does the edit of a record of that number, or refuses it and changes nothing. An undo and a show take no memory.
    pub fn step(&mut self, number: u32, edit: &Edit) -> Result<Touched, EditFault>
        requires form { InForm edit.now }
        requires next { IsNext self.old number edit.now }
        ensures accepted { IfOk result (λ _. stepped self.old number edit.now ≡ Ok self.new) }
        ensures touched { IfOk result (λ touched. IsTouched touched self.old.timetable self.new.timetable) }
        ensures slot { IfOk result (λ touched. IsSlotOf edit.now self.old.timetable touched.slot) }
        ensures refused { IfErr result (λ refused. IsRefusal refused edit.now (stepped self.old number edit.now)) }
        ensures unchanged { OnErr result (self.new ≡ self.old) }
    {
        match edit {
            Edit::Undo => self.undo(),
            Edit::Redo => self.redo(),
            Edit::Show => self.show(),
            _ => self.edit(number, edit),
        }
    }
}
