ghost use Rattle.std.specs.Prelude.{◌≡◌, ◌+◌, ◌≤◌, List, [], ◌++◌, length, IfErr, IfOk, IfSome, OnErr, OnOk};
ghost use Rattle.deficit_steps.specs.Holds.{Holds};
ghost use Rattle.desk_core.specs.Follow.{moves_of, HoldsAmong};
ghost use Rattle.edit_script.specs.Changes.{IsSlotOf};
ghost use Rattle.edit_script.specs.Edits.{InForm};
ghost use Rattle.edit_script.specs.Script.{IsNext, IsRefusal, stepped};
ghost use Rattle.trip_model.specs.Deficit.{live_moves};
ghost use Rattle.trip_model.specs.Plain.{IsMove};
ghost use Rattle.trip_model.specs.Trip.{move_of};
ghost use Rattle.trip_model.specs.declared.trip.Move.{Move};

use deficit_steps::laws::held_law;
use deficit_steps::{Deficits, deficits_of};
use desk_io::{Memory, Steps};
use edit_script::{Edit, EditFault, Script, Touched};
use std::alloc::Global;
use std::sync::ledger::Ledger;
use trip_model::{Timetable, Trip};

// Takes the move of a trip out, where it runs.
fn take_out<L: Ledger>(deficits: &mut Deficits, trip: Option<Trip>, steps: &mut Steps<L>)
    requires valid { IfSome trip (λ trip. IsMove (length deficits.old) (move_of trip)) }
    requires held { HoldsAmong deficits.old (moves_of trip) }
    ensures rows { length deficits.new ≡ length deficits.old }
    ensures held { (front back : List Move) → Holds deficits.old (front ++ (moves_of trip ++ back)) → Holds deficits.new (front ++ back) }
    ensures counted { steps.new ≤ steps.old + 28 }
{
    let Some(trip) = trip else {
        return;
    };
    if !trip.live {
        return;
    }
    held_law();
    deficits.take(&trip.as_move(), steps);
}

// Puts the move of a trip in, where it runs.
fn put_in<L: Ledger>(deficits: &mut Deficits, trip: Option<Trip>, steps: &mut Steps<L>)
    requires valid { IfSome trip (λ trip. IsMove (length deficits.old) (move_of trip)) }
    requires held { HoldsAmong deficits.old [] }
    ensures rows { length deficits.new ≡ length deficits.old }
    ensures held { (front back : List Move) → Holds deficits.old (front ++ back) → Holds deficits.new (front ++ (moves_of trip ++ back)) }
    ensures counted { steps.new ≤ steps.old + 28 }
{
    let Some(trip) = trip else {
        return;
    };
    if !trip.live {
        return;
    }
    held_law();
    deficits.add(&trip.as_move(), steps);
}

/// What a desk keeps in step with its timetable: the deficits of the trips that run, or nothing.
pub trait InStep: Drop {
    ghost use Rattle.std.specs.Prelude.{◌+◌, ◌*◌, ◌≤◌, length, IfOk};
    ghost use Rattle.desk_core.specs.Follow.{IsStep};
    ghost use Rattle.trip_model.specs.Timetable.{TimetableView};

    /// It is in step with a timetable.
    ghost IsWith: { Self → TimetableView → Type 0 };

    /// What is in step with a timetable. At most 28 steps for each slot.
    fn begin<L: Ledger>(
        alloc: Global,
        timetable: &Timetable,
        steps: &mut Steps<L>,
    ) -> Result<Self, Memory>
        ensures with { IfOk result (λ kept. IsWith kept timetable.now) }
        ensures counted { steps.new ≤ steps.old + 28 * length timetable.now.slots };

    /// Follows a step of a script by the trip that it touched. At most 56 steps.
    fn follow<L: Ledger>(&mut self, touched: Touched, steps: &mut Steps<L>)
        requires { (old new : TimetableView) × IsStep touched old new × IsWith self.old old }
        ensures with { (old new : TimetableView) → IsStep touched old new → IsWith self.old old → IsWith self.new new }
        ensures counted { steps.new ≤ steps.old + 56 };
}

impl InStep for Deficits {
    ghost use Rattle.desk_core.specs.Follow.{AreDeficitsOf};

    ghost IsWith = { AreDeficitsOf };

    fn begin<L: Ledger>(
        alloc: Global,
        timetable: &Timetable,
        steps: &mut Steps<L>,
    ) -> Result<Deficits, Memory> {
        deficits_of(alloc, timetable, steps)
    }

    fn follow<L: Ledger>(&mut self, touched: Touched, steps: &mut Steps<L>) {
        take_out(self, touched.before, steps);
        put_in(self, touched.after, steps);
    }
}

/// No deficits, where a desk is asked for none.
#[derive(Drop)]
pub struct NoDeficits;

impl InStep for NoDeficits {
    ghost use Rattle.std.specs.Prelude.{⊤};

    ghost IsWith = { λ _ _. ⊤ };

    fn begin<L: Ledger>(
        _alloc: Global,
        _timetable: &Timetable,
        _steps: &mut Steps<L>,
    ) -> Result<NoDeficits, Memory> {
        Ok(NoDeficits)
    }

    fn follow<L: Ledger>(&mut self, _touched: Touched, _steps: &mut Steps<L>) {}
}

/// Does the edit of a record in a script, which what is kept follows, or refuses it and changes nothing. It answers what it
/// touched.
pub(crate) fn step<D: InStep, L: Ledger>(
    script: &mut Script,
    kept: &mut D,
    number: u32,
    edit: &Edit,
    steps: &mut Steps<L>,
) -> Result<Touched, EditFault>
    requires form { InForm edit.now }
    requires next { IsNext script.old number edit.now }
    requires with { D.IsWith kept.old script.old.timetable }
    ensures accepted { OnOk result (stepped script.old number edit.now ≡ Ok script.new) }
    ensures slot { IfOk result (λ touched. IsSlotOf edit.now script.old.timetable touched.slot) }
    ensures with { OnOk result (D.IsWith kept.new script.new.timetable) }
    ensures places { OnOk result (length script.new.timetable.places ≡ length script.old.timetable.places) }
    ensures refused { IfErr result (λ refused. IsRefusal refused edit.now (stepped script.old number edit.now)) }
    ensures script { OnErr result (script.new ≡ script.old) }
    ensures kept { OnErr result (kept.new ≡ kept.old) }
    ensures counted { OnOk result (steps.new ≤ steps.old + 56) }
    ensures uncounted { OnErr result (steps.new ≡ steps.old) }
{
    // Their clauses say that the timetables before and after are valid.
    let _before = script.timetable().slots();
    let touched = script.step(number, edit)?;
    let _after = script.timetable().slots();
    kept.follow(touched, steps);
    Ok(touched)
}
