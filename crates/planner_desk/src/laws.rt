//! Laws of the definitions that the contracts cite. Each is the contract of a function that does nothing.
ghost use Rattle.std.specs.Prelude.{◌≡◌, ℕ, List, [], ◌∷◌, ◌++◌, Ok, Err};
ghost use Rattle.planner_desk.specs.declared.edit.PlannerEdit.{PlannerEdit};
ghost use Rattle.planner_desk.specs.declared.fault.PlannerFault.{PlannerFault};
ghost use Rattle.planner_desk.specs.declared.standing.Standing.{Standing};
ghost use Rattle.planner_desk.specs.Laws as spec;
ghost use Rattle.planner_desk.specs.Machine.{Numbered, edit_record, no_edit_record, planners_machine};
ghost use Rattle.planner_desk.specs.Planners.{asked_record, standing_after};
ghost use Rattle.trip_model.specs.Timetable.{TimetableView};

/// What each answer to an undo says. One that is accepted takes out the planner's last edit alone, and no later edit names its
/// trip. One with nothing to undo is of a planner of whom no edit stands. One that is held tells the number of the first later
/// edit that names the trip of the planner's last one.
pub fn undo_law()
    ensures taken { spec.UndoTakesBack }
    ensures nothing { spec.NothingStands }
    ensures held { spec.HolderStands }
{}

/// Planners that are stepped over the records of a script stay at the state of the machine.
pub fn machine_law()
    // an edit that is accepted is accepted by the machine
    ensures accepted { (base : TimetableView) (records : List Numbered) (next : List Standing) (number : ℕ) (asked : PlannerEdit)
        → standing_after base (planners_machine base records) (asked_record number asked) ≡ Ok next
        → planners_machine base (records ++ edit_record number asked ∷ []) ≡ next }
    // one that is refused changes nothing
    ensures refused { (base : TimetableView) (records : List Numbered) (refused : PlannerFault) (number : ℕ) (asked : PlannerEdit)
        → standing_after base (planners_machine base records) (asked_record number asked) ≡ Err refused
        → planners_machine base (records ++ edit_record number asked ∷ []) ≡ planners_machine base records }
    // nor does a record of no form
    ensures no_edit { (base : TimetableView) (records : List Numbered) (number : ℕ)
        → planners_machine base (records ++ no_edit_record number ∷ []) ≡ planners_machine base records }
{}

/// Whatever planners ask for, the edits that stand fold over the base without a refusal. An undo takes out one edit, and each
/// of those after it is accepted without it.
pub fn folding_law()
    // the records that stand after an accepted one fold, where those before it did
    ensures step { spec.StaysFolding }
    // so after any records those that stand fold
    ensures always { spec.AlwaysFolds }
{}
