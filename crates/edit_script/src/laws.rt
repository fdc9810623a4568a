//! Laws of the definitions that the contracts cite. Each is the contract of a function that does nothing.
ghost use Rattle.std.specs.Prelude.{◌≡◌, ℕ, List, [], ◌∷◌, ◌++◌, Ok, Err, IsOk};
ghost use Rattle.edit_script.specs.declared.edit.Edit.{Edit};
ghost use Rattle.edit_script.specs.declared.fault.EditFault.{EditFault};
ghost use Rattle.edit_script.specs.Folds.{Folds};
ghost use Rattle.edit_script.specs.Laws as spec;
ghost use Rattle.edit_script.specs.Machine.{IsAt, Numbered, edit_record, machine, no_edit_record, state_after};
ghost use Rattle.edit_script.specs.Script.{ScriptView, opened, stepped};
ghost use Rattle.trip_model.specs.Timetable.{TimetableView};

/// The canonical line of an edit in form, whose names are texts, with a line feed is one record, which reads as the same edit.
pub fn read_back_law()
    ensures { spec.EditReadsBack }
{}

/// A script that is stepped over records stays at the state of the edit machine. Its timetable is that of the edits that stand.
/// It has the timetable before each edit that can be undone, and after each that can be redone.
pub fn machine_law()
    ensures start { (base : TimetableView) → IsAt base (machine base []) (opened base) }
    // an edit that is accepted is accepted by the machine
    ensures accepted { (base : TimetableView) (records : List Numbered) (s next : ScriptView) (number : ℕ) (edit : Edit)
        → IsAt base (machine base records) s
        → stepped s number edit ≡ Ok next
        → IsOk (state_after base (machine base records) (edit_record number edit))
        × IsAt base (machine base (records ++ edit_record number edit ∷ [])) next }
    // one that is refused is refused by the machine for the same reason
    ensures refused { (base : TimetableView) (records : List Numbered) (s : ScriptView) (number : ℕ) (edit : Edit) (refused : EditFault)
        → IsAt base (machine base records) s
        → stepped s number edit ≡ Err refused
        → (state_after base (machine base records) (edit_record number edit) ≡ Err refused)
        × IsAt base (machine base (records ++ edit_record number edit ∷ [])) s }
    // a record of no form changes nothing
    ensures no_edit { (base : TimetableView) (records : List Numbered) (s : ScriptView) (number : ℕ) → IsAt base (machine base records) s
        → IsAt base (machine base (records ++ no_edit_record number ∷ [])) s }
{}

/// The edits that stand after any records are each accepted over those before it.
pub fn folds_law()
    ensures { (base : TimetableView) (records : List Numbered) → Folds base (machine base records).standing }
{}
