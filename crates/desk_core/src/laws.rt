//! A law of the definitions that the contracts cite: the contract of a function that does nothing.
ghost use Rattle.std.specs.Prelude.{◌≡◌, List};
ghost use Rattle.desk_core.specs.Desk.{DeskView};
ghost use Rattle.desk_core.specs.Standing.{IsLed, IsOpened};

/// Begin with a desk to which nothing was done. Two moments at which the same edits stand have the same timetable and plan,
/// prices included. What was done and undone between them changes nothing of that.
pub fn same_edits_law()
    ensures { (start one two : DeskView) (before between : List DeskView) → IsOpened start → IsLed start before one → IsLed one between two
        → one.script.standing ≡ two.script.standing → (one.script.timetable ≡ two.script.timetable) × (one.plan ≡ two.plan) }
{}
