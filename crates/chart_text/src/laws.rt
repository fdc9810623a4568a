//! A law of the definitions that the contracts cite. It is the contract of a function that does nothing.
ghost use Rattle.std.specs.Prelude.{◌≡◌, List, ℤ, length};
ghost use Rattle.trip_model.specs.declared.trip.Move.{Move};
ghost use Rattle.trip_model.specs.Deficit.{deficit};
ghost use Rattle.trip_model.specs.Timetable.{TimetableView, IsTimetable};
ghost use Rattle.deficit_steps.specs.Changes.{IsDeficits, value};
ghost use Rattle.deficit_steps.specs.Holds.{Holds};
ghost use Rattle.chart_text.specs.Deficits.{deficit_chart_text};

use deficit_steps::laws::held_law;

/// Where a list of moves is held, the chart is that of the deficits of that list.
pub fn chart_law()
    ensures { (timetable : TimetableView) (deficits : List (List ℤ)) (moves : List Move) → IsTimetable timetable
        → IsDeficits deficits → Holds deficits moves → length timetable.places ≡ length deficits
        → deficit_chart_text timetable (value deficits) ≡ deficit_chart_text timetable (deficit moves) }
{
    held_law();
}
