ghost use Rattle.std.specs.Prelude.{◌≡◌, ◌+◌, ◌*◌, ◌≤◌, length, pos, IfOk};
ghost use Rattle.trip_model.specs.Deficit.{live_moves};
ghost use Rattle.trip_model.specs.Fleet.{deficit_sum};
ghost use Rattle.trip_model.specs.Timetable.{IsTimetable};
ghost use Rattle.deficit_steps.specs.Holds.{Holds};

use crate::Deficits;
use crate::laws::held_law;
use desk_io::{Memory, Steps};
use std::alloc::Global;
use std::sync::ledger::Ledger;
use trip_model::Timetable;

/// The deficits of the trips of a timetable that run.
pub fn deficits_of<L: Ledger>(
    alloc: Global,
    timetable: &Timetable,
    steps: &mut Steps<L>,
) -> Result<Deficits, Memory>
    ensures held { IfOk result (λ deficits. Holds deficits (live_moves timetable.now.slots)) }
    ensures places { IfOk result (λ deficits. length deficits ≡ length timetable.now.places) }
    ensures valid { IsTimetable timetable.now }
    ensures counted { steps.new ≤ steps.old + 28 * length timetable.now.slots }
{
    let mut deficits = Deficits::open(alloc, timetable.places())?;
    for s in 0..timetable.slots() {
        let trip = timetable.trip(s);
        if trip.live {
            held_law();
            deficits.add(&trip.as_move(), steps);
        }
    }
    Ok(deficits)
}

/// The sum of the maxima of the deficits of a timetable, the fewest vehicles without deadheads.
pub fn fixed_of<L: Ledger>(
    alloc: Global,
    timetable: &Timetable,
    steps: &mut Steps<L>,
) -> Result<u64, Memory>
    ensures sum { IfOk result (λ fixed. pos fixed ≡ deficit_sum timetable.now) }
    ensures counted { steps.new ≤ steps.old + 28 * length timetable.now.slots }
{
    held_law();
    let deficits = deficits_of(alloc, timetable, steps)?;
    // Its clause says that the deficits are those of moves between the places.
    let _places = deficits.places();
    Ok(deficits.total())
}
