ghost use Rattle.std.specs.Prelude.{◌≡◌, ◌+◌, ◌<◌, ◌≤◌, ◌++◌, length, IfOk, OnOk, string_bytes};
ghost use Rattle.desk_run.specs.Outside.{outside};
ghost use Rattle.desk_run.specs.Performs.{Performs};
ghost use Rattle.lowering_commands.specs.Shifts.{IsShiftsText, shift_line, shifts_asked, steps_of_shifts};

use deficit_steps::deficits_of;
use deficit_steps::laws::held_law;
use desk_feed::{OnFeed, Stands, TextCommand};
use desk_io::{Memory, Shelf, Sink, Steps, Text};
use desk_keeper::Keeper;
use desk_run::perform;
use edit_script::shift_line;
use shift_moves::{Shift, make_shift, next_shift};
use std::alloc::Global;
use std::fmt::Write;
use std::sync::ledger::Ledger;
use trip_model::Timetable;

// Appends the canonical line of a shift.
fn push_shift(
    alloc: Global,
    text: &mut String,
    timetable: &Timetable,
    shift: Shift,
) -> Result<(), Memory>
    requires { shift.slot < length timetable.now.slots }
    ensures { OnOk result (string_bytes text.new ≡ string_bytes text.old ++ shift_line timetable.now shift) }
{
    let line = shift_line(alloc, timetable.name(shift.slot), shift.by)?;
    writeln!(text, "{}", line.as_str())?;
    Ok(())
}

// The lines of the shifts that are made one after the other, and how many there are. The deficits are kept beside the timetable.
fn shifts_text<L: Ledger>(
    alloc: Global,
    timetable: &Timetable,
    steps: &mut Steps<L>,
) -> Result<Text, Memory>
    ensures text { IfOk result (IsShiftsText timetable.now 0) }
    ensures counted { steps.new ≤ steps.old + steps_of_shifts (length timetable.now.slots) }
{
    held_law();
    let mut moved = timetable.copy(alloc)?;
    let mut deficits = deficits_of(alloc, &moved, steps)?;
    // Its clause says that these are deficits.
    let _places = deficits.places();
    let mut text = String::new(alloc);
    let mut number = 0u32;
    while let Some(shift) = next_shift(&moved, &mut deficits, steps) {
        push_shift(alloc, &mut text, &moved, shift)?;
        make_shift(&mut moved, &mut deficits, shift, steps);
        number += 1;
    }
    writeln!(text, "shifts {number}, sum {}", deficits.total())?;
    Ok(Text::wrap(text))
}

#[derive(Drop)]
struct ShowShifts;

impl TextCommand for ShowShifts {
    ghost use Rattle.lowering_commands.specs.Shifts.{shifts_shown};

    ghost asks = { λ _. shifts_shown };

    fn text<L: Ledger>(&self, stands: Stands, steps: &mut Steps<L>) -> Result<Text, Memory> {
        shifts_text(stands.alloc, stands.timetable, steps)
    }
}

/// The command `shifts`: the first shift within tolerances with which fewer vehicles suffice without deadheads is made, and then
/// the next, until there is none. It answers the status.
#[tactic(auto, unfolding(crate::specs::Shifts::shifts_asked))]
pub fn run_shifts<S: Shelf, O: Sink, K: Keeper, L: Ledger>(
    alloc: Global,
    shelf: &mut S,
    out: &mut O,
    keeper: &mut K,
    steps: &mut Steps<L>,
) -> u8
    ensures { let at = outside S.state S.history O.state O.history K.state K.history in
        Performs shifts_asked (at shelf.old out.old keeper.old) (at shelf.new out.new keeper.new) result steps.old steps.new }
{
    perform(&OnFeed::text(ShowShifts), alloc, shelf, out, keeper, steps)
}
