ghost use Rattle.std.specs.Prelude.{◌≡◌, ◌<◌, ◌++◌, List, length, string_bytes, IfOk, OnOk};
ghost use Rattle.std.specs.List.{flat_map};
ghost use Rattle.trip_model.specs.declared.trip.Move.{Move};
ghost use Rattle.trip_model.specs.Deficit.{deficit};
ghost use Rattle.trip_model.specs.Timetable.{place_names};
ghost use Rattle.deficit_steps.specs.Changes.{value};
ghost use Rattle.deficit_steps.specs.Holds.{Holds};
ghost use Rattle.deficit_steps.specs.Lines.{step_line, place_lines, deficit_text};

use crate::Deficits;
use crate::laws::text_law;
use desk_io::{Memory, Text};
use gtfs_tables::minute_text;
use std::alloc::Global;
use std::fmt::Write;
use trip_model::Timetable;

/// Appends a line for each of the steps of a place.
pub fn push_steps(alloc: Global, text: &mut String, steps: &[(u16, i32)]) -> Result<(), Memory>
    ensures { OnOk result (string_bytes text.new ≡ string_bytes text.old ++ flat_map step_line steps.now) }
{
    for step in steps {
        let minute = minute_text(alloc, step.0)?;
        let value = step.1;
        writeln!(text, " {} {value}", minute.as_str())?;
    }
    Ok(())
}

fn push_place(
    alloc: Global,
    text: &mut String,
    name: &str,
    deficits: &Deficits,
    place: u16,
) -> Result<(), Memory>
    requires { place < length deficits.now }
    ensures { OnOk result (string_bytes text.new ≡ string_bytes text.old ++ place_lines name.now (value deficits.now place)) }
{
    let (high, at) = deficits.max(place);
    let minute = minute_text(alloc, at)?;
    writeln!(text, "{name} max {high} at {}", minute.as_str())?;
    let steps = deficits.step_list(place)?;
    push_steps(alloc, text, &steps)
}

/// The deficits of all places as they are printed. Each place has `NAME max D at HH:MM` and a line for each of its steps. Last
/// comes the sum of the maxima.
pub fn deficit_lines(
    alloc: Global,
    timetable: &Timetable,
    deficits: &Deficits,
) -> Result<Text, Memory>
    requires { length timetable.now.places ≡ length deficits.now }
    ensures text { IfOk result (λ text. text ≡ deficit_text (place_names timetable.now) (value deficits.now)) }
    // Where a list of moves is held, these are its deficits.
    ensures held { (moves : List Move) → Holds deficits.now moves
        → IfOk result (λ text. text ≡ deficit_text (place_names timetable.now) (deficit moves)) }
{
    text_law();
    let mut text = String::new(alloc);
    for place in 0..deficits.places() {
        push_place(
            alloc,
            &mut text,
            timetable.place_name(place),
            deficits,
            place,
        )?;
    }
    let sum = deficits.total();
    writeln!(text, "sum {sum}")?;
    Ok(Text::wrap(text))
}
