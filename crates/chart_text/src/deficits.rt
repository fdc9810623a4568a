ghost use Rattle.std.specs.Prelude.{◌≡◌, ℕ, ◌<◌, ◌≤◌, ◌++◌, List, All, map, length, vec_len, string_bytes, IfOk, OnOk};
ghost use Rattle.trip_model.specs.declared.limits.TheConstants.{LAST_MINUTE, MINUTES};
ghost use Rattle.trip_model.specs.declared.trip.Move.{Move};
ghost use Rattle.trip_model.specs.Deficit.{deficit};
ghost use Rattle.deficit_steps.specs.Changes.{value};
ghost use Rattle.deficit_steps.specs.Holds.{Holds};
ghost use Rattle.chart_text.specs.Columns.{IsColumn};
ghost use Rattle.chart_text.specs.Deficits as spec;

use crate::columns::{COLUMN_MINUTES, column_list};
use crate::laws::chart_law;
use deficit_steps::Deficits;
use desk_io::{Memory, Text};
use gtfs_tables::minute_text;
use std::alloc::Global;
use std::fmt::Write;
use trip_model::{MINUTES, Timetable};

// The values of a place at the minutes 0 to 8,191. A value stays until the next step.
fn minute_values(alloc: Global, deficits: &Deficits, place: u16) -> Result<Vec<i32>, Memory>
    requires { place < length deficits.now }
    ensures minutes { IfOk result (λ values. vec_len values ≡ MINUTES) }
    ensures values { IfOk result (λ values. (t : ℕ) → t ≤ LAST_MINUTE
        → spec.value_in values.items t ≡ value deficits.now place t) }
{
    let steps = deficits.step_list(place)?;
    let mut rest = steps.as_slice();
    let mut values = Vec::with_capacity(alloc, usize::from(MINUTES))?;
    let mut value = 0;
    for minute in 0..MINUTES {
        if let [step, later @ ..] = rest
            && step.0 == minute
        {
            value = step.1;
            rest = later;
        }
        values.push(value)?;
    }
    Ok(values)
}

// The greatest value in the minutes of a column, of the values at the minutes 0 to 8,191.
fn greatest_in(values: &[i32], column: u16) -> i32
    requires minutes { length values.now ≡ MINUTES }
    requires column { IsColumn column }
    ensures { result ≡ spec.greatest_in (spec.value_in values.now) column }
{
    let first = usize::from(COLUMN_MINUTES * column);
    let mut high = values[first];
    for minute in 0..COLUMN_MINUTES as usize {
        high = high.max(values[first + minute]);
    }
    high
}

// A value as one character.
fn mark(value: i32) -> char
    ensures value { result ≡ spec.mark_of value }
    ensures ascii { result < 128 }
{
    match value {
        ..0 => '-',
        0..=9 => char::from(b'0' + value as u8),
        _ => '+',
    }
}

fn push_marks(text: &mut String, values: &[i32], columns: &[u16]) -> Result<(), Memory>
    requires minutes { length values.now ≡ MINUTES }
    requires columns { All IsColumn columns.now }
    ensures { OnOk result (string_bytes text.new ≡ string_bytes text.old
        ++ map (λ c. spec.mark_of (spec.greatest_in (spec.value_in values.now) c)) columns.now) }
{
    for column in columns {
        text.push(mark(greatest_in(values, *column)))?;
    }
    Ok(())
}

fn push_place(
    alloc: Global,
    text: &mut String,
    name: &str,
    deficits: &Deficits,
    place: u16,
    columns: &[u16],
) -> Result<(), Memory>
    requires place { place < length deficits.now }
    requires columns { All IsColumn columns.now }
    ensures { OnOk result (string_bytes text.new ≡ string_bytes text.old
        ++ spec.place_line columns.now name.now (value deficits.now place)) }
{
    let values = minute_values(alloc, deficits, place)?;
    push_marks(text, &values, columns)?;
    writeln!(text, " {name}")?;
    Ok(())
}

/// The chart of the deficits of all places. The first line is `chart from HH:MM` with the first minute of the first column.
/// Then each place has a line: one character for each ten minutes, a space and the place's name. The minutes go from the first
/// departure to the last end of the trips that run. The character is the greatest deficit in these minutes, in vehicles, as a
/// digit, `+` above 9 and `-` below 0. Where no trip runs, the chart is the one line `no trips`. The deficits are those of the
/// deficit function method, and the form of the chart is this project's own.
pub fn deficit_chart(
    alloc: Global,
    timetable: &Timetable,
    deficits: &Deficits,
) -> Result<Text, Memory>
    requires { length timetable.now.places ≡ length deficits.now }
    ensures text { IfOk result (λ text. text ≡ spec.deficit_chart_text timetable.now (value deficits.now)) }
    // Where a list of moves is held, these are its deficits.
    ensures held { (moves : List Move) → Holds deficits.now moves
        → IfOk result (λ text. text ≡ spec.deficit_chart_text timetable.now (deficit moves)) }
{
    chart_law();
    let columns = column_list(alloc, timetable)?;
    let Some(first) = columns.first() else {
        return Text::of(alloc, "no trips\n");
    };
    let mut text = String::new(alloc);
    let minute = minute_text(alloc, COLUMN_MINUTES * *first)?;
    writeln!(text, "chart from {}", minute.as_str())?;
    for place in 0..deficits.places() {
        push_place(
            alloc,
            &mut text,
            timetable.place_name(place),
            deficits,
            place,
            &columns,
        )?;
    }
    Ok(Text::wrap(text))
}
