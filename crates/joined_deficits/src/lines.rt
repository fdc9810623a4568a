ghost use Rattle.std.specs.Prelude.{◌≡◌, ◌<◌, ◌++◌, List, length, string_bytes, IfOk, OnOk};
ghost use Rattle.trip_model.specs.declared.trip.Move.{Move};
ghost use Rattle.trip_model.specs.Deficit.{deficit};
ghost use Rattle.trip_model.specs.Timetable.{place_names};
ghost use Rattle.deficit_steps.specs.Changes.{value};
ghost use Rattle.deficit_steps.specs.Holds.{Holds};
ghost use Rattle.joined_deficits.specs.Lines.{joined_place, joined_text};

use crate::laws::text_law;
use deficit_steps::{Deficits, push_steps};
use desk_io::{Memory, Text};
use gtfs_tables::minute_text;
use std::alloc::Global;
use std::fmt::Write;
use trip_model::Timetable;

fn push_place(
    alloc: Global,
    text: &mut String,
    name: &str,
    joined: &Deficits,
    before: &Deficits,
    place: u16,
) -> Result<(), Memory>
    requires joined { place < length joined.now }
    requires before { place < length before.now }
    ensures { OnOk result (string_bytes text.new ≡ string_bytes text.old
        ++ joined_place name.now (value joined.now place) (value before.now place)) }
{
    let (high, at) = joined.max(place);
    let (was, _) = before.max(place);
    let minute = minute_text(alloc, at)?;
    writeln!(text, "{name} max {high} at {}, was {was}", minute.as_str())?;
    let steps = joined.step_list(place)?;
    push_steps(alloc, text, &steps)
}

/// The deficits of joined moves as they are printed beside those of the trips alone. Each place has `NAME max D at HH:MM, was
/// E` and a line for each of its steps. E is the maximum without the deadheads. Last comes `sum S, blocks N` with the sum of
/// the maxima and the number of blocks.
pub fn joined_lines(
    alloc: Global,
    timetable: &Timetable,
    joined: &Deficits,
    before: &Deficits,
    blocks: usize,
) -> Result<Text, Memory>
    requires joined { length timetable.now.places ≡ length joined.now }
    requires before { length timetable.now.places ≡ length before.now }
    ensures text { IfOk result (λ text. text ≡ joined_text (place_names timetable.now) (value joined.now) (value before.now) blocks) }
    // Where lists of moves are held, these are their deficits.
    ensures held { (moves trips : List Move) → Holds joined.now moves → Holds before.now trips
        → IfOk result (λ text. text ≡ joined_text (place_names timetable.now) (deficit moves) (deficit trips) blocks) }
{
    text_law();
    // Its clause says that these are deficits.
    let _places = before.places();
    let mut text = String::new(alloc);
    for place in 0..joined.places() {
        push_place(
            alloc,
            &mut text,
            timetable.place_name(place),
            joined,
            before,
            place,
        )?;
    }
    let sum = joined.total();
    writeln!(text, "sum {sum}, blocks {blocks}")?;
    Ok(Text::wrap(text))
}
