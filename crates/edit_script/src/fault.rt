ghost use Rattle.std.specs.Prelude.{◌≡◌, ◌≢◌, IfOk, string_bytes};
ghost use Rattle.edit_script.specs.Lines.{fault_text_of, side_name_of};

use crate::writing::signed_text;
use desk_io::{Memory, Text};
use std::alloc::Global;

/// An end of an extra trip.
#[derive(Clone, Copy, PartialEq, Eq)]
pub enum TripEnd {
    From,
    To,
}

/// Why an edit is refused.
#[derive(Clone, Copy, PartialEq, Eq)]
pub enum EditFault {
    /// The record is of no form.
    NotAnEdit,
    /// No trip has that name.
    UnknownTrip,
    /// The trip does not run.
    NotLive,
    /// The trip runs.
    NotCancelled,
    /// The trip would be off its published times by so many minutes, outside its tolerances.
    OutsideTolerance(i16),
    /// The trip would depart before midnight.
    BeforeMidnight,
    /// A trip has that name.
    TripExists,
    /// No place has the name of that end.
    UnknownPlace(TripEnd),
    /// The ends are places of different classes.
    ClassesDiffer,
    /// The trip would not arrive after it departs.
    NotForward,
    /// There are as many trips as there may be.
    TooManyTrips,
    /// No edit can be taken back.
    NothingToUndo,
    /// No edit was taken back.
    NothingToRedo,
    /// There were as many shows as there may be.
    TooManyShows,
    /// No memory was found.
    Memory,
}

// The name of an end.
fn side_name(side: TripEnd) -> &'static str
    ensures { result.now ≡ side_name_of side }
{
    match side {
        TripEnd::From => "from",
        TripEnd::To => "to",
    }
}

/// What is printed of a refused edit.
pub fn fault_text(alloc: Global, fault: &EditFault) -> Result<Text, Memory>
    requires { fault.now ≢ EditFault.Memory }
    ensures { IfOk result (λ text. text ≡ fault_text_of fault.now) }
{
    let text = match fault {
        EditFault::NotAnEdit => "not an edit",
        EditFault::UnknownTrip => "unknown trip",
        EditFault::NotLive => "not live",
        EditFault::NotCancelled => "not cancelled",
        EditFault::OutsideTolerance(sum) => {
            let sum = signed_text(alloc, *sum)?;
            return Ok(Text::wrap(format!(in alloc; "outside tolerance ({})", sum.as_str())?));
        }
        EditFault::BeforeMidnight => "before midnight",
        EditFault::TripExists => "trip exists",
        EditFault::UnknownPlace(side) => {
            return Ok(Text::wrap(format!(in alloc; "unknown place {}", side_name(*side))?));
        }
        EditFault::ClassesDiffer => "two classes",
        EditFault::NotForward => "not forward",
        EditFault::TooManyTrips => "too many trips",
        EditFault::NothingToUndo => "nothing to undo",
        EditFault::NothingToRedo => "nothing to redo",
        EditFault::TooManyShows => "too many shows",
        EditFault::Memory => unreachable!(),
    };
    Text::of(alloc, text)
}

impl From<Memory> for EditFault {
    ghost use Rattle.std.specs.Prelude.{◌≡◌};
    ghost use Rattle.edit_script.specs.declared.fault.EditFault.TheVariants as fault;

    ghost from_gives = { λ _ refused. refused ≡ fault.Memory };

    fn from(_: Memory) -> EditFault {
        EditFault::Memory
    }
}
