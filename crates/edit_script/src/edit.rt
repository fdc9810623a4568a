ghost use Rattle.std.specs.Prelude.{◌≡◌, IfOk};
ghost use Rattle.edit_script.specs.Edits.{trip_of};

use desk_io::{Memory, Text};
use std::alloc::Global;

/// The most minutes that an edit shifts a trip, either way.
pub const MOST_SHIFT: u16 = 120;

/// The most shows that a script has.
pub const MOST_SHOWS: u32 = 64;

/// An edit of a timetable. Trips and places are known by their names.
#[derive(Drop)]
pub enum Edit {
    /// The trip departs and arrives by so many minutes later, or earlier where they are negative.
    Shift {
        trip: Text,
        by: i16,
    },
    /// The trip does not run.
    Cancel {
        trip: Text,
    },
    /// The trip runs again.
    Restore {
        trip: Text,
    },
    /// One more trip runs, from a place to a place.
    Extra {
        trip: Text,
        from: Text,
        to: Text,
        departs: u16,
        arrives: u16,
    },
    /// The last edit is taken back.
    Undo,
    /// The edit that was taken back last is done again.
    Redo,
    /// The plan is shown.
    Show,
}

impl Edit {
    /// The trip that it names. An undo, a redo and a show name none.
    pub fn trip(&self) -> &str
        ensures { result.now ≡ trip_of self.now }
    {
        match self {
            Edit::Shift { trip, by: _ } | Edit::Cancel { trip } | Edit::Restore { trip } =>
                trip.as_str(),
            Edit::Extra {
                trip,
                from: _,
                to: _,
                departs: _,
                arrives: _,
            } => trip.as_str(),
            Edit::Undo | Edit::Redo | Edit::Show => "",
        }
    }

    /// An equal edit.
    pub fn copy(&self, alloc: Global) -> Result<Edit, Memory>
        ensures { IfOk result (λ copy. copy ≡ self.now) }
    {
        match self {
            Edit::Shift { trip, by } => Ok(Edit::Shift {
                trip: Text::of(alloc, trip.as_str())?,
                by: *by,
            }),
            Edit::Cancel { trip } => Ok(Edit::Cancel {
                trip: Text::of(alloc, trip.as_str())?,
            }),
            Edit::Restore { trip } => Ok(Edit::Restore {
                trip: Text::of(alloc, trip.as_str())?,
            }),
            Edit::Extra {
                trip,
                from,
                to,
                departs,
                arrives,
            } => Ok(Edit::Extra {
                trip: Text::of(alloc, trip.as_str())?,
                from: Text::of(alloc, from.as_str())?,
                to: Text::of(alloc, to.as_str())?,
                departs: *departs,
                arrives: *arrives,
            }),
            Edit::Undo => Ok(Edit::Undo),
            Edit::Redo => Ok(Edit::Redo),
            Edit::Show => Ok(Edit::Show),
        }
    }
}

/// A record of a script: its edit, or none where it is of no form.
#[derive(Drop)]
pub enum Line {
    Edit(Edit),
    NotAnEdit,
}
