ghost use Rattle.std.specs.Prelude.{◌≡◌, ◌<◌, length, replicate, All, IfOk};
ghost use Rattle.gtfs_tables.specs.Papers.{IsWithinLimit};
ghost use Rattle.gtfs_tables.specs.Reading.{Gives};
ghost use Rattle.deadhead_matrix.specs.Depot.{pulls_by, pulls_of};
ghost use Rattle.deadhead_matrix.specs.Pulls.{pull_at, IsPull};

use crate::depot::Depot;
use desk_io::{Found, Memory};
use gtfs_tables::FeedFault;
use std::alloc::Global;
use std::marker::Model;
use trip_model::Timetable;

/// In how many minutes a vehicle runs empty from the depot to a place before its first trip, and home from there after its
/// last.
#[derive(Clone, Copy)]
pub struct Pull {
    pub pull_out: u16,
    pub pull_in: u16,
}

/// At the depot a vehicle runs no minute empty.
pub const NO_PULL: Pull = Pull {
    pull_out: 0,
    pull_in: 0,
};

/// The pulls of places in the order of their numbers, none of more than 1,440 minutes.
pub struct Pulls {
    pulls: Vec<Pull>,
}

impl Drop for Pulls {
    fn drop(self) {
        let Self { pulls: _ } = self;
    }
}

impl Model for Pulls {
    ghost use Rattle.std.specs.Prelude.{List, All};
    ghost use Rattle.deadhead_matrix.specs.declared.pulls.Pull.{Pull};
    ghost use Rattle.deadhead_matrix.specs.Pulls.{IsPull};

    ghost Value = { List Pull };

    ghost view = { λ p. p.pulls.items };

    ghost invariant = { λ p. All IsPull p.pulls.items };
}

// The pulls that rows give the places of a timetable.
fn pulls_by(alloc: Global, rows: &Depot, timetable: &Timetable) -> Result<Pulls, Memory>
    ensures { IfOk result (λ pulls. pulls ≡ pulls_by rows.now timetable.now.places) }
{
    let mut pulls = Vec::new(alloc);
    for place in 0..timetable.places() {
        pulls.push(rows.pull(timetable.terminal_name(place)))?;
    }
    Ok(Pulls { pulls })
}

impl Pulls {
    /// The pulls of so many places where no vehicle needs a minute from the depot or back to it.
    pub fn none(alloc: Global, places: u16) -> Result<Pulls, Memory>
        ensures { IfOk result (λ pulls. pulls ≡ replicate places NO_PULL) }
    {
        Ok(Pulls {
            pulls: vec![in alloc; NO_PULL; usize::from(places)]?,
        })
    }

    /// The pulls of the places of a timetable by what was found of `depot.csv`. They are those of the row of the place's
    /// terminal, and 0 where there is no such row. A missing file has no rows, and a row whose terminal has no place is judged
    /// and then passed over.
    pub fn read(alloc: Global, depot: &Found, timetable: &Timetable) -> Result<Pulls, FeedFault>
        requires { IsWithinLimit depot.now }
        ensures gives { Gives (λ pulls. pulls) result (pulls_of depot.now timetable.now) }
        ensures places { IfOk result (λ pulls. length pulls ≡ length timetable.now.places) }
    {
        let rows = Depot::read(alloc, depot)?;
        Ok(pulls_by(alloc, &rows, timetable)?)
    }

    /// Of how many places these are the pulls.
    pub(crate) fn len(&self) -> usize
        ensures count { result ≡ length self.now }
        ensures valid { All IsPull self.now }
    {
        self.pulls.len()
    }

    /// The pulls of a place.
    pub(crate) fn of(&self, place: u16) -> Pull
        requires { place < length self.now }
        ensures value { result ≡ pull_at self.now place }
        ensures valid { IsPull result }
    {
        self.pulls[usize::from(place)]
    }
}
