ghost use Rattle.std.specs.Prelude.{◌≡◌, ◌≤◌};

use std::marker::Model;
use trip_model::{MOST_LAYOVER, MOST_TOLERANCE};

/// Minutes, at most so many.
#[derive(Drop)]
pub(crate) struct Minutes<const MOST: u16> {
    minutes: u16,
}

impl<const MOST: u16> Model for Minutes<MOST> {
    ghost use Rattle.std.specs.Prelude.{ℕ, ◌≤◌};

    ghost Value = { ℕ };

    ghost view = { λ m. m.minutes };

    ghost invariant = { λ m. m.minutes ≤ MOST };
}

impl<const MOST: u16> Minutes<MOST> {
    pub(crate) fn of(minutes: u16) -> Minutes<MOST>
        requires { minutes ≤ MOST }
        ensures { result ≡ minutes }
    {
        Minutes { minutes }
    }

    pub(crate) fn minutes(&self) -> u16
        ensures value { result ≡ self.now }
        ensures most { result ≤ MOST }
    {
        self.minutes
    }
}

/// The most minutes of a tolerance, as wide as those of a layover.
const TOLERANCE: u16 = MOST_TOLERANCE as u16;

/// How long a vehicle stays at a place after a trip: at most 240 minutes.
pub(crate) type Layover = Minutes<MOST_LAYOVER>;

/// By how much a trip may be moved one way: at most 60 minutes.
pub(crate) type Tolerance = Minutes<TOLERANCE>;
