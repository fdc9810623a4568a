ghost use Rattle.std.specs.Prelude.{◌≡◌, List};

/// A trip between two places, in minutes of the service day as they are now.
#[derive(Clone, Copy)]
pub struct Trip {
    /// The place at which it starts.
    pub from: u16,
    /// The place at which it ends.
    pub to: u16,
    /// The minute of the first departure, rounded down.
    pub departs: u16,
    /// The minute of the last arrival, rounded up, with the layover of the end place.
    pub ends: u16,
    /// By how many minutes `departs` and `ends` are after the published ones.
    pub offset: i8,
    /// By how many minutes the trip may be moved before its published times, at most 60.
    pub early: u8,
    /// By how many minutes the trip may be moved after its published times, at most 60.
    pub late: u8,
    /// Whether the trip runs. A cancelled trip keeps its slot.
    pub live: bool,
}

/// A vehicle's way from one place to another, in minutes of the service day.
#[derive(Clone, Copy)]
pub struct Move {
    pub from: u16,
    pub to: u16,
    pub leaves: u16,
    /// The minute from which the vehicle can leave again.
    pub arrives: u16,
}

impl Trip {
    ghost use Rattle.trip_model.specs.Place.{Place};
    ghost use Rattle.trip_model.specs.Trip.{move_of, shifted, IsValidTrip, MayShift};

    /// The trip as its deficit counts it.
    pub fn as_move(&self) -> Move
        ensures { result ≡ move_of self.now }
    {
        Move {
            from: self.from,
            to: self.to,
            leaves: self.departs,
            arrives: self.ends,
        }
    }

    // The trip moved by so many minutes.
    pub(crate) fn shifted(self, by: i16) -> Trip
        requires valid { (places : List Place) × IsValidTrip places self }
        requires within { MayShift self by }
        ensures trip { result ≡ shifted self by }
        ensures valid { (places : List Place) → IsValidTrip places self → IsValidTrip places result }
    {
        Trip {
            departs: self.departs.checked_add_signed(by).unwrap(),
            ends: self.ends.checked_add_signed(by).unwrap(),
            offset: (i16::from(self.offset) + by) as i8,
            ..self
        }
    }
}
