ghost use Rattle.std.specs.Prelude.{◌≡◌, ◌≤◌, IfOk, IfSome};
ghost use Rattle.std.proofs.Props.{props};
ghost use Rattle.gtfs_tables.specs.declared.times.TheConstants.{LAST_SECOND};

use desk_io::{Memory, Text};
use std::alloc::Global;

/// A record of a selected trip: the slot of the trip, the stop, its times in seconds of the service day, and its
/// `stop_sequence`.
#[derive(Clone, Copy)]
pub(crate) struct StopTime<'a> {
    pub(crate) trip: usize,
    pub(crate) stop: &'a str,
    pub(crate) arrival: Option<u32>,
    pub(crate) departure: Option<u32>,
    pub(crate) sequence: u64,
    ghost arrival_on_day: { IfSome arrival (λ seconds. seconds ≤ LAST_SECOND) } by { Prim.hlevel props },
    ghost departure_on_day: { IfSome departure (λ seconds. seconds ≤ LAST_SECOND) } by { Prim.hlevel props },
}

/// The first or the last stop time of a trip, which is kept when its record is gone.
#[derive(Drop)]
pub(crate) struct End {
    pub(crate) trip: usize,
    pub(crate) stop: Text,
    pub(crate) arrival: Option<u32>,
    pub(crate) departure: Option<u32>,
    pub(crate) sequence: u64,
    ghost arrival_on_day: { IfSome arrival (λ seconds. seconds ≤ LAST_SECOND) } by { Prim.hlevel props },
    ghost departure_on_day: { IfSome departure (λ seconds. seconds ≤ LAST_SECOND) } by { Prim.hlevel props },
}
