//! A law of the definitions that the contracts cite, as the contract of a function that does nothing.
ghost use Rattle.std.specs.Prelude.{◌≡◌, [], List, None, IfSome};
ghost use Rattle.feed_read.specs.FeedTrips.{first_stop_time, last_stop_time, IsFirst, IsLast};
ghost use Rattle.feed_read.specs.StopTimes.{StopTimeView};

/// The first stop time of a trip is one of its stop times, and none has a lesser number along the trip. The last one is one of
/// them, and none has a greater number. A trip that has a stop time has both.
pub fn ends_law()
    ensures first { (stop_times : List StopTimeView) → IfSome (first_stop_time stop_times) (IsFirst stop_times) }
    ensures last { (stop_times : List StopTimeView) → IfSome (last_stop_time stop_times) (IsLast stop_times) }
    ensures without_first { (stop_times : List StopTimeView) → first_stop_time stop_times ≡ None → stop_times ≡ [] }
    ensures without_last { (stop_times : List StopTimeView) → last_stop_time stop_times ≡ None → stop_times ≡ [] }
{}
