ghost use Rattle.std.specs.Prelude.{◌≡◌, codes, None, Some};
ghost use Rattle.gtfs_tables.specs.Times.{rounded_down, rounded_up, seconds_of};

/// A time is its seconds; one of 60 minutes is none.
pub fn a_time()
    ensures time { seconds_of (codes "06:30:00") ≡ Some 23400 }
    ensures late { seconds_of (codes " 25:05:07 ") ≡ Some 90307 }
    ensures none { seconds_of (codes "06:60:00") ≡ None }
{}

/// A departure at 06:30:40 counts as minute 390.
pub fn a_rounded_departure()
    ensures { rounded_down 23440 ≡ 390 }
{}

/// An arrival at 06:30:10 counts as minute 391.
pub fn a_rounded_arrival()
    ensures { rounded_up 23410 ≡ 391 }
{}
