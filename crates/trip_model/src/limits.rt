/// The most places that a timetable may have.
pub const MOST_PLACES: u16 = 512;

/// The most slots that a timetable may have, and so the most trips.
pub const MOST_SLOTS: u16 = 4096;

/// The most minutes that a vehicle stays at a place after a trip.
pub const MOST_LAYOVER: u16 = 240;

/// The most minutes by which a trip may be moved one way.
pub const MOST_TOLERANCE: u8 = 60;

/// The last minute at which a trip may be published to depart, 99:59.
pub const LAST_DEPARTURE: u16 = 5999;

/// The last minute at which a trip may be published to end, 104:00: at 100:00 and after the longest layover.
pub const LAST_END: u16 = 6240;

/// The last minute that is scheduled.
pub const LAST_MINUTE: u16 = 8191;

/// How many minutes are scheduled, from 0 on: a service day of 100 hours, and what may follow it.
pub const MINUTES: u16 = 8192;
