//! Laws of the definitions that the contracts cite. Each is the contract of a function that does nothing.
ghost use Rattle.service_days.specs.Laws.{DatesAreOfTheCalendar};

/// A number is taken for that of a date exactly where the calendar has its day.
pub fn date_law()
    ensures { DatesAreOfTheCalendar }
{}
