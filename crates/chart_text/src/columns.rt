ghost use Rattle.std.specs.Prelude.{◌≡◌, ◌*◌, ◌≤◌, All, IfOk, unwrap_or};
ghost use Rattle.trip_model.specs.Deficit.{live_moves};
ghost use Rattle.trip_model.specs.Timetable.{IsTimetable};
ghost use Rattle.chart_text.specs.Columns.{first_departure, last_end, columns_of, IsColumn};

use desk_io::Memory;
use std::alloc::Global;
use trip_model::Timetable;

/// How many minutes a column of a chart has.
pub const COLUMN_MINUTES: u16 = 10;

/// The last column that a chart may have. It begins at 105:00, when all trips have ended.
pub const LAST_COLUMN: u16 = 630;

// The first departure of the trips that run and the last end. Where no trip runs, the first departure is later than
// any minute, and the last end is 0.
fn first_and_last(timetable: &Timetable) -> (u16, u16)
    ensures first { result.0 ≡ unwrap_or (first_departure (live_moves timetable.now.slots)) 65535 }
    ensures last { result.1 ≡ last_end (live_moves timetable.now.slots) }
    ensures in_day { result.1 ≤ COLUMN_MINUTES * LAST_COLUMN }
    ensures valid { IsTimetable timetable.now }
{
    let mut first = u16::MAX;
    let mut last = 0;
    for slot in 0..timetable.slots() {
        let trip = timetable.trip(slot);
        if trip.live {
            first = first.min(trip.departs);
            last = last.max(trip.ends);
        }
    }
    (first, last)
}

/// The numbers of the columns of the trips that run, in order. Column c has the minutes 10 c to 10 c + 9.
pub fn column_list(alloc: Global, timetable: &Timetable) -> Result<Vec<u16>, Memory>
    ensures columns { IfOk result (λ columns. columns.items ≡ columns_of (live_moves timetable.now.slots)) }
    ensures in_day { IfOk result (λ columns. All IsColumn columns.items) }
    ensures valid { IsTimetable timetable.now }
{
    let (first, last) = first_and_last(timetable);
    Ok((first / COLUMN_MINUTES..last / COLUMN_MINUTES + 1).collect(alloc)?)
}
