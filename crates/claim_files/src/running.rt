ghost use Rattle.std.specs.Prelude.{◌≡◌};
ghost use Rattle.claim_files.specs.Running as spec;

use trip_model::Timetable;

/// The slot of the trip of that name, if it runs.
pub(crate) fn running(timetable: &Timetable, name: &str) -> Option<u16>
    ensures { result ≡ spec.running timetable.now name.now }
{
    let slot = timetable.find(name)?;
    if timetable.trip(slot).live {
        Some(slot)
    } else {
        None
    }
}
