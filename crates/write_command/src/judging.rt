ghost use Rattle.std.specs.Prelude.{◌≡◌};
ghost use Rattle.write_command.specs.Write as spec;

use desk_settings::Settings;
use gtfs_tables::Column;

// The columns of `trips.txt` that are known by their names.
const TRIP_COLUMNS: [Column; 3] = [Column::ServiceId, Column::TripId, Column::BlockId];

// Those where vehicles are of classes.
const CLASSED_TRIP_COLUMNS: [Column; 4] = [
    Column::ServiceId,
    Column::TripId,
    Column::BlockId,
    Column::RouteId,
];

/// The columns of `trips.txt` that are known by their names: that of routes is where vehicles are of classes.
pub(crate) fn trip_columns(settings: &Settings) -> &'static [Column]
    ensures { result.now ≡ spec.trip_columns settings.now }
{
    if settings.classed() {
        &CLASSED_TRIP_COLUMNS
    } else {
        &TRIP_COLUMNS
    }
}
