ghost use Rattle.std.specs.Prelude.{◌≡◌, length, IfNone, IfSome, IsUtf8, MatchBool};
ghost use Rattle.block_audit.specs.Stated.{AreNames};
ghost use Rattle.audit_command.specs.Audit.{IsFirstBad};

use gtfs_tables::{Column, Table, place_of};

// Whether a field is UTF-8.
fn is_utf8(field: &[u8]) -> bool
    ensures { MatchBool result (IsUtf8 field.now) (¬ IsUtf8 field.now) }
{
    str::from_utf8(field).is_ok()
}

/// The first selected record, counted from 0, whose `block_id` is not UTF-8.
pub(crate) fn bad_name(trips: &Table, chosen: &[bool]) -> Option<u32>
    requires { length chosen.now ≡ length trips.now.rows }
    ensures bad { IfSome result (IsFirstBad trips.now chosen.now) }
    ensures names { IfNone result (AreNames trips.now chosen.now) }
{
    let place = place_of(Column::BlockId, trips.header());
    for before in 0..trips.records() {
        if chosen[before as usize] && !is_utf8(trips.row(before + 1).field(place)) {
            return Some(before);
        }
    }
    None
}
