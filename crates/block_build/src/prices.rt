ghost use Rattle.std.specs.Prelude.{◌≡◌, length};

use trip_model::Timetable;

/// The prices of the trips of a timetable, slot by slot: of leaving each, and of entering it.
#[derive(Drop)]
pub struct SlotPrices<'a> {
    pub timetable: &'a Timetable,
    pub leave: &'a [u64],
    pub enter: &'a [u64],
    pub ghost leaving: { length leave.now ≡ length timetable.now.slots },
    pub ghost entering: { length enter.now ≡ length timetable.now.slots },
}
