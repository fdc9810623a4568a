ghost use Rattle.std.specs.Prelude.{◌≡◌, ◌<◌, ◌^◌, true, length, All, unwrap_or, ◌≤◌, []};
ghost use Rattle.deadhead_matrix.specs.Fitting.{network_of};
ghost use Rattle.trip_model.specs.Blocking as spec;
ghost use Rattle.trip_model.specs.Blocking.{IsBlock, IsBlocking};
ghost use Rattle.trip_model.specs.Network.{Fits};
ghost use Rattle.trip_model.specs.Timetable.{slot_at};
ghost use Rattle.trip_model.specs.declared.limits.TheConstants.{LAST_MINUTE};

use crate::Blocks;
use deadhead_matrix::Matrix;
use deadhead_matrix::laws::deadhead_law;
use trip_model::Timetable;
use trip_model::laws::plain_law;

// The empty minutes from the trip of one slot to that of another which fits after it.
fn minutes_between(timetable: &Timetable, matrix: &Matrix, before: u16, slot: u16) -> u32
    requires before { before < length timetable.now.slots }
    requires slot { slot < length timetable.now.slots }
    requires places { length timetable.now.places ≡ length matrix.now.walks }
    requires fits { Fits (network_of timetable.now matrix.now) before slot }
    ensures { result ≡ unwrap_or ((network_of timetable.now matrix.now).empty before slot) 0 }
{
    let to = timetable.trip(before).to;
    let from = timetable.trip(slot).from;
    matrix.minutes(to, from).unwrap_or(0)
}

/// The empty minutes of a block, which are fewer than 2 to the 32: out of the depot, between its trips, and home.
pub fn block_minutes(timetable: &Timetable, matrix: &Matrix, block: &[u16]) -> u32
    requires places { length timetable.now.places ≡ length matrix.now.walks }
    requires block { IsBlock (network_of timetable.now matrix.now) block.now }
    requires live { All (λ s. (slot_at timetable.now s).trip.live ≡ true) block.now }
    requires few { spec.block_minutes (network_of timetable.now matrix.now) block.now < 2 ^ 32 }
    ensures { result ≡ spec.block_minutes (network_of timetable.now matrix.now) block.now }
{
    let first = timetable.trip(block[0]);
    let last = timetable.trip(block[block.len() - 1]);
    let mut minutes = u32::from(matrix.pull_out(first.from));
    for n in 1..block.len() {
        minutes += minutes_between(timetable, matrix, block[n - 1], block[n]);
    }
    minutes + u32::from(matrix.pull_in(last.to))
}

/// The empty minutes of blocks: those out of the depot, of the walks between their trips, and home.
pub fn empty_minutes(timetable: &Timetable, matrix: &Matrix, blocks: &Blocks) -> u32
    requires places { length timetable.now.places ≡ length matrix.now.walks }
    requires blocking { IsBlocking (network_of timetable.now matrix.now) blocks.now }
    ensures { result ≡ spec.empty_minutes (network_of timetable.now matrix.now) blocks.now }
{
    plain_law();
    deadhead_law();
    // Their clauses say that the trips are valid and that no pull is longer than a day.
    let _slots = timetable.slots();
    let _places = matrix.places();
    let mut minutes = 0;
    for number in 0..blocks.len() {
        minutes += block_minutes(timetable, matrix, blocks.block(number));
    }
    minutes
}
