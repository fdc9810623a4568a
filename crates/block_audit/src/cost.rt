ghost use Rattle.std.specs.Prelude.{◌≡◌, length};
ghost use Rattle.trip_model.specs.Blocking as blocking;
ghost use Rattle.trip_model.specs.Blocking.{IsBlocking};
ghost use Rattle.deadhead_matrix.specs.Fitting.{network_of};
ghost use Rattle.block_audit.specs.Above as spec;
ghost use Rattle.block_audit.specs.Stated.{slots_by};

use crate::stated::Stated;
use block_build::block_minutes;
use deadhead_matrix::Matrix;
use deadhead_matrix::laws::deadhead_law;
use trip_model::Timetable;
use trip_model::laws::plain_law;

/// By how much blocks are above least ones.
#[derive(Clone, Copy)]
pub enum Above {
    /// They are as good.
    Nothing,
    /// By so many vehicles.
    Vehicles(u32),
    /// They have as few vehicles, and so many empty minutes more.
    Minutes(u32),
}

/// The vehicles and the empty minutes of stated blocks that have no misfit, so that they are a blocking. The minutes are those
/// out of the depot, of the walks between their trips, and home.
pub fn stated_cost(timetable: &Timetable, matrix: &Matrix, stated: &Stated) -> (u32, u32)
    requires places { length timetable.now.places ≡ length matrix.now.walks }
    requires blocking { IsBlocking (network_of timetable.now matrix.now) (slots_by stated.now) }
    ensures vehicles { result.0 ≡ length stated.now }
    ensures minutes { result.1 ≡ blocking.empty_minutes (network_of timetable.now matrix.now) (slots_by stated.now) }
{
    plain_law();
    deadhead_law();
    // Their clauses say that the trips are valid and that no pull is longer than a day.
    let _slots = timetable.slots();
    let _places = matrix.places();
    let mut minutes = 0;
    for b in 0..stated.len() {
        minutes += block_minutes(timetable, matrix, stated.block(b));
    }
    (stated.len() as u32, minutes)
}

/// By how much a cost, of vehicles and empty minutes, is above the least: by vehicles, or where these are as few by minutes.
pub fn above_by(cost: (u32, u32), least: (u32, u32)) -> Above
    ensures { result ≡ spec.above_by cost.0 cost.1 least.0 least.1 }
{
    let (vehicles, minutes) = cost;
    let (least_vehicles, least_minutes) = least;
    if vehicles > least_vehicles {
        Above::Vehicles(vehicles - least_vehicles)
    } else if minutes > least_minutes {
        Above::Minutes(minutes - least_minutes)
    } else {
        Above::Nothing
    }
}
