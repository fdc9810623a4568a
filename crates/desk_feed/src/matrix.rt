ghost use Rattle.std.specs.Prelude.{◌≡◌, length, IfOk};
ghost use Rattle.desk_feed.specs.Schedule.{IsMatrixOf};

use deadhead_matrix::{Deadheads, Matrix, Pulls};
use desk_io::Memory;
use pair_rules::PairRules;
use std::alloc::Global;
use trip_model::Timetable;

/// The matrix of deadheads between the places of a timetable, with their pulls and the rules of pairs.
pub fn matrix_of(
    alloc: Global,
    timetable: &Timetable,
    deadheads: &Deadheads,
    pulls: Pulls,
    rules: PairRules,
) -> Result<Matrix, Memory>
    requires { length pulls ≡ length timetable.now.places }
    ensures { IfOk result (IsMatrixOf deadheads.now pulls rules (length timetable.now.places)) }
{
    let mut matrix = Matrix::of(alloc, deadheads, timetable.places())?;
    matrix.set_pulls(pulls);
    matrix.set_rules(rules);
    Ok(matrix)
}
