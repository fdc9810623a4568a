//! Laws of the definitions that the contracts cite. Each is the contract of a function that does nothing.
ghost use Rattle.std.specs.Prelude.{◌≡◌, ◌↔◌, ℕ, ◌<◌, true, length, Option, None, Some};
ghost use Rattle.deadhead_matrix.specs.Matrix.{MatrixView};
ghost use Rattle.assignment_model.specs.Prices.{Plan, IsCertified};
ghost use Rattle.deadhead_matrix.specs.Fitting.{network_of};
ghost use Rattle.pair_graph.specs.Pairs.{pairs_of, pairs_network};
ghost use Rattle.plan_history.specs.Stands.{same_stand};
ghost use Rattle.plan_history.specs.declared.stand.Stand.{Stand};
ghost use Rattle.price_repair.specs.Without.{IsCertifiedWith, IsCertifiedWithout};
ghost use Rattle.trip_model.specs.declared.trip.Trip.{Trip};
ghost use Rattle.trip_model.specs.Timetable.{TimetableView, with_trip, IsTimetable};

use price_repair::laws::edit_law;

/// A slot is not listed among the changes exactly where it had before what it has after.
pub fn same_law()
    ensures { (before : Option Stand) (after : Stand) → same_stand before after ≡ true ↔ before ≡ Some after }
{}

/// After another trip was put into a slot of a timetable, its plan meets what a replacement asks of it.
pub fn replace_law()
    ensures taken { (timetable : TimetableView) (matrix : MatrixView) (plan : Plan) (s : ℕ) (trip : Trip) → IsTimetable timetable
        → length timetable.places ≡ length matrix.walks → IsCertified (network_of timetable matrix) plan
        → IsCertifiedWith (pairs_of (with_trip timetable s trip) matrix (Some s)) s plan }
    ensures added { (timetable : TimetableView) (matrix : MatrixView) (s : ℕ) (trip : Trip) → s < length timetable.slots → trip.live ≡ true
        → (plan : Plan) → IsCertified (pairs_network (pairs_of (with_trip timetable s trip) matrix (Some s))) plan
        → IsCertifiedWithout (pairs_of (with_trip timetable s trip) matrix None) s plan }
{
    edit_law();
}
