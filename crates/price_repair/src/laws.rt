//! Laws of the definitions that the contracts cite. Each is the contract of a function that does nothing.
ghost use Rattle.std.specs.Prelude.{◌≡◌, ℕ, ◌++◌, [], ◌∷◌, ◌<◌, true, false, length, None, Some};
ghost use Rattle.deadhead_matrix.specs.Matrix.{MatrixView};
ghost use Rattle.assignment_model.specs.Prices.{Plan, IsCertified};
ghost use Rattle.deadhead_matrix.specs.Fitting.{network_of};
ghost use Rattle.pair_graph.specs.Pairs.{pairs_of, pairs_network};
ghost use Rattle.price_repair.specs.Without.{IsCertifiedWith, IsCertifiedWithout};
ghost use Rattle.trip_model.specs.declared.trip.Trip.{Trip};
ghost use Rattle.trip_model.specs.Timetable.{Slot, TimetableView, slot_at, with_trip, IsTimetable};

/// After an edit of a timetable its plan meets what a repair asks of it. A plan for the timetable before is one with the trip
/// that is left out, and with a trip that was cancelled. It is one without a trip that was restored, and without one that was
/// appended. And a plan for the timetable without a trip is one without another trip in its slot.
pub fn edit_law()
    ensures left_out { (timetable : TimetableView) (matrix : MatrixView) (plan : Plan) (s : ℕ) → IsTimetable timetable
        → length timetable.places ≡ length matrix.walks → IsCertified (network_of timetable matrix) plan
        → IsCertifiedWith (pairs_of timetable matrix (Some s)) s plan }
    ensures cancelled { (timetable : TimetableView) (matrix : MatrixView) (plan : Plan) (s : ℕ) (trip : Trip) → IsTimetable timetable
        → length timetable.places ≡ length matrix.walks → trip.live ≡ false → IsCertified (network_of timetable matrix) plan
        → IsCertifiedWith (pairs_of (with_trip timetable s trip) matrix None) s plan }
    ensures restored { (timetable : TimetableView) (matrix : MatrixView) (plan : Plan) (s : ℕ) (trip : Trip) → s < length timetable.slots
        → (slot_at timetable s).trip.live ≡ false → trip.live ≡ true → IsCertified (network_of timetable matrix) plan
        → IsCertifiedWithout (pairs_of (with_trip timetable s trip) matrix None) s plan }
    ensures appended { (timetable : TimetableView) (matrix : MatrixView) (plan : Plan) (slot : Slot) → slot.trip.live ≡ true
        → IsCertified (network_of timetable matrix) plan
        → IsCertifiedWithout (pairs_of (record timetable { slots = timetable.slots ++ slot ∷ [] }) matrix None) (length timetable.slots)
        plan }
    ensures replaced { (timetable : TimetableView) (matrix : MatrixView) (plan : Plan) (s : ℕ) (trip : Trip) → s < length timetable.slots
        → trip.live ≡ true → IsCertified (pairs_network (pairs_of timetable matrix (Some s))) plan
        → IsCertifiedWithout (pairs_of (with_trip timetable s trip) matrix None) s plan }
{}
