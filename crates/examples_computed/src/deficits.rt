ghost use Rattle.std.specs.Prelude.{◌≡◌, [], ◌∷◌, pos};
ghost use Rattle.trip_model.specs.Deficit.{deficit};
ghost use Rattle.trip_model.specs.Maximum.{first_maximum_up_to, sum_of_maxima};

/// Of two trips, from place 0 at 06:00 to place 1 at 06:30, and from place 2 at 07:00 to place 0 at 07:30: at 06:40 place 0 is one
/// vehicle short.
pub fn a_deficit()
    ensures { deficit (record { from = 0; to = 1; leaves = 360; arrives = 390 } ∷ record { from = 2; to = 0; leaves = 420; arrives = 450 } ∷ [])
        0 400 ≡ pos 1 }
{}

/// Of the same two trips the maxima of the three places add up to two vehicles.
#[tactic(auto, unfolding(trip_model::specs::Maximum::first_maximum, trip_model::specs::Maximum::first_maximum_up_to))]
pub fn a_sum_of_maxima()
    ensures { sum_of_maxima (deficit (record { from = 0; to = 1; leaves = 360; arrives = 390 }
        ∷ record { from = 2; to = 0; leaves = 420; arrives = 450 } ∷ [])) 3 ≡ pos 2 }
{}
