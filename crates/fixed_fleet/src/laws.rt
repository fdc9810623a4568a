//! The theorem of blocks without deadheads, and a law of the rule. Each is the contract of a function that does nothing.
ghost use Rattle.std.specs.Prelude.{◌≡◌, ℕ, ℤ, pos, ◌+ℤ◌, ◌≤ℤ◌, List, length, map, Option, Some, All};
ghost use Rattle.trip_model.specs.declared.trip.Move.{Move};
ghost use Rattle.trip_model.specs.Blocking.{IsBlocking, IsFewest};
ghost use Rattle.trip_model.specs.Deficit.{deficit};
ghost use Rattle.trip_model.specs.Links.{AreLinks, link_count, blocks_along};
ghost use Rattle.trip_model.specs.Maximum.{sum_of_maxima};
ghost use Rattle.trip_model.specs.Order.{by_departure};
ghost use Rattle.trip_model.specs.Plain.{made, plain_network, IsMove, AreMoves};
ghost use Rattle.fixed_fleet.specs.Rule.{first_in_first_out, forerunner, IsForerunner};

/// The theorem of blocks without deadheads: the fewest vehicles number the sum of the maxima of the deficits.
pub fn plain_blocks_law()
    // Over any list of moves some blocking has as many blocks, and none has fewer.
    ensures theorem { (places : ℕ) (moves : List Move) → All (IsMove places) moves
        → (blocks : List (List ℕ)) × IsFewest (plain_network (map Some moves)) blocks
        × (pos (length blocks) ≡ sum_of_maxima (deficit moves) places) }
    // No blocking has fewer blocks, also where some slots make no move.
    ensures least { (places : ℕ) (moves : List (Option Move)) (blocks : List (List ℕ)) → AreMoves places moves
        → IsBlocking (plain_network moves) blocks
        → sum_of_maxima (deficit (made moves)) places ≤ℤ pos (length blocks) }
    // The blocks of the rule are as many, and no blocking has fewer.
    ensures reached { (places : ℕ) (moves : List (Option Move)) → AreMoves places moves
        → IsFewest (plain_network moves) (blocks_along (first_in_first_out moves) (by_departure moves))
        × (pos (length (blocks_along (first_in_first_out moves) (by_departure moves)))
        ≡ sum_of_maxima (deficit (made moves)) places) }
{}

/// The links of the rule join trips that meet, and number the trips less the sum of the maxima. The forerunner of a trip
/// is, of the slots whose vehicles are free and stand where it begins, the one that has ended first, and of those that
/// ended together the least.
pub fn rule_law()
    ensures links { (places : ℕ) (moves : List (Option Move)) → AreMoves places moves
        → AreLinks (plain_network moves) (first_in_first_out moves) }
    ensures count { (places : ℕ) (moves : List (Option Move)) → AreMoves places moves
        → pos (length (by_departure moves))
        ≡ (pos (link_count (first_in_first_out moves)) +ℤ sum_of_maxima (deficit (made moves)) places) }
    ensures forerunner { (moves : List (Option Move)) (links : List (Option ℕ)) (j : ℕ)
        → IsForerunner moves links j (forerunner moves links j) }
{}
