//! Laws of the definitions that the contracts cite. Each is the contract of a function that does nothing.
ghost use Rattle.trip_model.specs.declared.limits.TheConstants.{LAST_MINUTE};
ghost use Rattle.std.specs.Prelude.{◌≡◌, ℕ, ◌+◌, ◌<◌, ◌≤◌, true, ℤ, pos, ◌≤ℤ◌, List, length, Option, Some, is_some, All};
ghost use Rattle.trip_model.specs.declared.trip.Move.{Move};
ghost use Rattle.trip_model.specs.Blocking.{StandsOnce, IsBlocking, IsFewest, IsLeast};
ghost use Rattle.trip_model.specs.Deficit.{deficit, live_moves};
ghost use Rattle.trip_model.specs.Links.{next_of, before_of, AreApart, AreLinks, link_count, blocks_along};
ghost use Rattle.trip_model.specs.Maximum.{IsFirstMaximum, first_maximum};
ghost use Rattle.trip_model.specs.Network.{Network, AreDepartures};
ghost use Rattle.trip_model.specs.Order.{minute_left, by_departure, RiseBy, TiesRise};
ghost use Rattle.trip_model.specs.Plain.{move_at, made, plain_network, timely_network, trip_moves, AreMoves};
ghost use Rattle.trip_model.specs.Steps.{steps, value_of_steps};
ghost use Rattle.trip_model.specs.Timetable.{TimetableView, Slot, IsTimetable};

/// The first maximum of a function of the minute is a first maximum, and there is no other.
pub fn first_maximum_law()
    ensures exists { (d : ℕ → ℤ) → IsFirstMaximum d (first_maximum d).0 (first_maximum d).1 }
    ensures unique { (d : ℕ → ℤ) (high : ℤ) (at : ℕ) → IsFirstMaximum d high at
        → first_maximum d ≡ (high, at) }
{}

/// Read as a function, the steps of a function of the minute give it back.
pub fn steps_law()
    ensures { (d : ℕ → ℤ) (t : ℕ) → t ≤ LAST_MINUTE → value_of_steps (steps d) t ≡ d t }
{}

/// Functions that agree at every minute have one first maximum and the same steps.
pub fn agreement_law()
    ensures maximum { (d e : ℕ → ℤ) → ((t : ℕ) → t ≤ LAST_MINUTE → d t ≡ e t)
        → first_maximum d ≡ first_maximum e }
    ensures steps { (d e : ℕ → ℤ) → ((t : ℕ) → t ≤ LAST_MINUTE → d t ≡ e t) → steps d ≡ steps e }
{}

/// Where every move arrives after it leaves, no maximum of a deficit is below 0.
pub fn deficit_maximum_law()
    ensures { (moves : List Move) (place : ℕ) → All (λ m. m.leaves < m.arrives) moves
        → pos 0 ≤ℤ (first_maximum (deficit moves place)).0 }
{}

/// Links along which departures rise make blocks in which each live slot is once and neighbours fit, whatever the order of
/// their first trips. There are as many trips as blocks and links.
pub fn links_law()
    ensures blocking { (network : Network) (departs : ℕ → ℕ) (links : List (Option ℕ)) (order : List ℕ)
        → AreDepartures network departs → AreLinks network links → StandsOnce network.live order
        → IsBlocking network (blocks_along links order) }
    ensures count { (network : Network) (departs : ℕ → ℕ) (links : List (Option ℕ)) (order : List ℕ)
        → AreDepartures network departs → AreLinks network links → StandsOnce network.live order
        → ((s : ℕ) → network.live s ≡ true → s < length links)
        → length (blocks_along links order) + link_count links ≡ length order }
{}

/// The trip before another has that one as its next. Where no trip is the next of two, it is the only one.
pub fn before_law()
    ensures next { (links : List (Option ℕ)) (i j : ℕ) → before_of links j ≡ Some i → next_of links i ≡ Some j }
    ensures before { (links : List (Option ℕ)) (i j : ℕ) → AreApart links → next_of links i ≡ Some j → before_of links j ≡ Some i }
{}

/// The order of departure has each slot once whose trip runs. Departures rise, and of one departure the lesser slot comes
/// first.
pub fn departure_order_law()
    ensures stands { (moves : List (Option Move))
        → StandsOnce (λ s. is_some (move_at moves s)) (by_departure moves) }
    ensures rise { (moves : List (Option Move))
        → RiseBy (λ s. minute_left (move_at moves s)) (by_departure moves) }
    ensures ties { (moves : List (Option Move))
        → TiesRise (λ s. minute_left (move_at moves s)) (by_departure moves) }
{}

/// A slot whose trip runs is one of the slots. The moves that are made are the live ones. The trips of a timetable make
/// moves that take time and arrive on the service day. Along trips that meet, and along trips that are in time, departures
/// rise. Links along which trips meet are links along which they are in time. A blocking without deadheads that has the
/// fewest vehicles is least.
pub fn plain_law()
    ensures within { (moves : List (Option Move)) (s : ℕ) → is_some (move_at moves s) ≡ true → s < length moves }
    ensures made { (slots : List Slot) → made (trip_moves slots) ≡ live_moves slots }
    ensures moves { (timetable : TimetableView) → IsTimetable timetable
        → AreMoves (length timetable.places) (trip_moves timetable.slots) }
    ensures meeting { (places : ℕ) (moves : List (Option Move)) → AreMoves places moves
        → AreDepartures (plain_network moves) (λ s. minute_left (move_at moves s)) }
    ensures timely { (places : ℕ) (moves : List (Option Move)) → AreMoves places moves
        → AreDepartures (timely_network moves) (λ s. minute_left (move_at moves s)) }
    ensures links { (moves : List (Option Move)) (links : List (Option ℕ)) → AreLinks (plain_network moves) links
        → AreLinks (timely_network moves) links }
    ensures least { (moves : List (Option Move)) (blocks : List (List ℕ)) → IsFewest (plain_network moves) blocks
        → IsLeast (plain_network moves) blocks }
{}
