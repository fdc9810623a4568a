//! Laws of plans and of their prices. Each is the contract of a function that does nothing.
ghost use Rattle.std.specs.Prelude.{◌≡◌, ◌≢◌, ℕ, ◌+◌, ◌-◌, ◌*◌, ◌<◌, ◌≤◌, true, List, length, sum, Option, None, Some};
ghost use Rattle.assignment_model.specs.declared.limits.TheConstants.{MOST_DEADHEAD, MOST_LIKING, VEHICLE_WEIGHT};
ghost use Rattle.assignment_model.specs.Choice.{worths, AreWorthMost, IsChosen};
ghost use Rattle.assignment_model.specs.Prices.{Plan, price, IsCertified, IsDay, IsLoose};
ghost use Rattle.assignment_model.specs.Tight.{IsTightBlock};
ghost use Rattle.trip_model.specs.declared.limits.TheConstants.{MOST_SLOTS};
ghost use Rattle.std.specs.List.{AllByRecursion};
ghost use Rattle.trip_model.specs.Blocking.{StandsOnce, IsBlocking, IsLeast};
ghost use Rattle.trip_model.specs.Links.{blocks_along};
ghost use Rattle.trip_model.specs.Network.{Network, AreDepartures};

/// The blocks of a certified plan are least over all blockings. For no blocking weighs more than all its prices, and a vehicle
/// weighs more than all empty minutes of a day.
pub fn certified_law()
    ensures { (network : Network) (slots : ℕ) (plan : Plan) (departs : ℕ → ℕ) → IsDay network slots
        → length plan.next ≡ slots → IsCertified network plan → AreDepartures network departs
        → (order : List ℕ) → StandsOnce network.live order → IsLeast network (blocks_along plan.next order) }
{}

/// The prices of a certified plan tell which blockings are least: exactly those whose pairs are tight, and whose ends have no price.
/// So all least blockings have the same prices.
pub fn least_law()
    ensures tight { (network : Network) (slots : ℕ) (plan : Plan) (departs : ℕ → ℕ) → IsDay network slots
        → length plan.next ≡ slots → IsCertified network plan → AreDepartures network departs
        → (blocks : List (List ℕ)) → IsLeast network blocks → AllByRecursion (IsTightBlock network plan) blocks }
    ensures least { (network : Network) (slots : ℕ) (plan : Plan) (departs : ℕ → ℕ) → IsDay network slots
        → length plan.next ≡ slots → IsCertified network plan → AreDepartures network departs
        → (blocks : List (List ℕ)) → IsBlocking network blocks → AllByRecursion (IsTightBlock network plan) blocks
        → IsLeast network blocks }
{}

/// Of the tight pairs of a certified plan, links that are worth most make the plan that is chosen: the prices as they stand certify
/// them, and no least blocking is liked more than their blocks.
pub fn choice_law()
    ensures certified { (network : Network) (slots : ℕ) (plan : Plan) (departs : ℕ → ℕ) (like : ℕ → ℕ → ℕ) (next : List (Option ℕ))
        (leave enter : List ℕ) → IsDay network slots → length plan.next ≡ slots → IsCertified network plan
        → AreDepartures network departs → ((i j : ℕ) → like i j ≤ MOST_LIKING) → length next ≡ slots
        → AreWorthMost (worths network plan like) next leave enter → IsCertified network (record plan { next = next }) }
    ensures chosen { (network : Network) (slots : ℕ) (plan : Plan) (departs : ℕ → ℕ) (like : ℕ → ℕ → ℕ) (next : List (Option ℕ))
        (leave enter : List ℕ) → IsDay network slots → length plan.next ≡ slots → IsCertified network plan
        → AreDepartures network departs → ((i j : ℕ) → like i j ≤ MOST_LIKING) → length next ≡ slots
        → AreWorthMost (worths network plan like) next leave enter
        → (order : List ℕ) → StandsOnce network.live order → IsChosen network like (blocks_along next order) }
{}

/// All prices of a certified plan are together at most 4,095 times what a vehicle and the longest ways home and out weigh. For
/// at least one slot has no next trip.
pub fn prices_law()
    ensures { (network : Network) (slots : ℕ) (plan : Plan) (departs : ℕ → ℕ) → IsDay network slots
        → length plan.next ≡ slots → IsCertified network plan → AreDepartures network departs
        → sum plan.leave + sum plan.enter ≤ (MOST_SLOTS - 1) * (VEHICLE_WEIGHT + 2 * MOST_DEADHEAD) }
{}

/// A loose plan with nothing left out is a certified one, and the other way round.
pub fn loose_law()
    ensures certified { (network : Network) (departs : ℕ → ℕ) (plan : Plan) → AreDepartures network departs
        → ((s : ℕ) → network.live s ≡ true → s < length plan.next) → IsLoose network plan None None → IsCertified network plan }
    ensures loose { (network : Network) (departs : ℕ → ℕ) (plan : Plan) → AreDepartures network departs
        → ((s : ℕ) → network.live s ≡ true → s < length plan.next) → IsCertified network plan → IsLoose network plan None None }
{}

/// No price of a plan is greater than what a vehicle and the longest ways home and out weigh. It is 0, or a part of the weight
/// of a link. In a loose plan this holds for every price but those of leaving `a` and of entering `b`.
pub fn greatest_price_law()
    ensures leave { (network : Network) (slots : ℕ) (plan : Plan) (a b : Option ℕ) → IsDay network slots → IsLoose network plan a b
        → (s : ℕ) → a ≢ Some s → price plan.leave s ≤ VEHICLE_WEIGHT + 2 * MOST_DEADHEAD }
    ensures enter { (network : Network) (slots : ℕ) (plan : Plan) (a b : Option ℕ) → IsDay network slots → IsLoose network plan a b
        → (s : ℕ) → b ≢ Some s → price plan.enter s ≤ VEHICLE_WEIGHT + 2 * MOST_DEADHEAD }
    ensures certified { (network : Network) (slots : ℕ) (plan : Plan) (departs : ℕ → ℕ) → IsDay network slots
        → length plan.next ≡ slots → IsCertified network plan → AreDepartures network departs → (s : ℕ)
        → (price plan.leave s ≤ VEHICLE_WEIGHT + 2 * MOST_DEADHEAD) × (price plan.enter s ≤ VEHICLE_WEIGHT + 2 * MOST_DEADHEAD) }
{}
