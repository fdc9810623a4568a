//! Laws of the definitions that the contracts cite. Each is the contract of a function that does nothing.
ghost use Rattle.std.specs.Prelude.{◌≡◌, ◌≢◌, ◌↔◌, ℕ, ◌<◌, ◌≤◌, List, [], length, All, Option, None, Ok};
ghost use Rattle.deadhead_matrix.specs.declared.entry.Entry.{Entry};
ghost use Rattle.deadhead_matrix.specs.Deadheads.{deadheads_of};
ghost use Rattle.deadhead_matrix.specs.Fitting.{deadhead_network, network_of, ruled_network};
ghost use Rattle.deadhead_matrix.specs.Matrix.{MatrixView, AreLeastWalks, IsSquare, empty_matrix};
ghost use Rattle.deadhead_matrix.specs.Posts.{JoinsOneClass};
ghost use Rattle.assignment_model.specs.Prices.{Plan, IsDay};
ghost use Rattle.deadhead_matrix.specs.Plans.{IsPlanFor};
ghost use Rattle.deadhead_matrix.specs.Pulls.{IsPull};
ghost use Rattle.deadhead_matrix.specs.Terminals.{IsLeastTerminalWalk, terminal_at};
ghost use Rattle.deadhead_matrix.specs.Walks.{IsLeastWalk, IsWalk};
ghost use Rattle.desk_io.specs.declared.shelf.Found.{Found};
ghost use Rattle.trip_model.specs.declared.limits.TheConstants.{MOST_SLOTS};
ghost use Rattle.trip_model.specs.declared.trip.Move.{Move};
ghost use Rattle.trip_model.specs.Blocking.{IsLeast};
ghost use Rattle.trip_model.specs.Links.{blocks_along};
ghost use Rattle.trip_model.specs.Network.{AreDepartures};
ghost use Rattle.trip_model.specs.Order.{minute_left, by_departure};
ghost use Rattle.trip_model.specs.Place.{Place, class_of};
ghost use Rattle.trip_model.specs.Plain.{move_at, plain_network, trip_moves, AreMoves};
ghost use Rattle.trip_model.specs.Timetable.{TimetableView, IsTimetable};

/// Without entries and pulls a vehicle can go on exactly from a trip to one that it meets, and never runs empty.
pub fn no_entries_law()
    ensures { (places : ℕ) (moves : List (Option Move)) → AreMoves places moves
        → deadhead_network moves (empty_matrix places) ≡ plain_network moves }
{}

/// Where there are no rules of pairs, the network of a timetable and a matrix is that of the walks and pulls alone.
pub fn no_rules_law()
    ensures { (timetable : TimetableView) (matrix : MatrixView) → matrix.rules ≡ []
        → network_of timetable matrix ≡ deadhead_network (trip_moves timetable.slots) matrix }
{}

/// The network of moves and a matrix is one of one day, and along trips that fit departures rise.
pub fn deadhead_law()
    ensures departures { (places : ℕ) (names : List (List ℕ)) (moves : List (Option Move)) (matrix : MatrixView) → AreMoves places moves
        → AreDepartures (ruled_network names moves matrix) (λ s. minute_left (move_at moves s)) }
    ensures day { (places : ℕ) (names : List (List ℕ)) (moves : List (Option Move)) (matrix : MatrixView) → AreMoves places moves
        → All IsPull matrix.pulls → length moves ≤ MOST_SLOTS → IsDay (ruled_network names moves matrix) (length moves) }
{}

/// Matrices of the same entries, the same pulls, the same rules and as many places are equal: a least walk takes one number of
/// minutes.
pub fn one_matrix_law()
    ensures { (one other : MatrixView) → one.entries ≡ other.entries → one.pulls ≡ other.pulls → one.rules ≡ other.rules
        → length one.walks ≡ length other.walks → IsSquare one → IsSquare other → AreLeastWalks one → AreLeastWalks other → one ≡ other }
{}

/// The entries of a file lead between places of one class, and so does a walk along such entries. So a vehicle that runs empty
/// stays among the posts of its class.
pub fn class_law()
    ensures entries { (found : Found) (timetable after : TimetableView) (entries : List Entry) → IsTimetable timetable
        → deadheads_of found timetable ≡ Ok (after, entries) → All (JoinsOneClass after.places) entries }
    ensures walks { (places : List Place) (entries es : List Entry) (a b : ℕ) → All (JoinsOneClass places) entries
        → IsWalk entries a es b → class_of places a ≡ class_of places b }
{}

/// Between posts of one class the least walk is that of their terminals, along the deadheads that records of the file allow;
/// between classes there is none.
pub fn terminal_law()
    ensures terminals { (found : Found) (timetable after : TimetableView) (entries : List Entry) → IsTimetable timetable → IsTimetable after
        → deadheads_of found timetable ≡ Ok (after, entries) → (a b : ℕ) → a < length after.places → b < length after.places
        → class_of after.places a ≡ class_of after.places b
        → (m : Option ℕ) → IsLeastWalk entries a b m ↔ IsLeastTerminalWalk found (terminal_at after.places a) (terminal_at after.places b)
        m }
    ensures none { (found : Found) (timetable after : TimetableView) (entries : List Entry) → IsTimetable timetable
        → deadheads_of found timetable ≡ Ok (after, entries) → (a b : ℕ) → class_of after.places a ≢ class_of after.places b
        → IsLeastWalk entries a b None }
{}

/// The blocks of a plan for a timetable and a matrix are least, in the order of departure of their first trips.
pub fn plan_law()
    ensures { (timetable : TimetableView) (matrix : MatrixView) (plan : Plan) → IsTimetable timetable → All IsPull matrix.pulls
        → IsPlanFor timetable matrix plan
        → IsLeast (network_of timetable matrix) (blocks_along plan.next (by_departure (trip_moves timetable.slots))) }
{}
