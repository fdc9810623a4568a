//! Laws of the definitions that the contracts cite. Each is the contract of a function that does nothing.
ghost use Rattle.std.specs.Prelude.{◌≡◌, ℕ, ◌+◌, ◌<◌, ◌≤◌, Bool, false, List, ◌∷◌, ◌++◌, length, Option, None, Some};
ghost use Rattle.assignment_model.specs.Prices.{Plan};
ghost use Rattle.pair_graph.specs.Pairs.{PairsView};
ghost use Rattle.pair_search.specs.Arranged.{arranged, departing, slots_of, AreInOrder};
ghost use Rattle.pair_search.specs.Determined.{first_nearest, dist_from, leave_after, enter_after};
ghost use Rattle.pair_search.specs.Order.{IsOrder};
ghost use Rattle.pair_search.specs.Relinking.{IsShifted};
ghost use Rattle.pair_search.specs.Search.{at, is_done, as_columns, AreLooked};
ghost use Rattle.pair_search.specs.Side.{SideView, pairs_minute, pairs_post};
ghost use Rattle.pair_search.specs.Visits.{SearchesOnce, Takes};
ghost use Rattle.pair_search.specs.declared.look.Look.{Look};
ghost use Rattle.pair_search.specs.declared.order.Column.{Column};

/// What is picked, seen and shifted in a search is determined by its start. Of the columns that are not done a pick takes the
/// first that none is nearer than. Where none is nearer than the best end, it takes none. Once a row has looked at all columns,
/// they are as far as is computed. Where the search has ended, so are the prices.
pub fn one_search_law()
    ensures pick { (n j bound : ℕ) (done : List Bool) (dist : List ℕ) → j < n → is_done done j ≡ false → at dist j < bound
        → ((h : ℕ) → h < n → is_done done h ≡ false → at dist j ≤ at dist h)
        → ((h : ℕ) → h < j → is_done done h ≡ false → at dist j < at dist h)
        → first_nearest n done dist bound ≡ Some j }
    ensures end { (n bound : ℕ) (done : List Bool) (dist : List ℕ) → ((h : ℕ) → h < n → is_done done h ≡ false → bound ≤ at dist h)
        → first_nearest n done dist bound ≡ None }
    ensures look { (w : ℕ → Option ℕ) (from start : ℕ) (enter : List ℕ) (done : List Bool) (dist parent dist' parent' : List ℕ)
        → length dist' ≡ length dist
        → AreLooked w (length dist) from start enter (as_columns dist parent done) (as_columns dist' parent' done)
        → dist' ≡ dist_from w start enter done dist }
    ensures leave { (a : ℕ) (plan : Plan) (dist : List ℕ) (fall : ℕ) (leave' enter' : List ℕ) → length leave' ≡ length plan.leave
        → IsShifted (length plan.enter) a plan.next dist fall plan.leave plan.enter leave' enter' → leave' ≡ leave_after a plan dist fall }
    ensures enter { (a : ℕ) (plan : Plan) (dist : List ℕ) (fall : ℕ) (leave' enter' : List ℕ) → length enter' ≡ length plan.enter
        → IsShifted (length plan.enter) a plan.next dist fall plan.leave plan.enter leave' enter' → enter' ≡ enter_after plan dist fall }
{}

/// The order of columns is determined by the pairs, the side and the column that is left out. That of departures is determined
/// by the pairs.
pub fn order_law()
    ensures columns { (pairs : PairsView) (turned : Bool) (without : Option ℕ) (columns : List Column) (places : List ℕ)
        → IsOrder (length pairs.moves) (pairs_minute pairs turned) (pairs_post pairs turned without) columns places
        → AreInOrder (length pairs.moves) columns → slots_of columns ≡ arranged pairs turned without }
    ensures departures { (pairs : PairsView) (columns : List Column) (places : List ℕ)
        → IsOrder (length pairs.moves) (pairs_minute pairs false) (λ _. None) columns places
        → AreInOrder (length pairs.moves) columns → slots_of columns ≡ departing pairs }
{}

/// A list that has a look twice is not that of a search. The looks of a call are those by which the list grew, and the steps are as
/// many.
pub fn looks_law()
    ensures twice { (side : SideView) (before between after : List Look) (look : Look)
        → SearchesOnce side (before ++ look ∷ (between ++ look ∷ after)) → ⊥ }
    ensures grown { (side : SideView) (was looks : List Look) (paid total : ℕ) → Takes (SearchesOnce side) was (was ++ looks) paid total
        → (SearchesOnce side looks) × (total ≡ paid + length looks) }
{}
