//! Laws of the definitions that the contracts cite. Each is the contract of a function that does nothing.
ghost use Rattle.std.specs.Prelude.{◌≡◌, ℕ, ◌<◌, ◌≤◌, ℤ, pos, neg_ℤ, ◌≤ℤ◌, ◌<ℤ◌, List, ◌∷◌, ◌++◌, length, All};
ghost use Rattle.trip_model.specs.declared.limits.TheConstants.{LAST_MINUTE};
ghost use Rattle.trip_model.specs.declared.trip.Move.{Move};
ghost use Rattle.trip_model.specs.Deficit.{deficit};
ghost use Rattle.trip_model.specs.Maximum.{first_maximum, sum_of_maxima};
ghost use Rattle.deficit_steps.specs.Changes.{IsDeficits, change_at, value};
ghost use Rattle.deficit_steps.specs.Holds.{Holds};
ghost use Rattle.deficit_steps.specs.Lines.{deficit_text};

/// Where a list of moves is held, the value of each place at each minute is the deficit of that list. The sum of the maxima is
/// that of the list too. No maximum is below 0, and no change is greater than the number of the moves. A place that a held move
/// leaves in minute 0 has a change of at least 1 there.
pub fn held_law()
    ensures deficit { (deficits : List (List ℤ)) (moves : List Move) (place minute : ℕ) → IsDeficits deficits
        → Holds deficits moves → place < length deficits → minute ≤ LAST_MINUTE
        → value deficits place minute ≡ deficit moves place minute }
    ensures total { (deficits : List (List ℤ)) (moves : List Move) → IsDeficits deficits → Holds deficits moves
        → sum_of_maxima (value deficits) (length deficits) ≡ sum_of_maxima (deficit moves) (length deficits) }
    ensures maximum { (deficits : List (List ℤ)) (place : ℕ) → IsDeficits deficits → place < length deficits
        → pos 0 ≤ℤ (first_maximum (value deficits place)).0 }
    ensures change { (deficits : List (List ℤ)) (moves : List Move) (place minute : ℕ) → Holds deficits moves
        → place < length deficits → minute ≤ LAST_MINUTE
        → (neg_ℤ (pos (length moves)) ≤ℤ change_at deficits place minute)
        × (change_at deficits place minute ≤ℤ pos (length moves)) }
    ensures begins { (deficits : List (List ℤ)) (before after : List Move) (m : Move)
        → Holds deficits (before ++ m ∷ after) → All (λ n. n.leaves < n.arrives) (before ++ m ∷ after)
        → m.from < length deficits → m.leaves ≡ 0 → pos 0 <ℤ change_at deficits m.from 0 }
{}

/// Where a list of moves is held, the printed text is that of the deficits of that list.
pub fn text_law()
    ensures { (names : List (List ℕ)) (deficits : List (List ℤ)) (moves : List Move) → IsDeficits deficits
        → Holds deficits moves → length names ≡ length deficits
        → deficit_text names (value deficits) ≡ deficit_text names (deficit moves) }
{}
