//! Laws of the definitions that the contracts cite. Each is the contract of a function that does nothing.
ghost use Rattle.std.specs.Prelude.{◌≡◌, List, ◌∷◌, ◌++◌, length, ℤ, pos, ◌+ℤ◌, ◌↔◌};
ghost use Rattle.trip_model.specs.declared.trip.Move.{Move};
ghost use Rattle.trip_model.specs.Deficit.{deficit};
ghost use Rattle.trip_model.specs.Maximum.{sum_of_maxima};
ghost use Rattle.deadhead_matrix.specs.Matrix.{MatrixView};
ghost use Rattle.deficit_steps.specs.Changes.{IsDeficits};
ghost use Rattle.deficit_steps.specs.Holds.{Holds};
ghost use Rattle.dh_chains.specs.declared.chain.Deadhead.{Deadhead};
ghost use Rattle.dh_chains.specs.Chains.{IsFirstChain, IsUnitChain, NoChain, Places, moves_of, places_of, places_with, with_deadheads};

/// With the deadheads of a chain as further moves, the sum of the maxima is smaller by exactly one. That holds for the deficits
/// of moves and for any others. Where deficits hold moves, their chains are those of the moves, and the first is the first of
/// these. Where they have none, the moves have none.
pub fn chain_law()
    ensures falls { (places : Places) (first : Deadhead) (rest : List Deadhead) → IsUnitChain places first rest
        → (sum_of_maxima (with_deadheads places.deficit (first ∷ rest)) places.count +ℤ pos 1)
        ≡ sum_of_maxima places.deficit places.count }
    ensures moves { (moves : List Move) (matrix : MatrixView) (first : Deadhead) (rest : List Deadhead)
        → IsUnitChain (places_with (deficit moves) matrix) first rest
        → (sum_of_maxima (deficit (moves ++ moves_of (first ∷ rest))) (length matrix.walks) +ℤ pos 1)
        ≡ sum_of_maxima (deficit moves) (length matrix.walks) }
    ensures held { (deficits : List (List ℤ)) (moves : List Move) (matrix : MatrixView) (first : Deadhead) (rest : List Deadhead)
        → IsDeficits deficits → Holds deficits moves → length deficits ≡ length matrix.walks
        → IsUnitChain (places_of deficits matrix) first rest ↔ IsUnitChain (places_with (deficit moves) matrix) first rest }
    ensures first { (deficits : List (List ℤ)) (moves : List Move) (matrix : MatrixView) (first : Deadhead) (rest : List Deadhead)
        → IsDeficits deficits → Holds deficits moves → length deficits ≡ length matrix.walks
        → IsFirstChain (places_of deficits matrix) first rest → IsFirstChain (places_with (deficit moves) matrix) first rest }
    ensures none { (deficits : List (List ℤ)) (moves : List Move) (matrix : MatrixView)
        → IsDeficits deficits → Holds deficits moves → length deficits ≡ length matrix.walks
        → NoChain (places_of deficits matrix) → NoChain (places_with (deficit moves) matrix) }
{}
