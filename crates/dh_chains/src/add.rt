ghost use Rattle.std.specs.Prelude.{◌≡◌, ◌+◌, ◌*◌, ◌<◌, ◌≤◌, [], ◌∷◌, ◌++◌, List, length, All, ℤ, pos, ◌+ℤ◌};
ghost use Rattle.terminal_maxima.specs.declared.max_prefix.TheConstants.{MOST_CHANGE};
ghost use Rattle.trip_model.specs.Maximum.{sum_of_maxima};
ghost use Rattle.trip_model.specs.Plain.{IsMove};
ghost use Rattle.trip_model.specs.declared.trip.Move.{Move as ModelMove};
ghost use Rattle.deficit_steps.specs.Changes.{value};
ghost use Rattle.deficit_steps.specs.Holds.{Holds};
ghost use Rattle.dh_chains.specs.Chains.{IsChainOf, deadheads, move_of, moves_of};

use crate::chain::{Chain, Deadhead};
use deficit_steps::Deficits;
use deficit_steps::laws::held_law;
use desk_io::Steps;
use std::sync::ledger::Ledger;

// Adds one deadhead as a move, where so few moves are held that there is room for one more.
fn add_deadhead<L: Ledger>(deficits: &mut Deficits, deadhead: Deadhead, steps: &mut Steps<L>)
    requires valid { IsMove (length deficits.old) (move_of deadhead) }
    requires few { (moves : List ModelMove) × Holds deficits.old moves × (length moves < MOST_CHANGE) }
    ensures places { length deficits.new ≡ length deficits.old }
    ensures held { (moves : List ModelMove) → Holds deficits.old moves → Holds deficits.new (moves ++ move_of deadhead ∷ []) }
    ensures counted { steps.new ≤ steps.old + 28 }
{
    held_law();
    deficits.add(&deadhead.as_move(), steps);
}

// Adds the deadheads of a chain as moves, where there is room for three more.
fn add_deadheads<L: Ledger>(deficits: &mut Deficits, chain: &Chain, steps: &mut Steps<L>)
    requires valid { All (λ m. IsMove (length deficits.old) (move_of m)) (deadheads chain.now) }
    requires few { (moves : List ModelMove) × Holds deficits.old moves × (length moves + 2 < MOST_CHANGE) }
    ensures places { length deficits.new ≡ length deficits.old }
    ensures held { (moves : List ModelMove) → Holds deficits.old moves
        → Holds deficits.new (moves ++ moves_of (deadheads chain.now)) }
    ensures counted { steps.new ≤ steps.old + 3 * 28 }
{
    add_deadhead(deficits, chain.first, steps);
    let Some(second) = chain.second else { return };
    add_deadhead(deficits, second, steps);
    let Some(third) = chain.third else { return };
    add_deadhead(deficits, third, steps);
}

/// Adds the deadheads of a chain as moves, with which the sum of the maxima of the deficits is smaller by one.
pub fn add_chain<L: Ledger>(deficits: &mut Deficits, chain: &Chain, steps: &mut Steps<L>)
    requires chain { IsChainOf deficits.old chain.now }
    requires few { (moves : List ModelMove) × Holds deficits.old moves × (length moves + 2 < MOST_CHANGE) }
    ensures places { length deficits.new ≡ length deficits.old }
    ensures held { (moves : List ModelMove) → Holds deficits.old moves
        → Holds deficits.new (moves ++ moves_of (deadheads chain.now)) }
    ensures total { (sum_of_maxima (value deficits.new) (length deficits.new) +ℤ pos 1)
        ≡ sum_of_maxima (value deficits.old) (length deficits.old) }
    ensures counted { steps.new ≤ steps.old + 3 * 28 }
{
    held_law();
    let _before = deficits.places();
    add_deadheads(deficits, chain, steps);
    let _after = deficits.places();
}
