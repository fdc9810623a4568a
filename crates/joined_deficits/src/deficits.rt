ghost use Rattle.std.specs.Prelude.{◌≡◌, ◌+◌, ◌*◌, ◌≤◌, ◌<◌, ◌++◌, length, All, IfOk, OnOk};
ghost use Rattle.trip_model.specs.Blocking.{IsBlocking};
ghost use Rattle.trip_model.specs.Plain.{IsMove};
ghost use Rattle.deadhead_matrix.specs.Fitting.{network_of};
ghost use Rattle.deficit_steps.specs.Holds.{Holds};
ghost use Rattle.joined_deficits.specs.declared.limits.TheConstants.{MOST_MOVES};
ghost use Rattle.joined_deficits.specs.Joined as spec;

use crate::laws::moves_law;
use crate::legs::{Leg, legs_of};
use block_build::NamedBlocks;
use deficit_steps::Deficits;
use deficit_steps::laws::held_law;
use desk_io::{Memory, Steps};
use std::alloc::Global;
use std::sync::ledger::Ledger;
use trip_model::Move;

// Appends the moves of legs.
fn push_ways(moves: &mut Vec<Move>, legs: &[Leg]) -> Result<(), Memory>
    ensures { OnOk result (moves.new.items ≡ moves.old.items ++ spec.ways legs.now) }
{
    for leg in legs {
        moves.push(leg.way)?;
    }
    Ok(())
}

/// The joined moves of blocks, block by block and trip by trip. Before a trip that follows on another comes the deadhead
/// between them, where that takes time. Then comes the move of the trip itself. A deadhead leaves when the trip before it ends,
/// with its layover, and arrives the minutes of the least walk later.
pub fn joined_moves(alloc: Global, named: &NamedBlocks<'_>) -> Result<Vec<Move>, Memory>
    requires { IsBlocking (network_of named.now.timetable.now named.now.matrix.now) named.now.blocks.now }
    ensures moves { IfOk result (λ moves. moves.items ≡ spec.joined_moves named.now.timetable.now named.now.matrix.now
        named.now.blocks.now) }
    ensures valid { IfOk result (λ moves. All (IsMove (length named.now.timetable.now.places)) moves.items) }
    ensures few { IfOk result (λ moves. length moves.items ≤ MOST_MOVES) }
{
    moves_law();
    // Its clause says that the timetable is valid.
    let _slots = named.timetable.slots();
    let mut moves = Vec::new(alloc);
    for number in 0..named.blocks.len() {
        let block = named.block(number);
        let legs = legs_of(alloc, named.timetable, named.matrix, block)?;
        push_ways(&mut moves, &legs)?;
    }
    Ok(moves)
}

/// The deficits of joined moves, over so many places.
pub fn joined_deficits<L: Ledger>(
    alloc: Global,
    places: u16,
    moves: &[Move],
    steps: &mut Steps<L>,
) -> Result<Deficits, Memory>
    requires moves { All (IsMove places) moves.now }
    requires few { length moves.now ≤ MOST_MOVES }
    ensures held { IfOk result (λ deficits. Holds deficits moves.now) }
    ensures places { IfOk result (λ deficits. length deficits ≡ places) }
    ensures counted { steps.new ≤ steps.old + 28 * length moves.now }
{
    held_law();
    let mut deficits = Deficits::open(alloc, places)?;
    for way in moves {
        deficits.add(way, steps);
    }
    Ok(deficits)
}
