ghost use Rattle.std.specs.Prelude.{◌≡◌, ◌+◌, ◌*◌, ◌≤◌, length};
ghost use Rattle.assignment_model.specs.Paths.{with_slot, IsAdded};
ghost use Rattle.assignment_model.specs.Prices.{IsCertified};
ghost use Rattle.pair_graph.specs.Pairs.{pairs_network};
ghost use Rattle.price_repair.specs.Repaired.{plan_added};
ghost use Rattle.price_repair.specs.Without.{IsCertifiedWithout};

use crate::sides::{add_entering, add_leaving};
use desk_io::Steps;
use pair_graph::Pairs;
use price_assign::Solver;
use std::sync::ledger::Ledger;

/// Repairs a plan after a trip was added in a slot. It was certified for the pairs without that trip, and is then certified for
/// the given pairs, which have it. Where the slot is the last one, the plan may lack it before. At most 2n^2 + 2n steps for n
/// slots, and no memory.
pub fn after_add<L: Ledger>(solver: &mut Solver, pairs: &Pairs<'_>, slot: u16, steps: &mut Steps<L>)
    requires slots { length (with_slot solver.old.next slot) ≡ length pairs.now.moves }
    requires certified { IsCertifiedWithout pairs.now slot solver.old }
    ensures slots { length solver.new.next ≡ length pairs.now.moves }
    ensures certified { IsCertified (pairs_network pairs.now) solver.new }
    ensures added { IsAdded solver.old.next solver.new.next slot }
    ensures plan { solver.new ≡ plan_added pairs.now slot solver.old }
    ensures counted { let n = length pairs.now.moves in steps.new ≤ steps.old + 2 * n * n + 2 * n }
{
    let slots = pairs.slots();
    solver.set_slots(slots);
    add_leaving(solver, pairs, Some(slot), Some(slot), steps);
    add_entering(solver, pairs, Some(slot), steps);
}
