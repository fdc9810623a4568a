ghost use Rattle.std.specs.Prelude.{◌≡◌, ◌+◌, ◌*◌, ◌<◌, ◌≤◌, length};
ghost use Rattle.assignment_model.specs.Paths.{IsTaken};
ghost use Rattle.assignment_model.specs.Prices.{IsCertified};
ghost use Rattle.pair_graph.specs.Pairs.{pairs_network};
ghost use Rattle.price_repair.specs.Cut.{plan_without};
ghost use Rattle.price_repair.specs.Repaired.{plan_taken};
ghost use Rattle.price_repair.specs.Without.{IsCertifiedWith};
ghost use Rattle.trip_model.specs.Links.{before_of};

use crate::sides::{add_entering, add_leaving};
use desk_io::Steps;
use pair_graph::Pairs;
use price_assign::Solver;
use std::sync::ledger::Ledger;
use trip_model::Links;

/// Repairs a plan after the trip of a slot was taken. It was certified for the pairs with that trip, and is then certified for
/// the given pairs, which lack it. At most 2n^2 + 2n steps for n slots, and no memory.
pub fn after_take<L: Ledger>(
    solver: &mut Solver,
    pairs: &Pairs<'_>,
    slot: u16,
    steps: &mut Steps<L>,
)
    requires slot { slot < length pairs.now.moves }
    requires slots { length solver.old.next ≡ length pairs.now.moves }
    requires certified { IsCertifiedWith pairs.now slot solver.old }
    ensures slots { length solver.new.next ≡ length pairs.now.moves }
    ensures certified { IsCertified (pairs_network pairs.now) solver.new }
    ensures taken { IsTaken solver.old.next solver.new.next slot }
    ensures plan { solver.new ≡ plan_taken pairs.now slot solver.old }
    ensures counted { let n = length pairs.now.moves in steps.new ≤ steps.old + 2 * n * n + 2 * n }
{
    // Its clauses say that the network is one of one day, along which departures rise.
    let _slots = pairs.slots();
    let links = solver.plan().links();
    let before = trip_before(links, slot);
    let next = links.next(slot);
    cut(solver, slot, before);
    add_leaving(solver, pairs, before, next, steps);
    add_entering(solver, pairs, next, steps);
}

/// The slot of the trip before that of a slot; None where there is no trip before it.
fn trip_before(links: &Links, slot: u16) -> Option<u16>
    ensures { result ≡ before_of links.now slot }
{
    for before in 0..links.slots() {
        if links.next(before) == Some(slot) {
            return Some(before);
        }
    }
    None
}

/// Cuts the links of a slot, given the trip before it, and drops its prices.
fn cut(solver: &mut Solver, slot: u16, before: Option<u16>)
    requires slot { slot < length solver.old.next }
    requires before { before ≡ before_of solver.old.next slot }
    ensures { solver.new ≡ plan_without solver.old slot }
{
    solver.put(slot, None, 0, 0);
    if let Some(before) = before {
        let leave = solver.plan().leave()[before as usize];
        let enter = solver.plan().enter()[before as usize];
        solver.put(before, None, leave, enter);
    }
}
