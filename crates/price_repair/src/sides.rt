ghost use Rattle.std.specs.Prelude.{◌≡◌, ◌+◌, ◌*◌, ◌≤◌, length, None};
ghost use Rattle.assignment_model.specs.Paths.{IsLeftFrom, IsRightFrom};
ghost use Rattle.assignment_model.specs.Prices.{IsCertified, IsLoose};
ghost use Rattle.pair_graph.specs.Pairs.{pairs_network};
ghost use Rattle.price_repair.specs.Repaired.{left_added, right_added};

use desk_io::Steps;
use pair_graph::Pairs;
use pair_search::Looks;
use price_assign::Solver;
use std::sync::ledger::Ledger;

/// Adds the leaving side of `a`, where there is one, to a plan from which it is left out.
pub(crate) fn add_leaving<L: Ledger>(
    solver: &mut Solver,
    pairs: &Pairs<'_>,
    a: Option<u16>,
    b: Option<u16>,
    steps: &mut Steps<L>,
)
    requires slots { length solver.old.next ≡ length pairs.now.moves }
    requires loose { IsLoose (pairs_network pairs.now) solver.old a b }
    ensures slots { length solver.new.next ≡ length pairs.now.moves }
    ensures loose { IsLoose (pairs_network pairs.now) solver.new None b }
    ensures path { IsLeftFrom solver.old.next solver.new.next a }
    ensures plan { solver.new ≡ left_added pairs.now a b solver.old }
    ensures counted { let n = length pairs.now.moves in steps.new ≤ steps.old + n * n + n }
{
    if let Some(a) = a {
        solver.search_left(pairs, a, b, &mut Looks::new(), steps);
    }
}

/// Adds the entering side of `b`, where there is one, to a plan from which it alone is left out: then the plan is certified.
pub(crate) fn add_entering<L: Ledger>(
    solver: &mut Solver,
    pairs: &Pairs<'_>,
    b: Option<u16>,
    steps: &mut Steps<L>,
)
    requires slots { length solver.old.next ≡ length pairs.now.moves }
    requires loose { IsLoose (pairs_network pairs.now) solver.old None b }
    ensures slots { length solver.new.next ≡ length pairs.now.moves }
    ensures certified { IsCertified (pairs_network pairs.now) solver.new }
    ensures path { IsRightFrom solver.old.next solver.new.next b }
    ensures plan { solver.new ≡ right_added pairs.now b solver.old }
    ensures counted { let n = length pairs.now.moves in steps.new ≤ steps.old + n * n + n }
{
    // Its clauses say that the network is one of one day, along which departures rise.
    let _slots = pairs.slots();
    if let Some(b) = b {
        solver.search_right(pairs, b, None, &mut Looks::new(), steps);
    }
}
