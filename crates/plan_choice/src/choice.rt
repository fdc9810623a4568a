ghost use Rattle.std.specs.Prelude.{◌≡◌, ℕ, ◌+◌, ◌*◌, ◌≤◌, List, length, IfOk};
ghost use Rattle.assignment_model.specs.Choice.{AreWorthMost, IsChosen};
ghost use Rattle.assignment_model.specs.Prices.{IsCertified};
ghost use Rattle.list_search.specs.Lists.{listed};
ghost use Rattle.pair_graph.specs.Pairs.{pairs_network};
ghost use Rattle.pair_search.specs.Arranged.{bare, departing};
ghost use Rattle.pair_search.specs.Arranged as arranged;
ghost use Rattle.pair_search.specs.Determined.{found_each};
ghost use Rattle.plan_choice.specs.Chosen.{chosen_plan, pair_liking};
ghost use Rattle.trip_model.specs.Blocking.{StandsOnce};
ghost use Rattle.trip_model.specs.Links.{blocks_along};

use crate::Likings;
use crate::listing::list_pairs;
use assignment_model::laws::{certified_law, choice_law};
use desk_io::{Memory, Steps};
use list_search::{PairLists, Room, link_all};
use pair_graph::Pairs;
use pair_search::{Column, Departures};
use price_assign::Plan;
use std::alloc::Global;
use std::sync::ledger::Ledger;
use trip_model::Links;

// A copy of links.
fn copy_links(alloc: Global, links: &Links) -> Result<Vec<Option<u16>>, Memory>
    ensures { IfOk result (λ next. next.items ≡ links.now) }
{
    let mut next = Vec::new(alloc);
    for slot in 0..links.slots() {
        next.push(links.next(slot))?;
    }
    Ok(next)
}

// The slots of columns.
fn slots_of(alloc: Global, columns: &[Column]) -> Result<Vec<u16>, Memory>
    ensures { IfOk result (λ slots. slots.items ≡ arranged.slots_of columns.now) }
{
    let mut slots = Vec::new(alloc);
    for column in columns {
        slots.push(column.slot)?;
    }
    Ok(slots)
}

// Links what is worth most of listed pairs: one row after the other, the last departure first.
fn link_pairs(
    alloc: Global,
    pairs: &Pairs<'_>,
    lists: &PairLists,
) -> Result<Vec<Option<u16>>, Memory>
    requires slots { lists.now.slots ≡ length pairs.now.moves }
    requires rows { length lists.now.rows ≡ length pairs.now.moves }
    ensures links { let found = found_each (listed lists.now) (departing pairs.now) (bare (length pairs.now.moves)) in
        IfOk result (λ next. next.items ≡ found.next) }
    ensures most { let found = found_each (listed lists.now) (departing pairs.now) (bare (length pairs.now.moves)) in
        IfOk result (λ next. AreWorthMost (listed lists.now) next.items found.leave found.enter) }
    ensures slots { IfOk result (λ next. length next.items ≡ length pairs.now.moves) }
{
    let slots = pairs.slots();
    let many = usize::from(slots);
    let mut departures = Departures::open(alloc)?;
    let rows = slots_of(alloc, departures.arrange(pairs))?;
    let mut next = vec![in alloc; None; many]?;
    let mut leave = vec![in alloc; 0; many]?;
    let mut enter = vec![in alloc; 0; many]?;
    let mut room = Room::open(alloc, slots)?;
    link_all(lists, &rows, &mut next, &mut leave, &mut enter, &mut room);
    Ok(next)
}

/// The next trips of the least plan that is liked best, by slot, from a plan that is least: with its prices they are certified.
/// Where nothing is liked, they are those of that plan. n^2 steps at most for n slots. `Err` says that memory was refused.
pub fn chosen_links<L: Ledger>(
    alloc: Global,
    pairs: &Pairs<'_>,
    plan: &Plan,
    likings: &Likings,
    steps: &mut Steps<L>,
) -> Result<Vec<Option<u16>>, Memory>
    requires slots { length plan.now.next ≡ length pairs.now.moves }
    requires certified { IsCertified (pairs_network pairs.now) plan.now }
    ensures plan { IfOk result (λ next. record plan.now { next = next.items } ≡ chosen_plan pairs.now likings.now plan.now) }
    ensures slots { IfOk result (λ next. length next.items ≡ length pairs.now.moves) }
    ensures certified { IfOk result (λ next. IsCertified (pairs_network pairs.now) (record plan.now { next = next.items })) }
    ensures chosen { IfOk result (λ next. (order : List ℕ) → StandsOnce (pairs_network pairs.now).live order
        → IsChosen (pairs_network pairs.now) (pair_liking pairs.now likings.now) (blocks_along next.items order)) }
    ensures counted { let n = length pairs.now.moves in steps.new ≤ steps.old + n * n }
{
    certified_law();
    choice_law();
    // Its clauses say that the network is one of one day, along which departures rise.
    let _slots = pairs.slots();
    if likings.likes_nothing() {
        return copy_links(alloc, plan.links());
    }
    let lists = list_pairs(alloc, pairs, plan, likings, steps)?;
    link_pairs(alloc, pairs, &lists)
}
