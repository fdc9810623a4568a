ghost use Rattle.std.specs.Prelude.{◌≡◌, ◌+◌, ◌<◌, ◌≤◌, length, Some, IfSome};
ghost use Rattle.assignment_model.specs.Choice as choice;
ghost use Rattle.assignment_model.specs.Prices.{weight};
ghost use Rattle.pair_graph.specs.Pairs.{pairs_network};
ghost use Rattle.pair_search.specs.declared.limits.TheConstants.{GREATEST_PRICE};
ghost use Rattle.plan_choice.specs.Chosen as chosen;
ghost use Rattle.plan_choice.specs.Listing.{start_at};
ghost use Rattle.trip_model.specs.Plain.{move_at, AreMoves};

use crate::Likings;
use crate::start::{Start, saved_to};
use assignment_model::{PRICED, VEHICLE_WEIGHT};
use desk_io::Steps;
use pair_graph::{Pairs, Row};
use price_assign::Plan;
use std::sync::ledger::Ledger;
use trip_model::Move;

// What a side counts for that has to be linked, which it has where its price is not 0.
fn priced(price: u64) -> u64
    ensures { result ≡ choice.priced price }
{
    if price == 0 { 0 } else { PRICED }
}

// The minutes that a vehicle waits between two trips that fit, by what it saves to link them.
fn wait_between(pairs: &Pairs<'_>, i: u16, j: u16, saved: u64) -> u16
    requires i { i < length pairs.now.moves }
    requires j { j < length pairs.now.moves }
    requires saved { weight (pairs_network pairs.now) i j ≡ Some saved }
    ensures { result ≡ chosen.wait_between pairs.now i j }
{
    // Its clauses say that no walk between trips that fit is longer than a day.
    let _slots = pairs.slots();
    let (Some(before), Some(after)) = (pairs.move_at(i), pairs.move_at(j)) else {
        return 0;
    };
    let pulls = u64::from(pairs.pull(true, before.to)) + u64::from(pairs.pull(false, after.from));
    let walk = VEHICLE_WEIGHT + pulls - saved;
    after.leaves - before.arrives - walk as u16
}

/// What a pair is worth to the choice; None where it is not tight. One step at most.
pub(crate) fn worth<L: Ledger>(
    pairs: &Pairs<'_>,
    plan: &Plan,
    likings: &Likings,
    row: &Row<'_>,
    i: u16,
    before: Move,
    j: u16,
    start: Start,
    steps: &mut Steps<L>,
) -> Option<u64>
    requires slots { length plan.now.next ≡ length pairs.now.moves }
    requires moves { AreMoves (length pairs.now.matrix.walks) pairs.now.moves }
    requires row { row.now ≡ record { pairs = pairs.now; slot = i; share = row.now.share } }
    requires i { i < length pairs.now.moves }
    requires before { move_at pairs.now.moves i ≡ Some before }
    requires j { j < length pairs.now.moves }
    requires start { start ≡ start_at pairs.now j }
    ensures worth { result ≡ choice.worths (pairs_network pairs.now) plan.now (chosen.pair_liking pairs.now likings.now) i j }
    ensures most { IfSome result (λ value. value ≤ GREATEST_PRICE) }
    ensures counted { steps.new ≤ steps.old + 1 }
{
    let saved = saved_to(row, before, j, start, steps)?;
    let leave = plan.leave()[usize::from(i)];
    let enter = plan.enter()[usize::from(j)];
    if saved.checked_sub(leave) != Some(enter) {
        return None;
    }
    let wait = wait_between(pairs, i, j, saved);
    Some(likings.liking(i, j, wait) + priced(leave) + priced(enter))
}
