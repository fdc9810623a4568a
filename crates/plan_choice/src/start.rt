ghost use Rattle.std.specs.Prelude.{◌≡◌, ◌+◌, ◌<◌, ◌≤◌, length, Some, IfOk};
ghost use Rattle.assignment_model.specs.Prices.{weight};
ghost use Rattle.pair_graph.specs.Pairs.{pairs_network};
ghost use Rattle.plan_choice.specs.Listing.{start_at, AreStarts};
ghost use Rattle.trip_model.specs.Plain.{move_at, AreMoves};

use desk_io::{Memory, Steps};
use pair_graph::{Pairs, Row};
use std::alloc::Global;
use std::sync::ledger::Ledger;
use trip_model::Move;

/// Where and when the trip of a slot begins, and the minutes out of the depot to there. One that does not run begins at minute 0,
/// before any trip ends.
#[derive(Clone, Copy)]
pub(crate) struct Start {
    pub place: u16,
    pub leaves: u16,
    pub out: u16,
}

// The start of the trip of a slot.
fn start_of(pairs: &Pairs<'_>, slot: u16) -> Start
    requires { slot < length pairs.now.moves }
    ensures { result ≡ start_at pairs.now slot }
{
    match pairs.move_at(slot) {
        Some(made) => Start {
            place: made.from,
            leaves: made.leaves,
            out: pairs.pull(false, made.from),
        },
        None => Start {
            place: 0,
            leaves: 0,
            out: 0,
        },
    }
}

/// The start of the trip of each slot, laid out for those who look at many pairs.
pub(crate) fn list_starts(alloc: Global, pairs: &Pairs<'_>) -> Result<Vec<Start>, Memory>
    ensures { IfOk result (λ starts. AreStarts pairs.now starts.items) }
{
    let mut starts = Vec::new(alloc);
    for slot in 0..pairs.slots() {
        starts.push(start_of(pairs, slot))?;
    }
    Ok(starts)
}

/// What it saves to make the trip of `j`, which begins so, next after that of the row's slot; None where they do not fit. A trip
/// that departs before that of the row's slot arrives is not looked at. One step at most.
pub(crate) fn saved_to<L: Ledger>(
    row: &Row<'_>,
    before: Move,
    j: u16,
    start: Start,
    steps: &mut Steps<L>,
) -> Option<u64>
    requires moves { AreMoves (length row.now.pairs.matrix.walks) row.now.pairs.moves }
    requires before { move_at row.now.pairs.moves row.now.slot ≡ Some before }
    requires j { j < length row.now.pairs.moves }
    requires start { start ≡ start_at row.now.pairs j }
    ensures saved { result ≡ weight (pairs_network row.now.pairs) row.now.slot j }
    ensures counted { steps.new ≤ steps.old + 1 }
{
    if start.leaves < before.arrives {
        return None;
    }
    steps.tick();
    let walk = row.walk(start.place)?;
    let share = row.share();
    if u32::from(share.ready) + walk > u32::from(start.leaves) {
        return None;
    }
    if !row.allows(j) {
        return None;
    }
    Some(share.saved + u64::from(start.out) - u64::from(walk))
}
