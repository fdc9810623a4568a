ghost use Rattle.std.specs.Prelude.{◌≡◌, ℕ, ◌+◌, ◌*◌, ◌<◌, ◌≤◌, [], length, Some, IfOk, IfSome};
ghost use Rattle.list_search.specs.Lists.{behind};
ghost use Rattle.pair_search.specs.declared.limits.TheConstants.{GREATEST_PRICE};
ghost use Rattle.plan_choice.specs.Listing.{pair_worths, with_value, AreListed, AreStarts, IsListed};
ghost use Rattle.trip_model.specs.Plain.{move_at};

use crate::Likings;
use crate::start::{Start, list_starts};
use crate::worth::worth;
use desk_io::{Memory, Steps};
use list_search::PairLists;
use pair_graph::{Pairs, Row};
use price_assign::Plan;
use std::alloc::Global;
use std::sync::ledger::Ledger;
use trip_model::Move;

// Lists a column in the row that is open, where it has a value.
fn list_value(lists: &mut PairLists, column: u16, value: Option<u64>) -> Result<(), Memory>
    requires within { column < lists.old.slots }
    requires after { behind 0 lists.old.begun ≤ column }
    requires most { IfSome value (λ value. value ≤ GREATEST_PRICE) }
    ensures { IfOk result (λ _. lists.new ≡ record lists.old { begun = with_value lists.old.begun column value }) }
{
    match value {
        Some(value) => lists.push(column, value),
        None => Ok(()),
    }
}

// Lists in the row that is open what the pairs of a slot, whose trip runs, are worth.
fn list_columns<L: Ledger>(
    pairs: &Pairs<'_>,
    plan: &Plan,
    likings: &Likings,
    row: &Row<'_>,
    i: u16,
    before: Move,
    starts: &[Start],
    lists: &mut PairLists,
    steps: &mut Steps<L>,
) -> Result<(), Memory>
    requires slots { length plan.now.next ≡ length pairs.now.moves }
    requires row { row.now ≡ record { pairs = pairs.now; slot = i; share = row.now.share } }
    requires i { i < length pairs.now.moves }
    requires before { move_at pairs.now.moves i ≡ Some before }
    requires starts { AreStarts pairs.now starts.now }
    requires columns { lists.old.slots ≡ length pairs.now.moves }
    requires begun { lists.old.begun ≡ [] }
    ensures listed { IfOk result
        (λ _. IsListed (pair_worths pairs.now likings.now plan.now i) (length pairs.now.moves) lists.new.begun) }
    ensures columns { IfOk result (λ _. lists.new.slots ≡ lists.old.slots) }
    ensures rows { IfOk result (λ _. lists.new.rows ≡ lists.old.rows) }
    ensures counted { steps.new ≤ steps.old + length pairs.now.moves }
{
    for j in 0..pairs.slots() {
        let start = starts[usize::from(j)];
        let value = worth(pairs, plan, likings, row, i, before, j, start, steps);
        list_value(lists, j, value)?;
    }
    Ok(())
}

// Lists what the pairs of a slot are worth, as one row more.
fn list_row<L: Ledger>(
    pairs: &Pairs<'_>,
    plan: &Plan,
    likings: &Likings,
    i: u16,
    starts: &[Start],
    lists: &mut PairLists,
    steps: &mut Steps<L>,
) -> Result<(), Memory>
    requires slots { length plan.now.next ≡ length pairs.now.moves }
    requires i { i < length pairs.now.moves }
    requires starts { AreStarts pairs.now starts.now }
    requires listed { AreListed (pair_worths pairs.now likings.now plan.now) (length pairs.now.moves) i lists.old }
    ensures listed { IfOk result
        (λ _. AreListed (pair_worths pairs.now likings.now plan.now) (length pairs.now.moves) (i + 1) lists.new) }
    ensures counted { steps.new ≤ steps.old + length pairs.now.moves }
{
    let Some(before) = pairs.move_at(i) else {
        return lists.end_row();
    };
    let Some(row) = pairs.row(i) else {
        return lists.end_row();
    };
    list_columns(pairs, plan, likings, &row, i, before, starts, lists, steps)?;
    lists.end_row()
}

/// Lists for each slot what its pairs are worth. n^2 steps at most for n slots.
pub(crate) fn list_pairs<L: Ledger>(
    alloc: Global,
    pairs: &Pairs<'_>,
    plan: &Plan,
    likings: &Likings,
    steps: &mut Steps<L>,
) -> Result<PairLists, Memory>
    requires { length plan.now.next ≡ length pairs.now.moves }
    ensures listed { let n = length pairs.now.moves in IfOk result (AreListed (pair_worths pairs.now likings.now plan.now) n n) }
    ensures counted { let n = length pairs.now.moves in steps.new ≤ steps.old + n * n }
{
    let starts = list_starts(alloc, pairs)?;
    let mut lists = PairLists::new(alloc);
    let slots = pairs.slots();
    lists.clear(slots);
    for i in 0..slots {
        list_row(pairs, plan, likings, i, &starts, &mut lists, steps)?;
    }
    Ok(lists)
}
