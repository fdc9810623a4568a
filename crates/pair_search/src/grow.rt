ghost use Rattle.std.specs.Prelude.{◌≡◌, ℕ, ◌+◌, ◌*◌, ◌<◌, ◌≤◌, ◌⊎◌, min, nat_lt, true, List, length, vec_len, slice_set, replicate};
ghost use Rattle.std.specs.Prelude.{Option, None, Some, if◌then◌else◌};
ghost use Rattle.trip_model.specs.Links.{next_of, before_of};
ghost use Rattle.trip_model.specs.declared.limits.TheConstants.{MOST_SLOTS};
ghost use Rattle.pair_search.specs.declared.limits.TheConstants.{FAR};
ghost use Rattle.pair_search.specs.Determined.{Front, first_front, grown};
ghost use Rattle.pair_search.specs.Fronts.{Shows};
ghost use Rattle.pair_search.specs.Groups.{IsSeen};
ghost use Rattle.pair_search.specs.Search.{at, as_columns, problem_of, tree_of, AreLooked, IsGiven, IsTree, IsNext, IsGrown};
ghost use Rattle.pair_search.specs.Side.{side_slots, place_weight};
ghost use Rattle.pair_search.specs.Visits.{IsOfOthers, RowLooks, Takes};

use crate::limits::GREATEST_PRICE;
use crate::looks::Looks;
use crate::scan::nearest;
use crate::side::Side;
use crate::tree::Tree;
use desk_io::Steps;
use std::sync::ledger::Ledger;

/// Where a search ends. When prices have fallen so far, the row at a place of the tree is linked to a column, or to none.
#[derive(Clone, Copy)]
pub struct End {
    pub from: u16,
    pub to: Option<u16>,
    pub fall: u64,
}

/// A tree that has grown until the search ended: where that is, and how many rows the tree has.
#[derive(Clone, Copy)]
pub(crate) struct Grown {
    pub end: End,
    pub size: u16,
}

/// Of two ends at rows the one at which prices have fallen less.
pub fn sooner(best: End, from: u16, fall: u64) -> End
    ensures one { (result ≡ best) ⊎ (result ≡ record { from = from; to = None; fall = fall }) }
    ensures best { result.fall ≤ best.fall }
    ensures other { result.fall ≤ fall }
    ensures from { result.from ≡ (if nat_lt fall best.fall then from else best.from) }
    ensures to { best.to ≡ None → result.to ≡ None }
    ensures fall { result.fall ≡ min best.fall fall }
{
    if fall < best.fall {
        return End {
            from,
            to: None,
            fall,
        };
    }
    best
}

impl Tree {
    /// Begins with the first row, to which it gives the greatest price: so it covers every pair.
    pub(crate) fn begin<L: Ledger>(
        &mut self,
        side: &Side<'_>,
        a: u16,
        leave: &mut [u64],
        enter: &[u64],
        looks: &mut Looks,
        steps: &mut Steps<L>,
    )
        requires few { side_slots side.now ≤ MOST_SLOTS }
        requires start { a < side_slots side.now }
        requires leave { length leave.old ≡ side_slots side.now }
        requires enter { length enter.now ≡ side_slots side.now }
        requires enter_low { (j k : ℕ) → place_weight side.now a j ≡ Some k → at enter.now j ≤ GREATEST_PRICE }
        requires most { (j k : ℕ) → place_weight side.now a j ≡ Some k → k ≤ GREATEST_PRICE }
        ensures slots { vec_len self.new.dist ≡ side_slots side.now }
        ensures leave { leave.new ≡ slice_set leave.old a GREATEST_PRICE }
        ensures first { at self.new.rows.items 0 ≡ a }
        ensures seen { IsSeen side.now enter.now self.new }
        ensures tree { (before : List (Option ℕ)) → IsGiven (problem_of side.now a before leave.new enter.now)
            → IsTree (problem_of side.now a before leave.new enter.now) (tree_of self.new 1 0) }
        ensures shown { Shows self.new 0 None GREATEST_PRICE (first_front (place_weight side.now) a enter.now (side_slots side.now)) }
        ensures visited { Takes (RowLooks side.now a 0 (side_slots side.now)) looks.old.list looks.new.list steps.old steps.new }
        ensures counted { steps.new ≤ steps.old + side_slots side.now }
    {
        leave[a as usize] = GREATEST_PRICE;
        self.clear(side.groups(), side.slots(), side.posts());
        self.rows[0] = a;
        self.far[0] = 0;
        self.look_from(side, a, 0, GREATEST_PRICE, enter, looks, steps);
    }

    // A row comes into the tree by a column, and all columns are looked at from it.
    fn visit<L: Ledger>(
        &mut self,
        side: &Side<'_>,
        row: u16,
        column: u16,
        place: u16,
        leave: &[u64],
        enter: &[u64],
        looks: &mut Looks,
        steps: &mut Steps<L>,
    )
        requires row { row < side_slots side.now }
        requires column { column < side_slots side.now }
        requires place { place ≤ side_slots side.now }
        requires leave { length leave.now ≡ side_slots side.now }
        requires enter { length enter.now ≡ side_slots side.now }
        requires slots { vec_len self.old.dist ≡ side_slots side.now }
        requires seen { IsSeen side.now enter.now self.old }
        requires close { at self.old.dist.items column ≤ GREATEST_PRICE }
        requires leave_low { at leave.now row ≤ GREATEST_PRICE }
        requires enter_low { (j k : ℕ) → place_weight side.now row j ≡ Some k → at enter.now j ≤ GREATEST_PRICE }
        requires covers { (j k : ℕ) → place_weight side.now row j ≡ Some k → k ≤ at leave.now row + at enter.now j }
        ensures slots { vec_len self.new.dist ≡ vec_len self.old.dist }
        ensures rows { self.new.rows.items ≡ slice_set self.old.rows.items place row }
        ensures far { self.new.far.items ≡ slice_set self.old.far.items place (at self.old.dist.items column) }
        ensures seen { IsSeen side.now enter.now self.new }
        ensures tree { (a reach : ℕ) (before : List (Option ℕ)) → IsGiven (problem_of side.now a before leave.now enter.now)
            → IsTree (problem_of side.now a before leave.now enter.now) (tree_of self.old place reach)
            → IsNext (problem_of side.now a before leave.now enter.now) (tree_of self.old place reach) row column
            → IsTree (problem_of side.now a before leave.now enter.now) (tree_of self.new (place + 1) (at self.old.dist.items column)) }
        ensures done { self.new.done.items ≡ slice_set self.old.done.items column true }
        ensures looked { AreLooked (place_weight side.now row) (side_slots side.now) place
            (at self.old.dist.items column + at leave.now row) enter.now
            (as_columns self.old.dist.items self.old.parent.items (slice_set self.old.done.items column true))
            (as_columns self.new.dist.items self.new.parent.items (slice_set self.old.done.items column true)) }
        ensures visited { Takes (RowLooks side.now row 0 (side_slots side.now)) looks.old.list looks.new.list steps.old steps.new }
        ensures counted { steps.new ≤ steps.old + side_slots side.now }
    {
        let distance = self.dist[column as usize];
        self.done[column as usize] = true;
        self.rows[place as usize] = row;
        self.far[place as usize] = distance;
        let start = distance + leave[row as usize];
        self.look_from(side, row, place, start, enter, looks, steps);
    }

    /// Grows from the first row, row by row by the nearest column, until the search ends.
    pub(crate) fn grow<L: Ledger>(
        &mut self,
        side: &Side<'_>,
        before: &[Option<u16>],
        leave: &[u64],
        enter: &[u64],
        looks: &mut Looks,
        steps: &mut Steps<L>,
    ) -> Grown
        requires before { length before.now ≡ side_slots side.now }
        requires leave { length leave.now ≡ side_slots side.now }
        requires enter { length enter.now ≡ side_slots side.now }
        requires slots { vec_len self.old.dist ≡ side_slots side.now }
        requires seen { IsSeen side.now enter.now self.old }
        requires given { IsGiven (problem_of side.now (at self.old.rows.items 0) before.now leave.now enter.now) }
        requires begun { IsTree (problem_of side.now (at self.old.rows.items 0) before.now leave.now enter.now) (tree_of self.old 1 0) }
        ensures slots { vec_len self.new.dist ≡ vec_len self.old.dist }
        ensures grown { IsGrown (problem_of side.now (at self.old.rows.items 0) before.now leave.now enter.now)
            (tree_of self.new result.size) result.end }
        ensures shown { (next : List (Option ℕ)) (front : Front) → ((j : ℕ) → before_of next j ≡ next_of before.now j)
            → Shows self.old 0 None (at leave.now (at self.old.rows.items 0)) front
            → Shows self.new result.end.from result.end.to result.end.fall
            (grown (place_weight side.now) (record { next = next; leave = leave.now; enter = enter.now }) (side_slots side.now) front) }
        ensures visited { Takes (IsOfOthers side.now (at self.old.rows.items 0)) looks.old.list looks.new.list steps.old steps.new }
        ensures counted { steps.new ≤ steps.old + side_slots side.now * side_slots side.now }
        ensures alone { ((j : ℕ) → next_of before.now j ≡ None) → steps.new ≡ steps.old }
    {
        let mut size = 1;
        let mut best = End {
            from: 0,
            to: None,
            fall: leave[self.rows[0] as usize],
        };
        while let Some(column) = nearest(side, &self.done, &self.dist, &mut self.seen, best.fall) {
            let distance = self.dist[column as usize];
            let Some(row) = before[column as usize] else {
                let end = End {
                    from: self.parent[column as usize],
                    to: Some(column),
                    fall: distance,
                };
                return Grown { end, size };
            };
            self.visit(side, row, column, size, leave, enter, looks, steps);
            best = sooner(best, size, distance + leave[row as usize]);
            size += 1;
        }
        Grown { end: best, size }
    }
}
