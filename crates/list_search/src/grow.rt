ghost use Rattle.std.specs.Prelude.{◌≡◌, ℕ, ◌+◌, ◌<◌, ◌≤◌, List, length, vec_len, slice_set, replicate, true, Option, None, Some};
ghost use Rattle.trip_model.specs.Links.{next_of, before_of};
ghost use Rattle.pair_search.specs.Determined.{Front, grown};
ghost use Rattle.pair_search.specs.Fronts.{IsShown};
ghost use Rattle.pair_search.specs.Search.{at, as_columns, problem, AreLooked, IsGiven, IsTree};
ghost use Rattle.list_search.specs.Lists.{listed};
ghost use Rattle.list_search.specs.Trees.{columns_of, tree_of, AreNear, IsGrownTo};
ghost use Rattle.pair_search.specs.declared.limits.TheConstants.{FAR, GREATEST_PRICE};

use crate::lists::PairLists;
use crate::tree::Tree;
use pair_search::{End, FAR, GREATEST_PRICE, sooner};

/// Where a search has ended, and how many rows its tree has then.
#[derive(Clone, Copy)]
pub(crate) struct Grown {
    pub size: u16,
    pub end: End,
}

impl Tree {
    /// Begins with the first row, which has the greatest price: so it covers every pair.
    pub(crate) fn begin(&mut self, lists: &PairLists, a: u16, enter: &[u64])
        requires start { a < length lists.now.rows }
        requires slots { vec_len self.old.dist ≡ lists.now.slots }
        requires enter { length enter.now ≡ lists.now.slots }
        requires dist { self.old.dist.items ≡ replicate lists.now.slots FAR }
        requires enter_low { (j k : ℕ) → listed lists.now a j ≡ Some k → at enter.now j ≤ GREATEST_PRICE }
        requires most { (j k : ℕ) → listed lists.now a j ≡ Some k → k ≤ GREATEST_PRICE }
        ensures slots { vec_len self.new.dist ≡ vec_len self.old.dist }
        ensures first { (at self.new.rows.items 0 ≡ a) × (at self.new.far.items 0 ≡ 0) }
        ensures looked { AreLooked (listed lists.now a) lists.now.slots 0 GREATEST_PRICE enter.now (columns_of self.old) (columns_of self.new) }
        ensures near { AreNear self.new.done.items self.new.dist.items self.new.near.items }
    {
        self.near.fill(FAR);
        self.rows[0] = a;
        self.far[0] = 0;
        self.look(lists.row(a), 0, GREATEST_PRICE, enter);
    }

    // A row comes into the tree by a column, and looks at the columns that it lists.
    fn visit(
        &mut self,
        lists: &PairLists,
        row: u16,
        column: u16,
        place: u16,
        price: u64,
        enter: &[u64],
    )
        requires row { row < length lists.now.rows }
        requires column { column < lists.now.slots }
        requires place { place ≤ lists.now.slots }
        requires slots { vec_len self.old.dist ≡ lists.now.slots }
        requires enter { length enter.now ≡ lists.now.slots }
        requires close { at self.old.dist.items column ≤ GREATEST_PRICE }
        requires price { price ≤ GREATEST_PRICE }
        requires enter_low { (j k : ℕ) → listed lists.now row j ≡ Some k → at enter.now j ≤ GREATEST_PRICE }
        requires covers { (j k : ℕ) → listed lists.now row j ≡ Some k → k ≤ price + at enter.now j }
        requires near { AreNear self.old.done.items self.old.dist.items self.old.near.items }
        ensures slots { vec_len self.new.dist ≡ vec_len self.old.dist }
        ensures rows { self.new.rows.items ≡ slice_set self.old.rows.items place row }
        ensures far { self.new.far.items ≡ slice_set self.old.far.items place (at self.old.dist.items column) }
        ensures done { self.new.done.items ≡ slice_set self.old.done.items column true }
        ensures looked { AreLooked (listed lists.now row) lists.now.slots place (at self.old.dist.items column + price) enter.now
            (as_columns self.old.dist.items self.old.parent.items (slice_set self.old.done.items column true))
            (as_columns self.new.dist.items self.new.parent.items (slice_set self.old.done.items column true)) }
        ensures near { AreNear self.new.done.items self.new.dist.items self.new.near.items }
    {
        let distance = self.dist[column as usize];
        self.done[column as usize] = true;
        self.rows[place as usize] = row;
        self.far[place as usize] = distance;
        self.look(lists.row(row), place, distance + price, enter);
    }

    /// Grows from the first row, row by row by the nearest column, until the search ends.
    pub(crate) fn grow(
        &mut self,
        lists: &PairLists,
        a: u16,
        before: &[Option<u16>],
        leave: &[u64],
        enter: &[u64],
    ) -> Grown
        requires rows { length lists.now.rows ≡ lists.now.slots }
        requires before { length before.now ≡ lists.now.slots }
        requires leave { length leave.now ≡ lists.now.slots }
        requires enter { length enter.now ≡ lists.now.slots }
        requires slots { vec_len self.old.dist ≡ lists.now.slots }
        requires near { AreNear self.old.done.items self.old.dist.items self.old.near.items }
        requires most { (j : ℕ) → at self.old.dist.items j ≤ FAR }
        requires given { IsGiven (problem (listed lists.now) lists.now.slots a before.now leave.now enter.now) }
        requires begun { IsTree (problem (listed lists.now) lists.now.slots a before.now leave.now enter.now) (tree_of self.old 1 0) }
        ensures slots { vec_len self.new.dist ≡ vec_len self.old.dist }
        ensures grown { IsGrownTo (problem (listed lists.now) lists.now.slots a before.now leave.now enter.now) (tree_of self.new) result.size
            result.end }
        ensures most { (j : ℕ) → at self.new.dist.items j ≤ FAR }
        ensures shown { (next : List (Option ℕ)) (front : Front) → ((j : ℕ) → before_of next j ≡ next_of before.now j)
            → IsShown self.old.dist.items self.old.parent.items self.old.done.items self.old.rows.items 0 None (at leave.now a) front
            → IsShown self.new.dist.items self.new.parent.items self.new.done.items self.new.rows.items result.end.from result.end.to
            result.end.fall
            (grown (listed lists.now) (record { next = next; leave = leave.now; enter = enter.now }) lists.now.slots front) }
    {
        let mut size = 1;
        let mut best = End {
            from: 0,
            to: None,
            fall: leave[a as usize],
        };
        while let Some(column) = self.nearest(best.fall) {
            let distance = self.dist[column as usize];
            let Some(row) = before[column as usize] else {
                return Grown {
                    size,
                    end: End {
                        from: self.parent[column as usize],
                        to: Some(column),
                        fall: distance,
                    },
                };
            };
            let price = leave[row as usize];
            self.visit(lists, row, column, size, price, enter);
            best = sooner(best, size, distance + price);
            size += 1;
        }
        Grown { size, end: best }
    }
}
