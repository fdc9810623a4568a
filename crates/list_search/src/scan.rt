ghost use Rattle.std.specs.Prelude.{◌≡◌, ℕ, ◌+◌, ◌*◌, ◌<◌, ◌≤◌, ◌⊎◌, true, false, length, vec_len, slice_set, Some, IfSome, IfNone};
ghost use Rattle.pair_search.specs.Determined.{first_nearest};
ghost use Rattle.pair_search.specs.Groups.{IsNearer};
ghost use Rattle.pair_search.specs.Search.{at, is_done, AreLooked, IsNearest};
ghost use Rattle.list_search.specs.Lists.{value_of, IsRow};
ghost use Rattle.list_search.specs.Trees.{columns_of, AreNear};

use crate::lists::Pair;
use crate::tree::{BLOCK, BLOCKS, Tree};
use pair_search::{FAR, GREATEST_PRICE, Nearby, nearer_between};

impl Tree {
    // A column is reached from a place of the tree, where it is not done and comes nearer by that.
    fn approach(&mut self, column: u16, from: u16, along: u64)
        requires column { column < vec_len self.old.dist }
        requires near { AreNear self.old.done.items self.old.dist.items self.old.near.items }
        ensures slots { vec_len self.new.dist ≡ vec_len self.old.dist }
        ensures rows { (self.new.rows.items ≡ self.old.rows.items) × (self.new.far.items ≡ self.old.far.items) }
        ensures done { self.new.done.items ≡ self.old.done.items }
        ensures one { ((self.new.dist.items ≡ self.old.dist.items) × (self.new.parent.items ≡ self.old.parent.items)
            × ((is_done self.old.done.items column ≡ true) ⊎ (at self.old.dist.items column ≤ along)))
            ⊎ ((self.new.dist.items ≡ slice_set self.old.dist.items column along)
            × (self.new.parent.items ≡ slice_set self.old.parent.items column from)
            × (is_done self.old.done.items column ≡ false) × (along < at self.old.dist.items column)) }
        ensures near { AreNear self.new.done.items self.new.dist.items self.new.near.items }
    {
        let place = column as usize;
        if along < self.dist[place] && !self.done[place] {
            self.dist[place] = along;
            self.parent[place] = from;
            let block = (column / BLOCK) as usize;
            self.near[block] = self.near[block].min(along);
        }
    }

    /// Looks at the columns that a row lists from its place in the tree, where it is so far with its price.
    pub(crate) fn look(&mut self, pairs: &[Pair], from: u16, start: u64, enter: &[u64])
        requires enter { length enter.now ≡ vec_len self.old.dist }
        requires row { IsRow (vec_len self.old.dist) pairs.now }
        requires start { start ≤ 2 * GREATEST_PRICE }
        requires low { (j k : ℕ) → value_of pairs.now j ≡ Some k → at enter.now j ≤ GREATEST_PRICE }
        requires covers { (j k : ℕ) → value_of pairs.now j ≡ Some k → k ≤ start + at enter.now j }
        requires near { AreNear self.old.done.items self.old.dist.items self.old.near.items }
        ensures slots { vec_len self.new.dist ≡ vec_len self.old.dist }
        ensures rows { (self.new.rows.items ≡ self.old.rows.items) × (self.new.far.items ≡ self.old.far.items) }
        ensures looked { AreLooked (value_of pairs.now) (vec_len self.old.dist) from start enter.now (columns_of self.old)
            (columns_of self.new) }
        ensures near { AreNear self.new.done.items self.new.dist.items self.new.near.items }
    {
        for place in 0..pairs.len() {
            let pair = pairs[place];
            let along = start + enter[pair.column as usize] - pair.value;
            self.approach(pair.column, from, along);
        }
    }

    // The nearest column of those so far and of a block. That is looked through only where it may have a nearer one.
    fn nearest_of(&mut self, block: u16, best: Nearby) -> Nearby
        requires block { block < 64 }
        requires near { AreNear self.old.done.items self.old.dist.items self.old.near.items }
        requires low { best.distance ≤ FAR }
        ensures dist { self.new.dist ≡ self.old.dist }
        ensures parent { self.new.parent ≡ self.old.parent }
        ensures done { self.new.done ≡ self.old.done }
        ensures rows { (self.new.rows ≡ self.old.rows) × (self.new.far ≡ self.old.far) }
        ensures near { AreNear self.new.done.items self.new.dist.items self.new.near.items }
        ensures low { result.distance ≤ best.distance }
        ensures least { (j : ℕ) → block * 64 ≤ j → j < block * 64 + 64 → j < vec_len self.old.dist → is_done self.old.done.items j ≡ false
            → result.distance ≤ at self.old.dist.items j }
        ensures one { (result ≡ best) ⊎ IsNearer (block * 64) self.old.done.items self.old.dist.items best result }
    {
        if best.distance <= self.near[block as usize] {
            return best;
        }
        let first = block * BLOCK;
        let upto = (first + BLOCK).min(self.dist.len() as u16);
        let found = nearer_between(&self.done, &self.dist, first, upto, best);
        self.near[block as usize] = found.near;
        found.best
    }

    /// The nearest column that is not done, if one is nearer than a bound.
    pub(crate) fn nearest(&mut self, bound: u64) -> Option<u16>
        requires near { AreNear self.old.done.items self.old.dist.items self.old.near.items }
        requires bound { bound ≤ FAR }
        ensures dist { self.new.dist ≡ self.old.dist }
        ensures parent { self.new.parent ≡ self.old.parent }
        ensures done { self.new.done ≡ self.old.done }
        ensures rows { (self.new.rows ≡ self.old.rows) × (self.new.far ≡ self.old.far) }
        ensures near { AreNear self.new.done.items self.new.dist.items self.new.near.items }
        ensures some { IfSome result (IsNearest self.old.done.items self.old.dist.items bound) }
        ensures none { IfNone result ((j : ℕ) → j < length self.old.dist.items → is_done self.old.done.items j ≡ false
            → bound ≤ at self.old.dist.items j) }
        ensures picked { result ≡ first_nearest (length self.old.dist.items) self.old.done.items self.old.dist.items bound }
    {
        let mut best = Nearby {
            column: None,
            distance: bound,
        };
        for block in 0..BLOCKS {
            best = self.nearest_of(block, best);
        }
        best.column
    }
}
