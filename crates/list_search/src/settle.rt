ghost use Rattle.std.specs.Prelude.{◌≡◌, ◌≢◌, ℕ, ◌+◌, ◌-◌, ◌<◌, ◌≤◌, true, false, length, vec_len, replicate, None};
ghost use Rattle.pair_search.specs.Search.{at, is_done};
ghost use Rattle.list_search.specs.Lists.{listed, value_of, IsRow};
ghost use Rattle.list_search.specs.Trees.{columns_of, IsSettled, IsKept};
ghost use Rattle.pair_search.specs.declared.limits.TheConstants.{FAR, GREATEST_PRICE};

use crate::lists::{Pair, PairLists};
use crate::tree::Tree;
use pair_search::FAR;

impl Tree {
    /// Rows of the tree lose what prices fall past them.
    pub(crate) fn lower(&self, size: u16, fall: u64, leave: &mut [u64])
        requires size { size ≤ vec_len self.now.rows }
        requires within { (t : ℕ) → t < size → at self.now.rows.items t < length leave.old }
        requires apart { (r t : ℕ) → r < t → t < size → at self.now.rows.items r ≢ at self.now.rows.items t }
        requires later { (t : ℕ) → t < size → at self.now.far.items t ≤ fall }
        requires enough { (t : ℕ) → t < size → fall ≤ at self.now.far.items t + at leave.old (at self.now.rows.items t) }
        ensures rows { (t : ℕ) → t < size
            → at leave.new (at self.now.rows.items t) ≡ at leave.old (at self.now.rows.items t) - (fall - at self.now.far.items t) }
        ensures others { (i : ℕ) → ((t : ℕ) → t < size → at self.now.rows.items t ≢ i) → at leave.new i ≡ at leave.old i }
    {
        for place in 0..size {
            let row = self.rows[place as usize];
            let past = fall - self.far[place as usize];
            leave[row as usize] -= past;
        }
    }

    // A column gains what prices fall past it, and is far and not done again.
    fn settle_column(&mut self, column: u16, fall: u64, enter: &mut [u64])
        requires column { column < vec_len self.old.dist }
        requires enter { length enter.old ≡ vec_len self.old.dist }
        requires fall { fall ≤ GREATEST_PRICE }
        requires low { at self.old.dist.items column < fall → at enter.old column ≤ GREATEST_PRICE }
        ensures slots { vec_len self.new.dist ≡ vec_len self.old.dist }
        ensures same { (self.new.rows ≡ self.old.rows) × (self.new.parent ≡ self.old.parent) }
        ensures settled { IsSettled fall (columns_of self.old) enter.old (columns_of self.new) enter.new column }
        ensures kept { (j : ℕ) → j ≢ column → IsKept (columns_of self.old) enter.old (columns_of self.new) enter.new j }
    {
        let place = column as usize;
        enter[place] += fall.saturating_sub(self.dist[place]);
        self.dist[place] = FAR;
        self.done[place] = false;
    }

    // Columns that a row lists gain what prices fall past them, and are far and not done again.
    fn settle_row(&mut self, pairs: &[Pair], fall: u64, enter: &mut [u64])
        requires enter { length enter.old ≡ vec_len self.old.dist }
        requires row { IsRow (vec_len self.old.dist) pairs.now }
        requires fall { fall ≤ GREATEST_PRICE }
        requires low { (j : ℕ) → at self.old.dist.items j < fall → at enter.old j ≤ GREATEST_PRICE }
        ensures slots { vec_len self.new.dist ≡ vec_len self.old.dist }
        ensures same { (self.new.rows ≡ self.old.rows) × (self.new.parent ≡ self.old.parent) }
        ensures settled { (j : ℕ) → value_of pairs.now j ≢ None
            → IsSettled fall (columns_of self.old) enter.old (columns_of self.new) enter.new j }
        ensures kept { (j : ℕ) → value_of pairs.now j ≡ None → IsKept (columns_of self.old) enter.old (columns_of self.new) enter.new j }
    {
        for place in 0..pairs.len() {
            self.settle_column(pairs[place].column, fall, enter);
        }
    }

    /// Settles all columns, which rows of the tree list where they were reached.
    pub(crate) fn settle(&mut self, lists: &PairLists, size: u16, fall: u64, enter: &mut [u64])
        requires slots { vec_len self.old.dist ≡ lists.now.slots }
        requires enter { length enter.old ≡ lists.now.slots }
        requires size { size ≤ vec_len self.old.rows }
        requires rows { (t : ℕ) → t < size → at self.old.rows.items t < length lists.now.rows }
        requires fall { fall ≤ GREATEST_PRICE }
        requires low { (j : ℕ) → at self.old.dist.items j < fall → at enter.old j ≤ GREATEST_PRICE }
        requires reached { (j : ℕ) → j < lists.now.slots → at self.old.dist.items j < FAR
            → (t : ℕ) × (t < size) × (listed lists.now (at self.old.rows.items t) j ≢ None) }
        requires near { (j : ℕ) → at self.old.dist.items j ≤ FAR }
        requires done { (j : ℕ) → j < lists.now.slots → is_done self.old.done.items j ≡ true → at self.old.dist.items j < FAR }
        ensures slots { vec_len self.new.dist ≡ vec_len self.old.dist }
        ensures columns { (j : ℕ) → j < length enter.old → at enter.new j ≡ at enter.old j + (fall - at self.old.dist.items j) }
        ensures dist { self.new.dist.items ≡ replicate lists.now.slots FAR }
        ensures done { self.new.done.items ≡ replicate lists.now.slots false }
    {
        for place in 0..size {
            let row = self.rows[place as usize];
            self.settle_row(lists.row(row), fall, enter);
        }
    }
}
