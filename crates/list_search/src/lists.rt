ghost use Rattle.std.specs.Prelude.{◌≡◌, ◌-◌, ◌<◌, ◌≤◌, [], ◌∷◌, ◌++◌, take, drop, length, slice_index_or, IfOk, OnErr};
ghost use Rattle.pair_search.specs.Assignment.{AreWeights};
ghost use Rattle.list_search.specs.Lists.{behind, listed, no_rows, row_at, IsRow};
ghost use Rattle.pair_search.specs.declared.limits.TheConstants.{GREATEST_PRICE};
ghost use Rattle.trip_model.specs.declared.limits.TheConstants.{MOST_SLOTS};

use desk_io::Memory;
use std::alloc::Global;
use std::marker::Model;

/// A column that a row lists, with the value of the two.
#[derive(Clone, Copy)]
pub struct Pair {
    pub column: u16,
    pub value: u64,
}

/// For each row the columns that it lists, in rising order, with a value each. A row that is open gets its pairs one by one.
#[derive(Drop)]
pub struct PairLists {
    slots: u16,
    ends: Vec<usize>,
    pairs: Vec<Pair>,
}

impl Model for PairLists {
    ghost use Rattle.std.specs.Prelude.{◌≤◌, drop, vec_len};
    ghost use Rattle.std.specs.List.{All};
    ghost use Rattle.list_search.specs.Lists.{ListsView, rows_cut, cut_end, IsCut, IsRow};
    ghost use Rattle.trip_model.specs.declared.limits.TheConstants.{MOST_SLOTS};

    ghost Value = { ListsView };

    ghost view = { λ s. record {
      slots = s.slots;
      rows = rows_cut 0 s.ends.items s.pairs.items;
      begun = drop (cut_end 0 s.ends.items) s.pairs.items;
    } };

    ghost invariant = { λ s. (s.slots ≤ MOST_SLOTS) × IsCut 0 s.ends.items (vec_len s.pairs)
        × All (IsRow s.slots) (rows_cut 0 s.ends.items s.pairs.items)
        × IsRow s.slots (drop (cut_end 0 s.ends.items) s.pairs.items) };
}

// Where a row begins: where the one before it ends.
fn start_of(ends: &[usize], row: usize) -> usize
    requires { row < length ends.now }
    ensures { result ≡ slice_index_or (0 ∷ ends.now) row 0 }
{
    if row == 0 {
        return 0;
    }
    ends[row - 1]
}

// The pairs from one place until before another.
fn part(pairs: &[Pair], from: usize, to: usize) -> &[Pair]
    requires order { from ≤ to }
    requires within { to ≤ length pairs.now }
    ensures { result.now ≡ take (to - from) (drop from pairs.now) }
{
    &pairs[from..to]
}

impl PairLists {
    /// Lists of no row and no column. Memory is taken as pairs come.
    pub fn new(alloc: Global) -> PairLists
        ensures { result ≡ no_rows 0 }
    {
        PairLists {
            slots: 0,
            ends: Vec::new(alloc),
            pairs: Vec::new(alloc),
        }
    }

    /// Empties the lists, for rows over so many columns. They keep their memory.
    pub fn clear(&mut self, slots: u16)
        requires { slots ≤ MOST_SLOTS }
        ensures { self.new ≡ no_rows slots }
    {
        self.slots = slots;
        self.ends.clear();
        self.pairs.clear();
    }

    /// The row that is open lists a column behind those that it lists.
    pub fn push(&mut self, column: u16, value: u64) -> Result<(), Memory>
        requires within { column < self.old.slots }
        requires after { behind 0 self.old.begun ≤ column }
        requires most { value ≤ GREATEST_PRICE }
        ensures ok { IfOk result (λ _. self.new ≡ record self.old { begun = self.old.begun ++ record { column = column; value = value } ∷ [] }) }
        ensures err { OnErr result (self.new ≡ self.old) }
    {
        self.pairs.push(Pair { column, value })?;
        Ok(())
    }

    /// Ends the row that is open, and opens the next.
    pub fn end_row(&mut self) -> Result<(), Memory>
        ensures ok { IfOk result (λ _. self.new ≡ record self.old { rows = self.old.rows ++ self.old.begun ∷ []; begun = [] }) }
        ensures err { OnErr result (self.new ≡ self.old) }
    {
        self.ends.push(self.pairs.len())?;
        Ok(())
    }

    /// How many columns there are.
    pub fn slots(&self) -> u16
        ensures count { result ≡ self.now.slots }
        ensures few { result ≤ MOST_SLOTS }
        ensures sound { length self.now.rows ≤ self.now.slots → AreWeights (listed self.now) self.now.slots }
    {
        self.slots
    }

    /// What a row lists.
    pub(crate) fn row(&self, row: u16) -> &[Pair]
        requires { row < length self.now.rows }
        ensures pairs { result.now ≡ row_at self.now row }
        ensures row { IsRow self.now.slots (row_at self.now row) }
    {
        let row = row as usize;
        let from = start_of(&self.ends, row);
        part(&self.pairs, from, self.ends[row])
    }
}
