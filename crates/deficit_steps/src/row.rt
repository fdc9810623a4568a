ghost use Rattle.std.specs.Prelude.{◌≡◌, ◌≤◌, ◌+◌, ℕ, ℤ, pos, ◌+ℤ◌, ◌≤ℤ◌, All, IfOk, IfSome, IfNone, slice_index_or};
ghost use Rattle.trip_model.specs.declared.limits.TheConstants.{LAST_MINUTE};
ghost use Rattle.trip_model.specs.Maximum.{first_maximum};
ghost use Rattle.trip_model.specs.Steps.{steps};
ghost use Rattle.deficit_steps.specs.Changes.{IsChange, AreChanges, value_in, with_change_in};
ghost use Rattle.deficit_steps.specs.NextMaximum.{IsNextMaximum, NoNextMaximum};

use desk_io::{Memory, Steps};
use std::alloc::Global;
use std::marker::Model;
use std::sync::ledger::Ledger;
use terminal_maxima::{MaxPrefix, Tree};
use trip_model::MINUTES;

/// The changes of one place, one for each minute, which are the sums of the leaves of a tree.
pub struct PlaceChanges {
    tree: Tree<MaxPrefix>,
}

impl Drop for PlaceChanges {
    fn drop(self) {
        let Self { tree: _ } = self;
    }
}

impl Model for PlaceChanges {
    ghost use Rattle.std.specs.Prelude.{List, ℤ};
    ghost use Rattle.deficit_steps.specs.Leaves.{sums};

    ghost Value = { List ℤ };

    ghost view = { λ r. sums r.tree };
}

impl PlaceChanges {
    /// The changes of a place without moves.
    pub fn open(alloc: Global) -> Result<PlaceChanges, Memory>
        ensures empty { IfOk result (All (λ c. c ≡ pos 0)) }
        ensures valid { IfOk result AreChanges }
    {
        Ok(PlaceChanges {
            tree: Tree::open(alloc)?,
        })
    }

    /// Raises the change of one minute.
    pub fn change<L: Ledger>(&mut self, minute: u16, by: i32, steps: &mut Steps<L>)
        requires valid { AreChanges self.old }
        requires minute { minute ≤ LAST_MINUTE }
        requires bounded { IsChange (slice_index_or self.old minute (pos 0) +ℤ by) }
        requires begins { minute ≡ 0 → pos 0 ≤ℤ (slice_index_or self.old minute (pos 0) +ℤ by) }
        ensures changed { self.new ≡ with_change_in self.old minute by }
        ensures valid { AreChanges self.new }
        ensures counted { steps.new ≤ steps.old + 14 }
    {
        let sum = self.tree.leaf(minute).sum + by;
        let leaf = MaxPrefix {
            sum,
            high: sum.max(0),
        };
        self.tree.set(minute, leaf, steps);
    }

    /// The sum of the changes up to and including a minute.
    pub fn value_at(&self, minute: u16) -> i32
        requires valid { AreChanges self.now }
        requires minute { minute ≤ LAST_MINUTE }
        ensures { result ≡ value_in self.now minute }
    {
        let mut value = 0;
        for m in 0..minute + 1 {
            value += self.tree.leaf(m).sum;
        }
        value
    }

    /// The greatest value, and the first minute that has it.
    pub fn max(&self) -> (u32, u16)
        requires { AreChanges self.now }
        ensures { first_maximum (value_in self.now) ≡ (pos result.0, result.1) }
    {
        let high = self.tree.greatest_prefix();
        let at = self.tree.first_reaching(high).unwrap();
        (high as u32, at)
    }

    /// The first minute, not before this one, that has the greatest value.
    pub fn first_max_from(&self, minute: u16) -> Option<u16>
        requires valid { AreChanges self.now }
        requires minute { minute ≤ LAST_MINUTE }
        ensures found { IfSome result (IsNextMaximum (value_in self.now) minute) }
        ensures none { IfNone result (NoNextMaximum (value_in self.now) minute) }
    {
        let high = self.tree.greatest_prefix();
        self.tree.first_from(minute, high)
    }

    /// The minutes at which the value changes, each with its new value.
    pub fn step_list(&self, alloc: Global) -> Result<Vec<(u16, i32)>, Memory>
        requires { AreChanges self.now }
        ensures { IfOk result (λ list. list.items ≡ steps (value_in self.now)) }
    {
        let mut list = Vec::new(alloc);
        let mut value = 0;
        for minute in 0..MINUTES {
            let change = self.tree.leaf(minute).sum;
            value += change;
            if change != 0 {
                list.push((minute, value))?;
            }
        }
        Ok(list)
    }
}
