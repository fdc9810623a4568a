ghost use Rattle.std.specs.Prelude.{◌≡◌, ◌+◌, ◌<◌, ◌≤◌, List, [], ◌∷◌, ◌++◌, length, ℤ, pos, neg_ℤ, ◌<ℤ◌, All, IfOk, IfSome, IfNone};
ghost use Rattle.terminal_maxima.specs.declared.max_prefix.TheConstants.{MOST_CHANGE};
ghost use Rattle.trip_model.specs.declared.limits.TheConstants.{LAST_MINUTE};
ghost use Rattle.trip_model.specs.declared.trip.Move.{Move as ModelMove};
ghost use Rattle.trip_model.specs.Maximum.{IsFirstMaximum, first_maximum, sum_of_maxima};
ghost use Rattle.trip_model.specs.Steps.{steps};
ghost use Rattle.deficit_steps.specs.Changes.{IsDeficits, change_at, value, with_move, without_move};
ghost use Rattle.deficit_steps.specs.Holds.{Holds};
ghost use Rattle.deficit_steps.specs.NextMaximum.{IsNextMaximum, NoNextMaximum};

use crate::row::PlaceChanges;
use desk_io::{Memory, Steps};
use std::alloc::Global;
use std::marker::Model;
use std::sync::ledger::Ledger;
use trip_model::Move;

/// The deficits of all places, in vehicles, over the minutes 0 to 8,191 of the service day.
///
/// Memory is taken by [`Deficits::open`] and [`Deficits::step_list`] alone.
pub struct Deficits {
    rows: Vec<PlaceChanges>,
}

impl Drop for Deficits {
    fn drop(self) {
        let Self { rows: _ } = self;
    }
}

impl Model for Deficits {
    ghost use Rattle.std.specs.Prelude.{List, ℤ};
    ghost use Rattle.deficit_steps.specs.Changes.{IsDeficits};

    ghost Value = { List (List ℤ) };

    ghost view = { λ d. d.rows.items };

    ghost invariant = { λ d. IsDeficits d.rows.items };
}

impl Deficits {
    /// The deficits of so many places, which hold no move.
    pub fn open(alloc: Global, places: u16) -> Result<Deficits, Memory>
        ensures places { IfOk result (λ deficits. length deficits ≡ places) }
        ensures empty { IfOk result (All (All (λ c. c ≡ pos 0))) }
        ensures held { IfOk result (λ deficits. Holds deficits []) }
        ensures valid { IfOk result IsDeficits }
    {
        let mut rows = Vec::with_capacity(alloc, usize::from(places))?;
        for _ in 0..places {
            rows.push(PlaceChanges::open(alloc)?)?;
        }
        Ok(Deficits { rows })
    }

    /// How many places there are.
    pub fn places(&self) -> u16
        ensures count { result ≡ length self.now }
        ensures valid { IsDeficits self.now }
    {
        self.rows.len() as u16
    }

    /// Counts a departure where the move leaves, and an arrival where it arrives. A vehicle may leave in the minute in
    /// which it arrives, so both count in their own minute.
    pub fn add<L: Ledger>(&mut self, added: &Move, steps: &mut Steps<L>)
        requires from { added.now.from < length self.old }
        requires to { added.now.to < length self.old }
        requires forward { added.now.leaves < added.now.arrives }
        requires in_day { added.now.arrives ≤ LAST_MINUTE }
        requires raised { change_at self.old added.now.from added.now.leaves <ℤ pos MOST_CHANGE }
        requires lowered { neg_ℤ (pos MOST_CHANGE) <ℤ change_at self.old added.now.to added.now.arrives }

        ensures places { length self.new ≡ length self.old }
        ensures changed { self.new ≡ with_move self.old added.now }
        ensures held { (moves : List ModelMove) → Holds self.old moves
            → Holds self.new (moves ++ added.now ∷ []) }
        ensures counted { steps.new ≤ steps.old + 28 }
    {
        self.rows[usize::from(added.from)].change(added.leaves, 1, steps);
        self.rows[usize::from(added.to)].change(added.arrives, -1, steps);
    }

    /// Counts one departure less where the move leaves, and one arrival less where it arrives.
    pub fn take<L: Ledger>(&mut self, taken: &Move, steps: &mut Steps<L>)
        requires from { taken.now.from < length self.old }
        requires to { taken.now.to < length self.old }
        requires forward { taken.now.leaves < taken.now.arrives }
        requires in_day { taken.now.arrives ≤ LAST_MINUTE }
        requires lowered { neg_ℤ (pos MOST_CHANGE) <ℤ change_at self.old taken.now.from taken.now.leaves }
        requires raised { change_at self.old taken.now.to taken.now.arrives <ℤ pos MOST_CHANGE }
        requires begins { taken.now.leaves ≡ 0 → pos 0 <ℤ change_at self.old taken.now.from 0 }

        ensures places { length self.new ≡ length self.old }
        ensures changed { self.new ≡ without_move self.old taken.now }
        ensures held { (before after : List ModelMove) → Holds self.old (before ++ taken.now ∷ after)
            → Holds self.new (before ++ after) }
        ensures counted { steps.new ≤ steps.old + 28 }
    {
        self.rows[usize::from(taken.from)].change(taken.leaves, -1, steps);
        self.rows[usize::from(taken.to)].change(taken.arrives, 1, steps);
    }

    /// The value of a place at a minute.
    pub fn value_at(&self, place: u16, minute: u16) -> i32
        requires place { place < length self.now }
        requires minute { minute ≤ LAST_MINUTE }
        ensures { result ≡ value self.now place minute }
    {
        self.rows[usize::from(place)].value_at(minute)
    }

    /// The greatest value of a place, and the first minute that has it.
    pub fn max(&self, place: u16) -> (u32, u16)
        requires { place < length self.now }
        ensures computed { first_maximum (value self.now place) ≡ (pos result.0, result.1) }
        ensures maximum { IsFirstMaximum (value self.now place) (pos result.0) result.1 }
    {
        self.rows[usize::from(place)].max()
    }

    /// The first minute, not before this one, at which the value of a place is its greatest. `None` where the value is below
    /// that from this minute on.
    pub fn first_max_from(&self, place: u16, minute: u16) -> Option<u16>
        requires place { place < length self.now }
        requires minute { minute ≤ LAST_MINUTE }
        ensures found { IfSome result (IsNextMaximum (value self.now place) minute) }
        ensures none { IfNone result (NoNextMaximum (value self.now place) minute) }
    {
        self.rows[usize::from(place)].first_max_from(minute)
    }

    /// The sum of the greatest values of all places.
    pub fn total(&self) -> u64
        ensures { pos result ≡ sum_of_maxima (value self.now) (length self.now) }
    {
        let mut total = 0;
        for row in &self.rows {
            total += u64::from(row.max().0);
        }
        total
    }

    /// The minutes at which the value of a place differs from that of the minute before, each with its new value. Before minute
    /// 0 the value is 0.
    pub fn step_list(&self, place: u16) -> Result<Vec<(u16, i32)>, Memory>
        requires { place < length self.now }
        ensures { IfOk result (λ list. list.items ≡ steps (value self.now place)) }
    {
        self.rows[usize::from(place)].step_list(*self.rows.allocator())
    }
}
