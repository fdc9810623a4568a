ghost use Rattle.std.specs.Prelude.{◌≡◌, ℕ, ◌<◌, ◌≤◌, not, length, slice_index_or, IfSome};
ghost use Rattle.std.specs.Option.{option_map};
ghost use Rattle.assignment_model.specs.declared.limits.TheConstants.{MOST_DEADHEAD};
ghost use Rattle.pair_search.specs.Arranged.{arranged, slots_of};
ghost use Rattle.pair_search.specs.Assignment.{AreWeights};
ghost use Rattle.pair_search.specs.Groups.{group_at, group_pull, AreGroups, IsOrderOf};
ghost use Rattle.pair_search.specs.Leads.{stand_of};
ghost use Rattle.pair_search.specs.Order.{IsOrder, IsRenaming};
ghost use Rattle.pair_graph.specs.Pairs.{is_kept, is_ruled};
ghost use Rattle.pair_search.specs.Side.{pairs_minute, pairs_post, side_allows, side_slots, side_slot, side_place, side_weight, IsSideOf};
ghost use Rattle.trip_model.specs.Plain.{move_at, AreMoves};
ghost use Rattle.trip_model.specs.declared.limits.TheConstants.{MOST_PLACES, MOST_SLOTS};

use crate::groups::Group;
use crate::leads::{Stand, stand_of};
use crate::line::Line;
use crate::order::Column;
use crate::orders::Order;
use assignment_model::VEHICLE_WEIGHT;
use pair_graph::{Pairs, Share};
use std::marker::Model;

/// What rows and columns of a search weigh: leaving sides as rows and entering sides as columns, or the other way round. One
/// column may be left out. Columns are in groups. Those of a group weigh the same with a row as far as they fit.
#[derive(Drop)]
pub struct Side<'a> {
    pub(crate) pairs: &'a Pairs<'a>,
    pub(crate) turned: bool,
    pub(crate) without: Option<u16>,
    pub(crate) columns: &'a [Column],
    pub(crate) places: &'a [u16],
    pub(crate) groups: &'a [Group],
    pub(crate) count: usize,
}

impl<'a> Model for Side<'a> {
    ghost use Rattle.std.specs.Prelude.{length};
    ghost use Rattle.pair_search.specs.Groups.{AreGroups};
    ghost use Rattle.pair_search.specs.Order.{IsOrder};
    ghost use Rattle.pair_search.specs.Side.{SideView, pairs_minute, pairs_post};

    ghost Value = { SideView };

    ghost view = { λ s. record {
      pairs = s.pairs.now;
      turned = s.turned;
      without = s.without;
      columns = s.columns.now;
      places = s.places.now;
      groups = s.groups.now;
      count = s.count;
    } };

    ghost invariant = { λ s. (IsOrder (length s.pairs.now.moves) (pairs_minute s.pairs.now s.turned)
        (pairs_post s.pairs.now s.turned s.without) s.columns.now s.places.now)
        × (AreGroups (length s.pairs.now.moves) s.columns.now s.count s.groups.now) };
}

impl<'a> Side<'a> {
    /// The pairs from one side, with their columns in order and in groups.
    pub fn of(
        pairs: &'a Pairs<'a>,
        turned: bool,
        without: Option<u16>,
        order: &'a Order,
    ) -> Side<'a>
        requires { IsOrderOf pairs.now turned without order.now }
        ensures pairs { IsSideOf pairs.now turned without result }
        ensures columns { IsOrder (length pairs.now.moves) (pairs_minute pairs.now turned) (pairs_post pairs.now turned without)
            result.columns result.places }
        ensures slots { slots_of result.columns ≡ arranged pairs.now turned without }
        ensures groups { AreGroups (side_slots result) result.columns result.count result.groups }
    {
        Side {
            pairs,
            turned,
            without,
            columns: &order.columns,
            places: &order.places,
            groups: &order.groups,
            count: order.count,
        }
    }

    /// How many rows there are, and as many columns.
    pub(crate) fn slots(&self) -> u16
        ensures count { result ≡ side_slots self.now }
        ensures few { result ≤ MOST_SLOTS }
        ensures sound { AreWeights (side_weight self.now) result }
        ensures moves { AreMoves (length self.now.pairs.matrix.walks) self.now.pairs.moves }
        ensures renaming { IsRenaming (side_slots self.now) (side_slot self.now) (side_place self.now) }
        ensures lengths { (length self.now.columns ≡ side_slots self.now) × (length self.now.places ≡ side_slots self.now) }
    {
        self.pairs.slots()
    }

    /// How many posts there are.
    pub(crate) fn posts(&self) -> u16
        ensures count { result ≡ length self.now.pairs.matrix.walks }
        ensures few { result ≤ MOST_PLACES }
    {
        self.pairs.places()
    }

    /// How many groups of columns there are.
    pub(crate) fn groups(&self) -> usize
        ensures count { result ≡ self.now.count }
        ensures groups { AreGroups (side_slots self.now) self.now.columns self.now.count self.now.groups }
    {
        self.count
    }

    /// A group of columns.
    pub(crate) fn group(&self, group: usize) -> Group
        requires { group < self.now.count }
        ensures group { result ≡ group_at self.now.groups group }
        ensures within { (result.from ≤ result.to) × (result.to ≤ side_slots self.now) }
        ensures few { (group < side_slots self.now) × (group < MOST_SLOTS) }
        ensures groups { AreGroups (side_slots self.now) self.now.columns self.now.count self.now.groups }
    {
        let groups = self.groups;
        groups[group]
    }

    /// The pull at the post of a group.
    pub(crate) fn pull(&self, group: usize) -> u16
        requires { group < self.now.count }
        ensures pull { result ≡ group_pull self.now group }
        ensures bound { result ≤ MOST_DEADHEAD }
    {
        // Its clauses say that moves are of one day.
        let _slots = self.pairs.slots();
        match self.group(group).post {
            Some(post) => self.pairs.pull(self.turned, post),
            None => 0,
        }
    }

    /// From which minute on a row misses all columns of a group before a place.
    pub(crate) fn missed(&self, group: usize, place: u16) -> u32
        requires group { group < self.now.count }
        requires place { place ≤ (group_at self.now.groups group).to }
        ensures { (k : ℕ) (d : _) → (group_at self.now.groups group).from ≤ k → k < place
            → (slice_index_or self.now.columns k d).minute < result }
    {
        if place <= self.group(group).from {
            return 0;
        }
        u32::from(self.columns[place as usize - 1].minute) + 1
    }

    /// The slot of the column at a place.
    pub(crate) fn slot(&self, place: u16) -> u16
        requires { place < side_slots self.now }
        ensures slot { result ≡ side_slot self.now place }
        ensures within { result < side_slots self.now }
    {
        self.columns[place as usize].slot
    }

    /// The place of a column.
    pub(crate) fn place(&self, slot: u16) -> u16
        requires { slot < side_slots self.now }
        ensures place { result ≡ side_place self.now slot }
        ensures within { result < side_slots self.now }
    {
        self.places[slot as usize]
    }

    /// Where the vehicle of a row stands, where its trip runs.
    pub(crate) fn stand(&self, row: u16) -> Option<Stand>
        requires { row < side_slots self.now }
        ensures stand { result ≡ option_map (stand_of self.now.turned) (move_at self.now.pairs.moves row) }
        ensures within { IfSome result (λ stand. stand.post < length self.now.pairs.matrix.walks) }
    {
        let pairs = self.pairs;
        let made = pairs.move_at(row)?;
        Some(stand_of(self.turned, made))
    }

    /// Whether a rule has the trip of a row as its first. Seen backward, as its second.
    pub(crate) fn is_ruled(&self, row: u16) -> bool
        requires { row < side_slots self.now }
        ensures { result ≡ is_ruled self.now.pairs self.now.turned row }
    {
        self.pairs.is_ruled(self.turned, row)
    }

    /// Whether a keep has the trip of a row as its first. Seen backward, as its second.
    pub(crate) fn is_keeping(&self, row: u16) -> bool
        requires { row < side_slots self.now }
        ensures { result ≡ is_kept self.now.pairs (not self.now.turned) row }
    {
        self.pairs.is_kept(!self.turned, row)
    }

    /// Whether the rules allow the pair of a row and the column at a place.
    pub(crate) fn allows(&self, row: u16, place: u16) -> bool
        requires row { row < side_slots self.now }
        requires place { place < side_slots self.now }
        ensures { result ≡ side_allows self.now row (side_slot self.now place) }
    {
        let slot = self.slot(place);
        if self.turned {
            self.pairs.allows(slot, row)
        } else {
            self.pairs.allows(row, slot)
        }
    }

    /// A row with each column.
    pub(crate) fn line(&self, row: u16) -> Line<'_>
        requires { row < side_slots self.now }
        ensures { result ≡ record { side = self.now; row = row; share = result.share } }
    {
        let pairs = self.pairs;
        let (leaving, entering) = if self.turned {
            (None, pairs.column(row))
        } else {
            (pairs.row(row), None)
        };
        let share = match &leaving {
            Some(held) => held.share(),
            None => match &entering {
                Some(held) => held.share(),
                None => Share {
                    ready: 0,
                    saved: VEHICLE_WEIGHT,
                },
            },
        };
        Line {
            side: self,
            row,
            share,
            leaving,
            entering,
        }
    }
}
