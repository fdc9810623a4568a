ghost use Rattle.std.specs.Prelude.{◌≡◌, ℕ, ◌<◌, ◌≤◌, Some, length, slice_index_or, IfSome};
ghost use Rattle.deadhead_matrix.specs.declared.limits.TheConstants.{LONGEST_WALK};
ghost use Rattle.pair_graph.specs.Pairs.{pairs_pull};
ghost use Rattle.pair_graph.specs.Shares.{saved_along};
ghost use Rattle.pair_search.specs.Groups.{group_at};
ghost use Rattle.pair_search.specs.Side.{side_slot, side_slots, side_walk_weight, line_weight, IsFirstFit, IsFree, IsReachOf};
ghost use Rattle.pair_search.specs.Order.{no_column};

use crate::order::first_from;
use crate::side::Side;
use pair_graph::{Column, Row, Share};
use std::marker::Model;

/// What a row needs to come to a post: the minutes of the walk, and the minute at which it is there.
#[derive(Clone, Copy)]
pub(crate) struct Reach {
    pub walk: u32,
    pub minute: u16,
}

/// One row of a side with each column: what its pairs share, and the pairs themselves, where its trip runs.
#[derive(Drop)]
pub(crate) struct Line<'a> {
    pub(crate) side: &'a Side<'a>,
    pub(crate) row: u16,
    pub(crate) share: Share,
    pub(crate) leaving: Option<Row<'a>>,
    pub(crate) entering: Option<Column<'a>>,
}

impl<'a> Model for Line<'a> {
    ghost use Rattle.std.specs.Prelude.{◌<◌};
    ghost use Rattle.pair_search.specs.Side.{LineView, IsHeld, side_slots};

    ghost Value = { LineView };

    ghost view = { λ l. record { side = l.side.now; row = l.row; share = l.share } };

    ghost invariant = { λ l. (l.row < side_slots l.side.now) × IsHeld l.side.now l.row l.share l.leaving l.entering };
}

impl<'a> Line<'a> {
    /// What the row weighs with the column at a place where no rules forbid a pair.
    pub(crate) fn walk_weight(&self, place: u16) -> Option<u64>
        requires { place < side_slots self.now.side }
        ensures { result ≡ side_walk_weight self.now.side self.now.row (side_slot self.now.side place) }
    {
        let side = self.side;
        let slot = side.slot(place);
        if side.without == Some(slot) {
            return None;
        }
        if let Some(row) = &self.leaving {
            return row.walk_weight(slot);
        }
        let Some(column) = &self.entering else {
            return None;
        };
        column.walk_weight(slot)
    }

    // The walk between the row and a post, where there is one. It tells what the row weighs, where no rule names it.
    fn walk(&self, post: u16) -> Option<u32>
        requires { post < length self.now.side.pairs.matrix.walks }
        ensures weights { (k : ℕ) → IsFree self.now → k < side_slots self.now.side
            → (slice_index_or self.now.side.columns k (no_column (side_slots self.now.side))).post ≡ Some post
            → line_weight self.now k ≡ saved_along self.now.share (pairs_pull self.now.side.pairs self.now.side.turned post) result
            (slice_index_or self.now.side.columns k (no_column (side_slots self.now.side))).minute }
        ensures bound { IfSome result (λ minutes. minutes ≤ LONGEST_WALK) }
    {
        let side = self.side;
        // Its clauses say that moves are of one day.
        let _slots = side.pairs.slots();
        if let Some(row) = &self.leaving {
            return row.walk(post);
        }
        let Some(column) = &self.entering else {
            return None;
        };
        column.walk(post)
    }

    /// How the row comes to the columns of a group, where it is in time for any.
    pub(crate) fn reach_of(&self, group: usize) -> Option<Reach>
        requires group { group < self.now.side.count }
        requires free { IsFree self.now }
        ensures { IsReachOf self.now (group_at self.now.side.groups group) result }
    {
        let side = self.side;
        // Its clauses say that moves are of one day.
        let _slots = side.pairs.slots();
        let group = side.group(group);
        let walk = self.walk(group.post?)?;
        let minute = u32::from(self.share.ready) + walk;
        if minute > u32::from(group.latest) {
            return None;
        }
        Some(Reach {
            walk,
            minute: minute as u16,
        })
    }

    /// The first column of a group before a place that the row fits; that place where it fits none of them.
    pub(crate) fn first_fit(&self, group: usize, reach: Reach, upto: u16) -> u16
        requires group { group < self.now.side.count }
        requires reach { IsReachOf self.now (group_at self.now.side.groups group) (Some reach) }
        requires upto { upto ≤ (group_at self.now.side.groups group).to }
        ensures { IsFirstFit self.now (group_at self.now.side.groups group) reach upto result }
    {
        let side = self.side;
        let group = side.group(group);
        first_from(side.columns, group.from, upto, reach.minute)
    }
}
