ghost use Rattle.std.specs.Prelude.{◌≡◌, ℕ, ◌+◌, ◌-◌, ◌<◌, ◌≤◌, length, Some, IfSome};
ghost use Rattle.assignment_model.specs.Prices.{weight};
ghost use Rattle.assignment_model.specs.declared.limits.TheConstants.{MOST_DEADHEAD, VEHICLE_WEIGHT};
ghost use Rattle.deadhead_matrix.specs.Pulls.{pull_at};
ghost use Rattle.deadhead_matrix.specs.declared.limits.TheConstants.{LONGEST_WALK};
ghost use Rattle.pair_graph.specs.Pairs.{walks_network};
ghost use Rattle.pair_graph.specs.Shares.{saved_along};
ghost use Rattle.trip_model.specs.declared.limits.TheConstants.{LAST_MINUTE};
ghost use Rattle.trip_model.specs.Plain.{move_at};
ghost use Rattle.trip_model.specs.declared.trip.Move.{Move};

use crate::{Pairs, Share};
use std::marker::Model;
use trip_model::Move;

/// The pairs of each slot with one, whose trip runs: what they share is fetched once.
#[derive(Drop)]
pub struct Column<'a> {
    pub(crate) pairs: &'a Pairs<'a>,
    pub(crate) slot: u16,
    pub(crate) after: Move,
    pub(crate) share: Share,
}

impl<'a> Model for Column<'a> {
    ghost use Rattle.pair_graph.specs.Pairs.{RowView};
    ghost use Rattle.pair_graph.specs.Shares.{IsColumn};

    ghost Value = { RowView };

    ghost view = { λ c. record { pairs = c.pairs.now; slot = c.slot; share = c.share } };

    ghost invariant = { λ c. IsColumn c.pairs.now c.slot c.after c.share };
}

impl<'a> Column<'a> {
    /// What the pairs of the column's slot share.
    pub fn share(&self) -> Share
        ensures share { result ≡ self.now.share }
        ensures least { VEHICLE_WEIGHT ≤ result.saved }
        ensures most { result.saved ≤ VEHICLE_WEIGHT + MOST_DEADHEAD }
    {
        self.share
    }

    /// What it saves to make the trip of the column's slot next after that of `i`, where no rules forbid a pair. It is not counted.
    pub fn walk_weight(&self, i: u16) -> Option<u64>
        requires { i < length self.now.pairs.moves }
        ensures { result ≡ weight (walks_network self.now.pairs) i self.now.slot }
    {
        let pairs = self.pairs;
        let row = pairs.row(i)?;
        row.walk_weight(self.slot)
    }

    /// In how many minutes a vehicle runs empty from a place to where the trip of the column's slot begins. This tells what it
    /// saves to make that trip next after one that ends there, where no rules forbid a pair. The caller counts the pairs that it
    /// then reads.
    pub fn walk(&self, place: u16) -> Option<u32>
        requires { place < length self.now.pairs.matrix.walks }
        ensures weights { (i : ℕ) (m : Move) → move_at self.now.pairs.moves i ≡ Some m → m.to ≡ place → m.arrives ≤ LAST_MINUTE
            → weight (walks_network self.now.pairs) i self.now.slot
            ≡ saved_along self.now.share (pull_at self.now.pairs.matrix.pulls place).pull_in result (LAST_MINUTE - m.arrives) }
        ensures bound { IfSome result (λ minutes. minutes ≤ LONGEST_WALK) }
    {
        let pairs = self.pairs;
        let matrix = pairs.matrix;
        matrix.minutes(place, self.after.from)
    }
}
