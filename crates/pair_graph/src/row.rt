ghost use Rattle.std.specs.Prelude.{◌≡◌, ℕ, ◌+◌, ◌<◌, ◌≤◌, length, Some, IfSome};
ghost use Rattle.assignment_model.specs.Prices.{weight};
ghost use Rattle.assignment_model.specs.declared.limits.TheConstants.{MOST_DEADHEAD, VEHICLE_WEIGHT};
ghost use Rattle.deadhead_matrix.specs.Pulls.{pull_at};
ghost use Rattle.deadhead_matrix.specs.declared.limits.TheConstants.{LONGEST_WALK};
ghost use Rattle.deadhead_matrix.specs.Fitting.{name_at};
ghost use Rattle.pair_rules.specs.Rules.{allows};
ghost use Rattle.pair_graph.specs.Pairs.{pairs_network, walks_network};
ghost use Rattle.pair_graph.specs.Shares.{saved_along};
ghost use Rattle.trip_model.specs.Plain.{move_at};
ghost use Rattle.trip_model.specs.declared.trip.Move.{Move};

use crate::{Pairs, Share};
use deadhead_matrix::Walks;
use desk_io::Steps;
use std::marker::Model;
use std::sync::ledger::Ledger;
use trip_model::Move;

/// The pairs of one slot, whose trip runs, with each: what they share is fetched once.
#[derive(Drop)]
pub struct Row<'a> {
    pub(crate) pairs: &'a Pairs<'a>,
    pub(crate) slot: u16,
    pub(crate) before: Move,
    pub(crate) walks: Walks<'a>,
    pub(crate) share: Share,
}

impl<'a> Model for Row<'a> {
    ghost use Rattle.pair_graph.specs.Pairs.{RowView, IsRow};

    ghost Value = { RowView };

    ghost view = { λ r. record { pairs = r.pairs.now; slot = r.slot; share = r.share } };

    ghost invariant = { λ r. IsRow r.pairs.now r.slot r.before r.walks r.share };
}

impl<'a> Row<'a> {
    /// What it saves to make the trip of `j` next after that of the row's slot, as [`Pairs::weight`] answers it. One step.
    pub fn weight<L: Ledger>(&self, j: u16, steps: &mut Steps<L>) -> Option<u64>
        requires { j < length self.now.pairs.moves }
        ensures weight { result ≡ weight (pairs_network self.now.pairs) self.now.slot j }
        ensures counted { steps.new ≡ steps.old + 1 }
    {
        steps.tick();
        let weight = self.walk_weight(j)?;
        if !self.allows(j) {
            return None;
        }
        Some(weight)
    }

    /// The same where no rules forbid a pair. It is not counted.
    pub fn walk_weight(&self, j: u16) -> Option<u64>
        requires { j < length self.now.pairs.moves }
        ensures { result ≡ weight (walks_network self.now.pairs) self.now.slot j }
    {
        let pairs = self.pairs;
        let after = pairs.move_at(j)?;
        let spare = u32::from(after.leaves.checked_sub(self.before.arrives)?);
        let minutes = self.walks.to(after.from)?;
        if minutes > spare {
            return None;
        }
        let out = pairs.matrix.pull_out(after.from);
        Some(self.share.saved + u64::from(out) - u64::from(minutes))
    }

    /// Whether the rules allow the trip of `j` next after that of the row's slot.
    pub fn allows(&self, j: u16) -> bool
        requires { j < length self.now.pairs.moves }
        ensures { result ≡ allows self.now.pairs.matrix.rules (name_at self.now.pairs.names self.now.slot)
            (name_at self.now.pairs.names j) }
    {
        self.pairs.allows(self.slot, j)
    }

    /// What the pairs of the row's slot share.
    pub fn share(&self) -> Share
        ensures share { result ≡ self.now.share }
        ensures least { VEHICLE_WEIGHT ≤ result.saved }
        ensures most { result.saved ≤ VEHICLE_WEIGHT + MOST_DEADHEAD }
    {
        self.share
    }

    /// In how many minutes a vehicle runs empty from where the trip of the row's slot ends to a place. This tells what it saves to
    /// make a trip next that begins there, where no rules forbid a pair. The caller counts the pairs that it then reads.
    pub fn walk(&self, place: u16) -> Option<u32>
        requires { place < length self.now.pairs.matrix.walks }
        ensures weights { (j : ℕ) (m : Move) → move_at self.now.pairs.moves j ≡ Some m → m.from ≡ place
            → weight (walks_network self.now.pairs) self.now.slot j
            ≡ saved_along self.now.share (pull_at self.now.pairs.matrix.pulls place).pull_out result m.leaves }
        ensures bound { IfSome result (λ minutes. minutes ≤ LONGEST_WALK) }
    {
        self.walks.to(place)
    }
}
