ghost use Rattle.std.specs.Prelude.{◌≡◌, ◌+◌, ◌<◌, ◌≤◌, length, None, Some, IfSome, is_some};
ghost use Rattle.pair_rules.specs.Marks.{marks_of};
ghost use Rattle.deadhead_matrix.specs.Fitting.{name_at};
ghost use Rattle.assignment_model.specs.Prices.{weight, IsDay};
ghost use Rattle.assignment_model.specs.declared.limits.TheConstants.{MOST_DEADHEAD};
ghost use Rattle.trip_model.specs.declared.limits.TheConstants.{MOST_PLACES, MOST_SLOTS};
ghost use Rattle.trip_model.specs.Network.{AreDepartures};
ghost use Rattle.trip_model.specs.Order.{minute_left};
ghost use Rattle.trip_model.specs.Plain.{move_at, AreMoves, IsMove};
ghost use Rattle.pair_rules.specs.Rules.{allows};
ghost use Rattle.pair_graph.specs.Pairs.{is_kept, is_ruled, pairs_of, pairs_network, pairs_pull};

use crate::{Column, Row, Share};
use assignment_model::VEHICLE_WEIGHT;
use deadhead_matrix::Matrix;
use desk_io::Steps;
use pair_rules::Marks;
use std::marker::Model;
use std::sync::ledger::Ledger;
use trip_model::{LAST_MINUTE, Move, Timetable};

/// The pairs of trips of a timetable, with the least walks of a matrix between their places and its rules of pairs.
#[derive(Drop)]
pub struct Pairs<'a> {
    pub(crate) timetable: &'a Timetable,
    pub(crate) matrix: &'a Matrix,
    without: Option<u16>,
}

impl<'a> Model for Pairs<'a> {
    ghost use Rattle.pair_graph.specs.Pairs.{PairsView, pairs_of};
    ghost use Rattle.std.specs.Prelude.{◌≡◌, ◌<◌, length, IfSome};

    ghost Value = { PairsView };

    ghost view = { λ p. pairs_of p.timetable.now p.matrix.now p.without };

    ghost invariant = { λ p. (length p.timetable.now.places ≡ length p.matrix.now.walks)
        × IfSome p.without (λ slot. slot < length p.timetable.now.slots) };
}

impl<'a> Pairs<'a> {
    /// The pairs of a timetable and of the matrix over its places.
    pub fn of(timetable: &'a Timetable, matrix: &'a Matrix) -> Pairs<'a>
        requires places { length timetable.now.places ≡ length matrix.now.walks }
        ensures { result ≡ pairs_of timetable.now matrix.now None }
    {
        Pairs {
            timetable,
            matrix,
            without: None,
        }
    }

    /// The same pairs but that the trip of one slot does not run.
    pub fn without(timetable: &'a Timetable, matrix: &'a Matrix, slot: u16) -> Pairs<'a>
        requires places { length timetable.now.places ≡ length matrix.now.walks }
        requires slot { slot < length timetable.now.slots }
        ensures { result ≡ pairs_of timetable.now matrix.now (Some slot) }
    {
        Pairs {
            timetable,
            matrix,
            without: Some(slot),
        }
    }

    /// How many slots there are. Their trips make moves of one day, so the laws of plans and prices hold of these pairs.
    pub fn slots(&self) -> u16
        ensures count { result ≡ length self.now.moves }
        ensures few { result ≤ MOST_SLOTS }
        ensures valid { AreMoves (length self.now.matrix.walks) self.now.moves }
        ensures day { IsDay (pairs_network self.now) result }
        ensures departures { AreDepartures (pairs_network self.now) (λ s. minute_left (move_at self.now.moves s)) }
    {
        // Its clause says that no pull is longer than a day.
        let _places = self.matrix.places();
        self.timetable.slots()
    }

    /// How many places there are.
    pub fn places(&self) -> u16
        ensures count { result ≡ length self.now.matrix.walks }
        ensures few { result ≤ MOST_PLACES }
    {
        self.timetable.places()
    }

    /// The move of the trip of a slot, where that runs.
    pub fn move_at(&self, slot: u16) -> Option<Move>
        requires { slot < length self.now.moves }
        ensures made { result ≡ move_at self.now.moves slot }
        ensures valid { IfSome result (IsMove (length self.now.matrix.walks)) }
    {
        if self.without == Some(slot) {
            return None;
        }
        let trip = self.timetable.trip(slot);
        if trip.live {
            Some(trip.as_move())
        } else {
            None
        }
    }

    /// The pairs of a slot with each, for a caller that looks at many of them; None where its trip does not run.
    pub fn row(&self, slot: u16) -> Option<Row<'_>>
        requires { slot < length self.now.moves }
        ensures row { IfSome result (λ row. row ≡ record { pairs = self.now; slot = slot; share = row.share }) }
        ensures live { is_some result ≡ (pairs_network self.now).live slot }
    {
        let before = self.move_at(slot)?;
        Some(Row {
            pairs: self,
            slot,
            before,
            walks: self.matrix.walks_from(before.to),
            share: Share {
                ready: before.arrives,
                saved: VEHICLE_WEIGHT + u64::from(self.matrix.pull_in(before.to)),
            },
        })
    }

    /// The pairs of each slot with one, for a caller that looks at many of them; None where its trip does not run.
    pub fn column(&self, slot: u16) -> Option<Column<'_>>
        requires { slot < length self.now.moves }
        ensures column { IfSome result (λ column. column ≡ record { pairs = self.now; slot = slot; share = column.share }) }
        ensures live { is_some result ≡ (pairs_network self.now).live slot }
    {
        let after = self.move_at(slot)?;
        Some(Column {
            pairs: self,
            slot,
            after,
            share: Share {
                ready: LAST_MINUTE - after.leaves,
                saved: VEHICLE_WEIGHT + u64::from(self.matrix.pull_out(after.from)),
            },
        })
    }

    /// In how many minutes a vehicle runs empty from the depot to a place. Seen backward, from there home.
    pub fn pull(&self, turned: bool, place: u16) -> u16
        requires { place < length self.now.matrix.walks }
        ensures pull { result ≡ pairs_pull self.now turned place }
        ensures bound { result ≤ MOST_DEADHEAD }
    {
        if turned {
            self.matrix.pull_in(place)
        } else {
            self.matrix.pull_out(place)
        }
    }

    // What the rules have of the trip of a slot.
    fn marks(&self, slot: u16) -> Marks
        requires { slot < length self.now.moves }
        ensures { result ≡ marks_of self.now.matrix.rules (name_at self.now.names slot) }
    {
        self.matrix.rules().marks(self.timetable.name(slot))
    }

    /// Whether a rule has the trip of a slot as its first. Seen backward, as its second.
    pub fn is_ruled(&self, turned: bool, slot: u16) -> bool
        requires { slot < length self.now.moves }
        ensures { result ≡ is_ruled self.now turned slot }
    {
        let marks = self.marks(slot);
        if turned { marks.second } else { marks.first }
    }

    /// Whether a keep has the trip of a slot as its second. Seen backward, as its first.
    pub fn is_kept(&self, turned: bool, slot: u16) -> bool
        requires { slot < length self.now.moves }
        ensures { result ≡ is_kept self.now turned slot }
    {
        let marks = self.marks(slot);
        if turned {
            marks.keeps_first
        } else {
            marks.keeps_second
        }
    }

    /// Whether the rules allow the trip of `j` next after that of `i`.
    pub fn allows(&self, i: u16, j: u16) -> bool
        requires i { i < length self.now.moves }
        requires j { j < length self.now.moves }
        ensures { result ≡ allows self.now.matrix.rules (name_at self.now.names i) (name_at self.now.names j) }
    {
        let names = self.timetable;
        self.matrix.rules().allows(names.name(i), names.name(j))
    }

    /// What it saves to make the trip of `j` next after that of `i`, where one vehicle can. It is 67,108,864 for a vehicle,
    /// plus the minutes home after `i` and out to `j`, less those of the least walk between them. One step.
    pub fn weight<L: Ledger>(&self, i: u16, j: u16, steps: &mut Steps<L>) -> Option<u64>
        requires i { i < length self.now.moves }
        requires j { j < length self.now.moves }
        ensures weight { result ≡ weight (pairs_network self.now) i j }
        ensures counted { steps.new ≡ steps.old + 1 }
    {
        match self.row(i) {
            Some(row) => row.weight(j, steps),
            None => {
                steps.tick();
                None
            }
        }
    }
}
