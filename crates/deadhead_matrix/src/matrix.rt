ghost use Rattle.std.specs.Prelude.{◌≡◌, ◌≢◌, ℕ, ◌<◌, ◌≤◌, [], length, replicate, slice_index_or, All, Err, IfOk, IfSome};
ghost use Rattle.gtfs_tables.specs.Papers.{IsWithinLimit};
ghost use Rattle.gtfs_tables.specs.Reading.{Gives};
ghost use Rattle.trip_model.specs.declared.limits.TheConstants.{MOST_PLACES};
ghost use Rattle.deadhead_matrix.specs.declared.limits.TheConstants.{LONGEST_WALK};
ghost use Rattle.assignment_model.specs.declared.limits.TheConstants.{MOST_DEADHEAD};
ghost use Rattle.deadhead_matrix.specs.declared.pulls.TheConstants.{NO_PULL};
ghost use Rattle.deadhead_matrix.specs.Deadheads as spec;
ghost use Rattle.deadhead_matrix.specs.Left.{timetable_left};
ghost use Rattle.deadhead_matrix.specs.Matrix.{AreLeastWalks, IsSquare, empty_matrix, walk};
ghost use Rattle.deadhead_matrix.specs.Named.{HasGained, IsNamed};
ghost use Rattle.deadhead_matrix.specs.Pulls.{pull_at, IsPull};
ghost use Rattle.deadhead_matrix.specs.Walks.{IsLeastWalk};

use crate::deadheads::Deadheads;
use crate::distances::Distances;
use crate::entry::Entry;
use crate::pulls::Pulls;
use crate::walks::Walks;
use desk_io::{Found, Memory};
use gtfs_tables::FeedFault;
use pair_rules::PairRules;
use std::alloc::Global;
use std::marker::Model;
use trip_model::Timetable;

/// For each two places, in how many minutes a vehicle can run empty from the one to the other, along the entries of the
/// planner. For each place, in how many it comes from the depot and goes back. And the rules of pairs of trips.
pub struct Matrix {
    entries: Vec<Entry>,
    rows: Vec<Distances>,
    pulls: Pulls,
    rules: PairRules,
}

impl Drop for Matrix {
    fn drop(self) {
        let Self {
            entries: _,
            rows: _,
            pulls: _,
            rules: _,
        } = self;
    }
}

impl Model for Matrix {
    ghost use Rattle.std.specs.Prelude.{◌≡◌, length};
    ghost use Rattle.deadhead_matrix.specs.Rows.{AreLeastRows};
    ghost use Rattle.deadhead_matrix.specs.Matrix.{MatrixView, matrix_from};

    ghost Value = { MatrixView };

    ghost view = { λ m. matrix_from m.entries.items m.rows.items m.pulls m.rules };

    ghost invariant = { λ m. AreLeastRows m.entries.items m.rows.items × (length m.pulls ≡ length m.rows.items) };
}

impl Matrix {
    /// The matrix of entries between so many places, without pulls and rules. Its minutes are made in a turn of each place.
    pub fn of(alloc: Global, deadheads: &Deadheads, places: u16) -> Result<Matrix, Memory>
        requires { places ≤ MOST_PLACES }
        ensures entries { IfOk result (λ matrix. matrix.entries ≡ deadheads.now) }
        ensures least { IfOk result AreLeastWalks }
        ensures places { IfOk result (λ matrix. length matrix.walks ≡ places) }
        ensures square { IfOk result IsSquare }
        ensures pulls { IfOk result (λ matrix. matrix.pulls ≡ replicate places NO_PULL) }
        ensures rules { IfOk result (λ matrix. matrix.rules ≡ []) }
        ensures standing { deadheads.now ≡ [] → IfOk result (λ matrix. matrix ≡ empty_matrix places) }
    {
        Ok(Matrix {
            entries: deadheads.entries(alloc)?,
            rows: deadheads.distances(alloc, places)?,
            pulls: Pulls::none(alloc, places)?,
            rules: PairRules::none(alloc),
        })
    }

    /// The matrix of what was found of `deadheads.csv`, as [`Deadheads::read`] reads it, between all places that the
    /// timetable has then, without pulls and rules.
    pub fn read(
        alloc: Global,
        deadheads: &Found,
        timetable: &mut Timetable,
    ) -> Result<Matrix, FeedFault>
        requires { IsWithinLimit deadheads.now }
        ensures gives { Gives (λ matrix. (timetable.new, matrix.entries)) result (spec.deadheads_of deadheads.now timetable.old) }
        ensures least { IfOk result AreLeastWalks }
        ensures places { IfOk result (λ matrix. length matrix.walks ≡ length timetable.new.places) }
        ensures pulls { IfOk result (λ matrix. matrix.pulls ≡ replicate (length timetable.new.places) NO_PULL) }
        ensures rules { IfOk result (λ matrix. matrix.rules ≡ []) }
        ensures standing { IfOk result (λ matrix. matrix.entries ≡ [] → matrix ≡ empty_matrix (length timetable.new.places)) }
        ensures left { result ≢ Err FeedFault.Memory → timetable.new ≡ timetable_left deadheads.now timetable.old }
        // Also after lack of memory: the timetable is as it was, but for places at the end of its list that records name.
        ensures gained { HasGained (IsNamed deadheads.now timetable.old) timetable.old timetable.new }
    {
        let deadheads = Deadheads::read(alloc, deadheads, timetable)?;
        Ok(Matrix::of(alloc, &deadheads, timetable.places())?)
    }

    /// In how many minutes a vehicle can run empty from the place `a` to each, for a caller that looks at many of them.
    pub fn walks_from(&self, a: u16) -> Walks<'_>
        requires { a < length self.now.walks }
        ensures walks { result ≡ slice_index_or self.now.walks a [] }
        ensures places { length result ≡ length self.now.walks }
        ensures least { (b : ℕ) → b < length self.now.walks → IsLeastWalk self.now.entries a b (walk self.now a b) }
    {
        Walks {
            row: &self.rows[usize::from(a)],
            places: self.places(),
        }
    }

    /// In how many minutes a vehicle can run empty from the place `a` to the place `b`. It is 0 from a place to itself, at most
    /// 735,840 over 512 places, and None where there is no walk. A look-up, which takes no memory.
    pub fn minutes(&self, a: u16, b: u16) -> Option<u32>
        requires a { a < length self.now.walks }
        requires b { b < length self.now.walks }
        ensures walk { result ≡ walk self.now a b }
        ensures least { IsLeastWalk self.now.entries a b result }
        ensures bound { IfSome result (λ minutes. minutes ≤ LONGEST_WALK) }
    {
        self.walks_from(a).to(b)
    }

    /// How many places there are. No pull is longer than a day.
    pub fn places(&self) -> u16
        ensures count { result ≡ length self.now.walks }
        ensures pulls { length self.now.pulls ≡ length self.now.walks }
        ensures valid { All IsPull self.now.pulls }
    {
        self.pulls.len() as u16
    }

    /// Takes over the pulls of the places.
    pub fn set_pulls(&mut self, pulls: Pulls)
        requires { length pulls ≡ length self.old.walks }
        ensures { self.new ≡ record self.old { pulls = pulls } }
    {
        self.pulls = pulls;
    }

    /// Takes over the rules of pairs of trips.
    pub fn set_rules(&mut self, rules: PairRules)
        ensures { self.new ≡ record self.old { rules = rules } }
    {
        self.rules = rules;
    }

    /// The rules of pairs of trips.
    pub fn rules(&self) -> &PairRules
        ensures { result.now ≡ self.now.rules }
    {
        &self.rules
    }

    /// In how many minutes a vehicle runs empty from the depot to a place before its first trip.
    pub fn pull_out(&self, place: u16) -> u16
        requires { place < length self.now.walks }
        ensures value { result ≡ (pull_at self.now.pulls place).pull_out }
        ensures bound { result ≤ MOST_DEADHEAD }
    {
        self.pulls.of(place).pull_out
    }

    /// In how many minutes a vehicle runs empty from a place back to the depot after its last trip.
    pub fn pull_in(&self, place: u16) -> u16
        requires { place < length self.now.walks }
        ensures value { result ≡ (pull_at self.now.pulls place).pull_in }
        ensures bound { result ≤ MOST_DEADHEAD }
    {
        self.pulls.of(place).pull_in
    }
}
