ghost use Rattle.std.specs.Prelude.{◌≡◌, ◌<◌, ◌≤◌, None, length, slice_index_or, IfSome};
ghost use Rattle.deadhead_matrix.specs.declared.limits.TheConstants.{LONGEST_WALK};

use crate::distances::Distances;
use std::marker::Model;

/// In how many minutes a vehicle can run empty from one place to each.
#[derive(Drop)]
pub struct Walks<'a> {
    pub(crate) row: &'a Distances,
    pub(crate) places: u16,
}

impl<'a> Model for Walks<'a> {
    ghost use Rattle.std.specs.Prelude.{List, Option, ℕ, ◌≤◌, length};
    ghost use Rattle.deadhead_matrix.specs.Rows.{walks_in, IsBounded};

    ghost Value = { List (Option ℕ) };

    ghost view = { λ w. walks_in w.row.now w.places };

    ghost invariant = { λ w. IsBounded w.row.now × (w.places ≤ length w.row.now) };
}

impl<'a> Walks<'a> {
    /// The minutes to a place, as [`Matrix::minutes`](crate::Matrix::minutes) answers them.
    pub fn to(&self, place: u16) -> Option<u32>
        requires { place < length self.now }
        ensures walk { result ≡ slice_index_or self.now place None }
        ensures bound { IfSome result (λ minutes. minutes ≤ LONGEST_WALK) }
    {
        self.row.to(usize::from(place))
    }
}
