ghost use Rattle.std.specs.Prelude.{◌≡◌, ℕ, ◌<◌, ◌≤◌, length, slice_index_or, IfOk};
ghost use Rattle.deadhead_matrix.specs.Rows.{far, dist_at, found_at, AreNearer};

use crate::through::lead_through;
use desk_io::Memory;
use std::alloc::Global;
use std::marker::Model;

/// Farther than any walk, in minutes.
pub(crate) const FAR: u32 = 1 << 30;

/// How far each place is from one, in minutes.
#[derive(Drop)]
pub(crate) struct Distances {
    minutes: Vec<u32>,
}

impl Model for Distances {
    ghost use Rattle.std.specs.Prelude.{List, ℕ};

    ghost Value = { List ℕ };

    ghost view = { λ d. d.minutes.items };
}

impl Distances {
    /// Takes over the minutes.
    pub(crate) fn of(minutes: Vec<u32>) -> Distances
        ensures { result ≡ minutes.items }
    {
        Distances { minutes }
    }

    /// The minutes to each place.
    pub(crate) fn minutes(&self) -> &[u32]
        ensures { result.now ≡ self.now }
    {
        &self.minutes
    }

    /// A copy of the minutes.
    pub(crate) fn copy(&self, alloc: Global) -> Result<Vec<u32>, Memory>
        ensures { IfOk result (λ minutes. minutes.items ≡ self.now) }
    {
        let mut minutes = Vec::new(alloc);
        minutes.extend_from_slice(&self.minutes)?;
        Ok(minutes)
    }

    /// Leads to each place through another, which is so far and has this row.
    pub(crate) fn lead_through(&mut self, from: u32, row: &[u32])
        requires len { length row.now ≡ length self.old }
        requires from { from ≤ far }
        requires low { (j : ℕ) → dist_at row.now j ≤ far }
        ensures { AreNearer row.now from (length self.old) self.old self.new }
    {
        lead_through(&mut self.minutes, from, row);
    }

    /// The minutes to a place, where it is reached.
    pub(crate) fn to(&self, place: usize) -> Option<u32>
        requires { place < length self.now }
        ensures { result ≡ found_at self.now place }
    {
        let minutes = self.minutes[place];
        if minutes < FAR { Some(minutes) } else { None }
    }
}
