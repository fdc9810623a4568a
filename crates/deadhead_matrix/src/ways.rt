ghost use Rattle.std.specs.Prelude.{◌≡◌, ℕ, ◌<◌, length, replicate, slice_set, IfOk};

use desk_io::Memory;
use std::alloc::Global;
use std::marker::Model;

/// For one place the minutes of the entry from it to each place; 0 where there is none.
#[derive(Drop)]
pub(crate) struct Ways {
    minutes: Vec<u16>,
}

impl Model for Ways {
    ghost use Rattle.std.specs.Prelude.{List, ℕ};

    ghost Value = { List ℕ };

    ghost view = { λ w. w.minutes.items };
}

impl Ways {
    /// To so many places no entry.
    pub(crate) fn none(alloc: Global, places: usize) -> Result<Ways, Memory>
        ensures { IfOk result (λ ways. ways ≡ replicate places 0) }
    {
        Ok(Ways {
            minutes: vec![in alloc; 0; places]?,
        })
    }

    /// The minutes to each place.
    pub(crate) fn minutes(&self) -> &[u16]
        ensures { result.now ≡ self.now }
    {
        &self.minutes
    }

    /// Enters the minutes to a place.
    pub(crate) fn set(&mut self, to: usize, minutes: u16)
        requires { to < length self.old }
        ensures { self.new ≡ slice_set self.old to minutes }
    {
        self.minutes[to] = minutes;
    }
}
