ghost use Rattle.std.specs.Prelude.{◌≡◌, [], ◌∷◌, ◌++◌, true, not, IfOk};
ghost use Rattle.gtfs_tables.specs.Reading.{Gives};
ghost use Rattle.deadhead_matrix.specs.Deadheads.{has_ends, with_ends};

use desk_io::Memory;
use gtfs_tables::{FeedFault, Paper};
use indexmap::IndexSet;
use std::alloc::Global;
use std::marker::Model;

/// The ends, by their names, of the records whose terminals have no places, each once.
#[derive(Drop)]
pub(crate) struct Unplaced {
    ends: IndexSet<(String, String)>,
}

impl Model for Unplaced {
    ghost use Rattle.std.specs.Prelude.{List};
    ghost use Rattle.deadhead_matrix.specs.Deadheads.{Ends, ends_from};

    ghost Value = { List Ends };

    ghost view = { λ u. ends_from u.ends.keys };
}

impl Unplaced {
    /// No records.
    pub(crate) fn none(alloc: Global) -> Unplaced
        ensures { result ≡ [] }
    {
        Unplaced {
            ends: IndexSet::new(alloc),
        }
    }

    // Appends the ends, if they are new, and answers whether they were.
    fn add(&mut self, from: &str, to: &str) -> Result<bool, Memory>
        ensures new { IfOk result (λ new. new ≡ not (has_ends self.old (from.now, to.now))) }
        ensures added { IfOk result (λ new. new ≡ true → self.new ≡ self.old ++ (from.now, to.now) ∷ []) }
    {
        let alloc = *self.ends.allocator();
        let from = String::from_str(alloc, from)?;
        let to = String::from_str(alloc, to)?;
        Ok(self.ends.insert((from, to))?)
    }

    /// Appends the ends of a record, which no earlier one may have.
    pub(crate) fn add_record(&mut self, number: u32, from: &str, to: &str) -> Result<(), FeedFault>
        ensures { Gives (λ _. self.new) result (with_ends number self.old (from.now, to.now)) }
    {
        if self.add(from, to)? {
            return Ok(());
        }
        Err(FeedFault::DuplicateRow(Paper::Deadheads, number))
    }
}
