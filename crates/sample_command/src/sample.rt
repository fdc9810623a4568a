ghost use Rattle.std.specs.Prelude.{◌≡◌, ◌≤◌, IfOk};
ghost use Rattle.desk_io.specs.MemoryShelf.{files_of};
ghost use Rattle.desk_run.specs.Outside.{outside};
ghost use Rattle.desk_run.specs.Performs.{Performs};
ghost use Rattle.feed_sample.specs.Sample.{sample_files};
ghost use Rattle.feed_sample.specs.declared.sample.TheConstants.{MOST_SAMPLE};
ghost use Rattle.sample_command.specs.Sample.{sample_asked, sample_read};

use crate::summary::Summarize;
use desk_feed::{FEED_PAPERS, OnFeed};
use desk_io::{Memory, Shelf, Sink, Steps};
use desk_keeper::Keeper;
use desk_run::{Command, Outcome, Read, perform};
use feed_sample::{MOST_SAMPLE, sample_shelf};
use gtfs_tables::Paper;
use std::alloc::Global;
use std::sync::ledger::Ledger;

// The papers of the sample of so many trips. No read of its shelf fails, so where one of them comes to nothing it wants memory.
fn read_sample(alloc: Global, trips: u32) -> Result<Read, Memory>
    requires { trips ≤ MOST_SAMPLE }
    ensures { IfOk result (λ read. read ≡ sample_read trips) }
{
    let mut shelf = sample_shelf(alloc, trips)?;
    match Read::of_papers(alloc, &mut shelf, &FEED_PAPERS) {
        Ok(read) => Ok(read),
        Err(_) => Err(Memory),
    }
}

#[derive(Drop)]
struct Sample {
    trips: u32,
    ghost few: { trips ≤ MOST_SAMPLE },
}

impl Command for Sample {
    ghost asked = { λ c. sample_asked c.trips };

    fn papers(&self) -> &[Paper] {
        &[]
    }

    fn keeps(&self) -> bool {
        false
    }

    fn outcome<'a, L: Ledger>(
        &self,
        alloc: Global,
        _read: &'a Read,
        steps: &mut Steps<L>,
    ) -> Result<Outcome<'a>, Memory> {
        let read = read_sample(alloc, self.trips)?;
        let command = OnFeed::of(Summarize { trips: self.trips });
        let outcome = command.outcome(alloc, &read, steps)?;
        Ok(outcome.lending_nothing())
    }
}

/// The command `sample`: a feed of so many trips, made by a rule, is scheduled and checked, and its numbers are put in one line.
/// Nothing is read or written. It answers the status.
pub fn run_sample<S: Shelf, O: Sink, K: Keeper, L: Ledger>(
    alloc: Global,
    trips: u32,
    shelf: &mut S,
    out: &mut O,
    keeper: &mut K,
    steps: &mut Steps<L>,
) -> u8
    requires { trips ≤ MOST_SAMPLE }
    ensures { let at = outside S.state S.history O.state O.history K.state K.history in
        Performs (sample_asked trips) (at shelf.old out.old keeper.old) (at shelf.new out.new keeper.new) result steps.old steps.new }
{
    perform(&Sample { trips }, alloc, shelf, out, keeper, steps)
}
