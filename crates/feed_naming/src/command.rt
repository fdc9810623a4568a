ghost use Rattle.std.specs.Prelude.{◌≡◌, ◌+◌, ◌++◌, ◌≤◌, length, IfOk, Ok};
ghost use Rattle.desk_feed.specs.Commands.{said_to};
ghost use Rattle.desk_feed.specs.Feed.{feed_papers};
ghost use Rattle.feed_naming.specs.Naming.{naming_in};

use crate::naming::read_naming;
use block_names::Naming;
use desk_feed::{FeedCommand, Said, refuse};
use desk_io::{Memory, Steps};
use desk_run::Outcome;
use gtfs_tables::FeedFault;
use std::alloc::Global;
use std::sync::ledger::Ledger;

/// What a command brings that names blocks: what it asks, and the outcome that it gives of an accepted feed whose names are text.
pub trait NamingCommand {
    ghost use Rattle.std.specs.Prelude.{◌≡◌, ◌+◌, ◌++◌, ◌≤◌, length, IfOk, Ok};
    ghost use Rattle.desk_feed.specs.Commands.{said_to};
    ghost use Rattle.desk_feed.specs.Feed.{feed_papers};
    ghost use Rattle.desk_feed.specs.Judging.{said_in};
    ghost use Rattle.desk_feed.specs.Script.{IsScript};
    ghost use Rattle.desk_run.specs.Reading.{papers_of};
    ghost use Rattle.feed_naming.specs.Commands.{IsGivenNamed, NamingAsked};

    /// What it asks.
    ghost asks: { Self → NamingAsked };

    /// What it does of what the feed says.
    fn outcome<'a, L: Ledger>(
        &self,
        said: Said<'a, '_>,
        naming: &Naming,
        steps: &mut Steps<L>,
    ) -> Result<Outcome<'a>, Memory>
        requires papers { papers_of said.read.now.pages ≡ feed_papers ++ (asks self.now).further }
        requires says { said_in said.read.now ≡ Ok (said_to said) }
        requires pulls { length said.pulls ≡ length said.timetable.places }
        requires script { IsScript said.lines.now }
        ensures given { IfOk result (IsGivenNamed (asks self.now) said.entry.read.now naming.now (said_to said.entry)) }
        ensures counted { steps.new ≤ steps.old + (asks self.now).most said.entry.read.now (said_to said.entry) };
}

/// The command on a feed that names blocks as the other one says, or puts the refusal of a name.
#[derive(Drop)]
pub struct OnNames<C>(pub C);

impl<C: NamingCommand> FeedCommand for OnNames<C> {
    ghost use Rattle.feed_naming.specs.Commands.{of_naming};

    ghost asks = { λ c. of_naming (C.asks c.0) };

    fn outcome<'a, L: Ledger>(
        &self,
        said: Said<'a, '_>,
        steps: &mut Steps<L>,
    ) -> Result<Outcome<'a>, Memory> {
        match read_naming(said.alloc, said.settings, said.read) {
            Ok(naming) => self.0.outcome(said, &naming, steps),
            Err(FeedFault::Memory) => Err(Memory),
            Err(fault) => refuse(said.alloc, &fault),
        }
    }
}
