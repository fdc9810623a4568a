ghost use Rattle.std.specs.Prelude.{◌≡◌, ◌≢◌, IfOk};
ghost use Rattle.desk_feed.specs.Feed.{HasPapers};
ghost use Rattle.desk_feed.specs.Judging.{Judges, refusing};

use crate::feed::{Feed, read_feed};
use desk_io::Memory;
use desk_run::{Ending, Outcome, Read};
use gtfs_tables::{FeedFault, Paper, feed_line};
use std::alloc::Global;

/// The papers of a feed, in the order in which they are read and judged, and behind them those that are given.
#[macro_export]
macro_rules! feed_papers {
    ($($further:expr),*) => {
        [
            Paper::Settings,
            Paper::Terminals,
            Paper::Tolerances,
            Paper::Calendar,
            Paper::CalendarDates,
            Paper::Trips,
            Paper::StopTimes,
            Paper::Deadheads,
            Paper::Depot,
            Paper::Pairs,
            Paper::Edits,
            $($further),*
        ]
    };
}

/// The papers of a feed, in the order in which they are read and judged.
pub const FEED_PAPERS: [Paper; 11] = feed_papers!();

/// What a feed says, or what is done where it is refused.
#[derive(Drop)]
pub enum Judged {
    Accepted(Feed),
    Refused(Outcome<'static>),
}

/// What is done where a file is refused: the line of the refusal is put.
pub fn refuse(alloc: Global, refused: &FeedFault) -> Result<Outcome<'static>, Memory>
    requires { refused.now ≢ FeedFault.Memory }
    ensures { IfOk result (λ outcome. outcome ≡ refusing refused.now) }
{
    let line = feed_line(alloc, refused)?;
    Ok(Outcome::putting(alloc, line, Ending::FeedRefused))
}

/// Reads the feed of what was read, which has to have all its papers: what it says, or the outcome of its first refusal.
pub fn judge_feed(alloc: Global, read: &Read) -> Result<Judged, Memory>
    requires { HasPapers read.now.pages }
    ensures { IfOk result (Judges read.now) }
{
    match read_feed(alloc, read) {
        Ok(feed) => Ok(Judged::Accepted(feed)),
        Err(FeedFault::Memory) => Err(Memory),
        Err(refused) => Ok(Judged::Refused(refuse(alloc, &refused)?)),
    }
}
