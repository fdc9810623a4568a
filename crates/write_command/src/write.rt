ghost use Rattle.std.specs.Prelude.{◌≡◌, ◌+◌, ◌<◌, ◌≤◌, length, All, IfOk};
ghost use Rattle.block_writer.specs.Texts.{AreTexts};
ghost use Rattle.desk_feed.specs.Commands.{said_to};
ghost use Rattle.desk_feed.specs.Feed.{HasPapers};
ghost use Rattle.desk_feed.specs.Script.{IsScript};
ghost use Rattle.desk_run.specs.Outside.{outside};
ghost use Rattle.desk_run.specs.Performs.{Performs};
ghost use Rattle.feed_desk.specs.Plans.{most_steps_of};
ghost use Rattle.write_command.specs.Write.{Writes, files_of, stop_times_in, trips_table, write_asked};
ghost use Rattle.write_command.specs.Writable.{IsWritable, IsWrittenOf};

use crate::judging::trip_columns;
use block_build::{BlockNames, Blocks};
use block_names::Naming;
use block_writer::{read_texts, stop_times_text, trips_text};
use desk_core::NoDeficits;
use desk_feed::{OnFeed, Said, matrix_of, refuse};
use desk_io::{Memory, Shelf, Sink, Steps, Text};
use desk_keeper::Keeper;
use desk_run::{Content, Outcome, Read, Writing, perform};
use desk_settings::{Settings, chosen_in};
use feed_desk::{Drawn, draw_after};
use feed_likings::read_likings;
use feed_naming::{NamingCommand, OnNames};
use gtfs_tables::{FeedFault, Paper, Table};
use std::alloc::Global;
use std::borrow::Cow;
use std::sync::ledger::Ledger;
use trip_model::Timetable;

// What is written again of a feed: the table of its trips and the text of its stop times. Or what is done where one of the two
// papers is refused.
#[derive(Drop)]
enum Writable<'a> {
    Texts(Table, Content<'a>),
    Refused(Outcome<'a>),
}

// What is written again of the two papers, for a timetable and the number of its slots that have records.
fn writable_of<'a>(
    alloc: Global,
    settings: &Settings,
    read: &'a Read,
    timetable: &Timetable,
    base: u16,
) -> Result<Writable<'a>, Memory>
    requires { HasPapers read.now.pages }
    ensures { IfOk result (IsWritable settings.now timetable.now base (trips_table read.now) (stop_times_in read.now)) }
{
    let trips = read.found(Paper::Trips);
    let stop_times = read.found(Paper::StopTimes);
    let trips = match read_texts(alloc, Paper::Trips, trip_columns(settings), trips) {
        Ok(trips) => trips,
        Err(FeedFault::Memory) => return Err(Memory),
        Err(fault) => return Ok(Writable::Refused(refuse(alloc, &fault)?)),
    };
    match stop_times_text(alloc, stop_times, timetable, base) {
        Ok(text) => Ok(Writable::Texts(trips, Content::of(text))),
        Err(FeedFault::Memory) => Err(Memory),
        Err(fault) => Ok(Writable::Refused(refuse(alloc, &fault)?)),
    }
}

// The two files of blocks for a timetable.
#[tactic(auto, unfolding(crate::specs::Write::files_of))]
fn files<'a>(
    alloc: Global,
    settings: &Settings,
    timetable: &Timetable,
    blocks: &Blocks,
    names: &BlockNames,
    trips: &Table,
    stop_times: Content<'a>,
) -> Result<Vec<Writing<'a>>, Memory>
    requires slots { All (All (λ s. s < length timetable.now.slots)) blocks.now }
    requires named { length names.now ≡ length blocks.now }
    requires trips { AreTexts trips.now }
    ensures { IfOk result (λ writes. writes.items
        ≡ files_of settings.now timetable.now blocks.now names.now trips.now stop_times.entry) }
{
    let chosen = chosen_in(alloc, settings, trips)?;
    let first = trips_text(alloc, trips, timetable, &chosen, blocks, names)?;
    let first = Content::of(Cow::Owned(first));
    let first = Writing::holding(alloc, "trips_blocks.txt", first)?;
    let second = Writing::holding(alloc, "stop_times_blocks.txt", stop_times)?;
    Ok(vec![in alloc; first, second]?)
}

// What is written and put of the plan after a script.
fn written<'a>(
    alloc: Global,
    settings: &Settings,
    naming: &Naming,
    drawn: &Drawn<NoDeficits>,
    trips: &Table,
    stop_times: Content<'a>,
) -> Result<Outcome<'a>, Memory>
    requires slots { All (All (λ s. s < length drawn.now.desk.script.timetable.slots)) drawn.now.blocks }
    requires trips { AreTexts trips.now }
    ensures { IfOk result (IsWrittenOf settings.now naming.now drawn.now trips.now stop_times.entry) }
{
    let timetable = drawn.desk.timetable();
    let blocks = &drawn.blocks;
    let names = naming.names(alloc, blocks)?;
    let writes = files(
        alloc, settings, timetable, blocks, &names, trips, stop_times,
    )?;
    let refused = drawn.refused.as_str();
    let text = format!(in alloc; "{refused}wrote trips_blocks.txt, stop_times_blocks.txt\n")?;
    Ok(Outcome::of(writes, None, Text::wrap(text), drawn.ending))
}

// What is written and put of what a feed says.
fn written_of<'a, L: Ledger>(
    said: Said<'a, '_>,
    naming: &Naming,
    steps: &mut Steps<L>,
) -> Result<Outcome<'a>, Memory>
    requires papers { HasPapers said.read.now.pages }
    requires pulls { length said.pulls ≡ length said.timetable.places }
    requires script { IsScript said.lines.now }
    ensures writes { IfOk result (Writes said.entry.read.now naming.now (said_to said.entry)) }
    ensures counted { steps.new ≤ steps.old + most_steps_of (said_to said.entry) }
{
    let slots = said.timetable.slots();
    let alloc = said.alloc;
    let pulls = said.pulls;
    let rules = said.rules;
    let matrix = matrix_of(alloc, &said.timetable, said.deadheads, pulls, rules)?;
    let likings = read_likings(alloc, said.settings, said.read, &said.timetable)?;
    let drawn = draw_after(alloc, said.timetable, said.lines, matrix, &likings, steps)?;
    let stands = drawn.desk.timetable();
    match writable_of(alloc, said.settings, said.read, stands, slots)? {
        Writable::Refused(outcome) => Ok(outcome),
        Writable::Texts(trips, stop_times) => {
            written(alloc, said.settings, naming, &drawn, &trips, stop_times)
        }
    }
}

#[derive(Drop)]
struct WriteFeed;

impl NamingCommand for WriteFeed {
    ghost use Rattle.write_command.specs.Write.{write_named};

    ghost asks = { λ _. write_named };

    fn outcome<'a, L: Ledger>(
        &self,
        said: Said<'a, '_>,
        naming: &Naming,
        steps: &mut Steps<L>,
    ) -> Result<Outcome<'a>, Memory> {
        written_of(said, naming, steps)
    }
}

/// The command `write`: the agency's trips with the block of each in `trips_blocks.txt`, and its stop times with those of
/// shifted trips moved in `stop_times_blocks.txt`. It answers the status.
#[tactic(auto, unfolding(crate::specs::Write::write_asked))]
pub fn run_write<S: Shelf, O: Sink, K: Keeper, L: Ledger>(
    alloc: Global,
    shelf: &mut S,
    out: &mut O,
    keeper: &mut K,
    steps: &mut Steps<L>,
) -> u8
    ensures { let at = outside S.state S.history O.state O.history K.state K.history in
        Performs write_asked (at shelf.old out.old keeper.old) (at shelf.new out.new keeper.new) result steps.old steps.new }
{
    perform(
        &OnFeed::of(OnNames(WriteFeed)),
        alloc,
        shelf,
        out,
        keeper,
        steps,
    )
}
