ghost use Rattle.std.specs.Prelude.{◌≡◌, ◌+◌, ◌<◌, ◌^◌, length};
ghost use Rattle.gtfs_tables.specs.Reading.{Gives, table_in};
ghost use Rattle.gtfs_tables.specs.declared.paper.Paper.TheVariants as paper;
ghost use Rattle.desk_run.specs.Reading.{IsAmong, found_of, papers_of};
ghost use Rattle.feed_naming.specs.Naming as spec;

use block_names::Naming;
use desk_io::{Memory, Text};
use desk_run::Read;
use desk_settings::{Settings, chosen_in};
use gtfs_tables::{Column, FeedFault, Paper, Table, place_of, table_in, text_in};
use std::alloc::Global;

// Appends the `block_id` of a record, counted from 0, where it is selected.
fn push_stated(
    alloc: Global,
    names: &mut Vec<Text>,
    trips: &Table,
    chosen: &[bool],
    before: u32,
) -> Result<(), FeedFault>
    requires chosen { length chosen.now ≡ length trips.now.rows }
    requires before { before < length trips.now.rows }
    requires number { before + 1 < 2 ^ 32 }
    ensures { Gives (λ _. names.new.items) result (spec.with_stated trips.now chosen.now before names.old.items) }
{
    if chosen[before as usize] {
        let place = place_of(Column::BlockId, trips.header());
        let field = trips.row(before + 1).field(place);
        let name = text_in(Paper::Trips, before + 1, Column::BlockId, field)?;
        names.push(Text::of(alloc, name)?)?;
    }
    Ok(())
}

// The `block_id` of each selected record.
fn stated_texts(alloc: Global, trips: &Table, chosen: &[bool]) -> Result<Vec<Text>, FeedFault>
    requires { length chosen.now ≡ length trips.now.rows }
    ensures { Gives (λ names. names.items) result (spec.stated_texts trips.now chosen.now) }
{
    let mut names = Vec::new(alloc);
    for before in 0..trips.records() {
        push_stated(alloc, &mut names, trips, chosen, before)?;
    }
    Ok(names)
}

// The names that blocks keep.
fn kept_names(alloc: Global, settings: &Settings, read: &Read) -> Result<Vec<Text>, FeedFault>
    requires { IsAmong (papers_of read.now.pages) paper.Trips }
    ensures { Gives (λ names. names.items) result (spec.kept_by settings.now (table_in paper.Trips (found_of read.now.pages paper.Trips))) }
{
    if !settings.keeps_names() {
        return Ok(Vec::new(alloc));
    }
    let trips = table_in(alloc, Paper::Trips, read.found(Paper::Trips))?;
    let chosen = chosen_in(alloc, settings, &trips)?;
    stated_texts(alloc, &trips, &chosen)
}

/// How blocks are named by the settings and by what was read: by numbers, or with the names that the feed states. A stated name
/// that is no text is refused.
pub fn read_naming(alloc: Global, settings: &Settings, read: &Read) -> Result<Naming, FeedFault>
    requires { IsAmong (papers_of read.now.pages) paper.Trips }
    ensures { Gives (λ naming. naming) result (spec.naming_in read.now settings.now) }
{
    let stated = kept_names(alloc, settings, read)?;
    let prefix = Text::of(alloc, settings.prefix())?;
    Ok(Naming::of(prefix, stated))
}
