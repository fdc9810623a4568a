ghost use Rattle.std.specs.Prelude.{◌≡◌, length, IfOk};
ghost use Rattle.gtfs_tables.specs.declared.paper.Column.TheVariants as column;
ghost use Rattle.gtfs_tables.specs.declared.paper.Paper.TheVariants as paper;
ghost use Rattle.desk_settings.specs.Selected.{selected_fields};
ghost use Rattle.desk_settings.specs.declared.prefer.Preference.TheVariants as preference;
ghost use Rattle.desk_run.specs.Reading.{IsAmong, papers_of};
ghost use Rattle.feed_likings.specs.Likings as spec;

use crate::alike::first_alike;
use crate::fields::Fields;
use crate::nexts::stated_nexts;
use crate::units::unit_of;
use desk_io::Memory;
use desk_run::Read;
use desk_settings::{Preference, Settings, chosen_in};
use gtfs_tables::{Column, FeedFault, Paper, Table, table_in};
use plan_choice::Likings;
use std::alloc::Global;
use trip_model::Timetable;

// The next trips in stated blocks, where these are preferred.
fn nexts_of(
    alloc: Global,
    settings: &Settings,
    trips: &Table,
    chosen: &[bool],
    timetable: &Timetable,
) -> Result<Vec<Option<u16>>, Memory>
    requires { length chosen.now ≡ length trips.now.rows }
    ensures { IfOk result (λ nexts. nexts.items ≡ spec.if_preferred preference.Stated settings.now.prefer
        (spec.nexts_by (selected_fields column.BlockId trips.now chosen.now) timetable.now)) }
{
    if !settings.prefer().has(Preference::Stated) {
        return Ok(Vec::new(alloc));
    }
    let names = Fields::of(alloc, Column::BlockId, trips, chosen)?;
    stated_nexts(alloc, &names, timetable)
}

// The lines of the slots, where these are preferred.
fn lines_of(
    alloc: Global,
    settings: &Settings,
    trips: &Table,
    chosen: &[bool],
    timetable: &Timetable,
) -> Result<Vec<Option<u16>>, Memory>
    requires { length chosen.now ≡ length trips.now.rows }
    ensures { IfOk result (λ lines. lines.items ≡ spec.if_preferred preference.Line settings.now.prefer
        (spec.lines_by (selected_fields column.RouteId trips.now chosen.now) timetable.now)) }
{
    if !settings.prefer().has(Preference::Line) {
        return Ok(Vec::new(alloc));
    }
    let routes = Fields::of(alloc, Column::RouteId, trips, chosen)?;
    first_alike(alloc, &routes, timetable.slots())
}

/// How links are liked, by what the settings prefer. A neighbour in a stated block, a link of one line and a minute that is not
/// waited count as [`Likings`] says. The table has to be that of the `trips.txt` from which the timetable was read. So its n-th
/// selected record is that of the n-th slot. Nothing is liked by a column that is not there.
pub fn likings_of(
    alloc: Global,
    settings: &Settings,
    trips: &Table,
    timetable: &Timetable,
) -> Result<Likings, Memory>
    ensures { IfOk result (λ likings. likings ≡ spec.likings_of settings.now trips.now timetable.now) }
{
    let order = settings.prefer().as_slice();
    let chosen = chosen_in(alloc, settings, trips)?;
    let nexts = nexts_of(alloc, settings, trips, &chosen, timetable)?;
    let lines = lines_of(alloc, settings, trips, &chosen, timetable)?;
    let stated = unit_of(Preference::Stated, order);
    let line = unit_of(Preference::Line, order);
    let waiting = unit_of(Preference::Waiting, order);
    Ok(Likings::new(stated, line, waiting, nexts, lines))
}

/// How links are liked by what was read: nothing is where `trips.txt` is no table, which it is in each accepted feed. It is not
/// looked at where nothing is preferred.
pub fn read_likings(
    alloc: Global,
    settings: &Settings,
    read: &Read,
    timetable: &Timetable,
) -> Result<Likings, Memory>
    requires { IsAmong (papers_of read.now.pages) paper.Trips }
    ensures { IfOk result (λ likings. likings ≡ spec.likings_in read.now settings.now timetable.now) }
{
    if settings.prefer().as_slice().is_empty() {
        return Ok(Likings::none(alloc));
    }
    match table_in(alloc, Paper::Trips, read.found(Paper::Trips)) {
        Ok(trips) => likings_of(alloc, settings, &trips, timetable),
        Err(FeedFault::Memory) => Err(Memory),
        Err(_) => Ok(Likings::none(alloc)),
    }
}
